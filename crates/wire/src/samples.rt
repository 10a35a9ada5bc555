// Writing.
ghost use Rattle.std.specs.Prelude.{◌≡◌, ◌<◌};
ghost use Rattle.wire.specs.Wire.{byte_of};
ghost use Rattle.wire.specs.Promises.{WriteSamples};

// The samples' bytes in a row, as many as there is room for: byte by byte, since of the last sample there may be room for a part.
pub fn write_samples(samples: &[f32], bytes: &mut [u8])
    ensures { WriteSamples samples.now bytes.old bytes.new }
{
    for i in 0..(4 * samples.len()).min(bytes.len()) {
        bytes[i] = byte(numbers::to_bits32(samples[i / 4]), i % 4);
    }
}

// Of a pattern's four bytes, the lowest first.
fn byte(pattern: u32, j: usize) -> u8
    requires { j < 4 }
    ensures { result ≡ byte_of pattern j }
{
    pattern.to_le_bytes()[j]
}
