// Bit patterns, both ways, total at a NaN: every NaN's pattern is read as the one NaN, which is written
// 7FF8000000000000 and 7FC00000.
ghost use Rattle.std.specs.Prelude.{◌≡◌, from_bits, to_bits};
ghost use Rattle.numbers.specs.Promises.{FromBits32, ToBits32};

use crate::float::Float;

pub fn from_bits<F: Float>(b: F::Bits) -> F
    ensures { F.float result ≡ from_bits F.format (F.pattern b) }
{
    F::from_bits(b)
}

pub fn from_bits32(b: u32) -> f32
    ensures { FromBits32 b result }
{
    from_bits(b)
}

pub fn to_bits<F: Float>(x: F) -> F::Bits
    ensures { F.pattern result ≡ to_bits F.format (F.float x) }
{
    x.to_bits()
}

pub fn to_bits32(x: f32) -> u32
    ensures { ToBits32 x result }
{
    to_bits(x)
}
