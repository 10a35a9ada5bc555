// Reading.
ghost use Rattle.std.specs.Prelude.{◌≡◌, ◌+◌, ◌*◌, ◌<◌, length};
ghost use Rattle.laws.specs.Loops.{over};
ghost use Rattle.wire.specs.Wire.{sample_at, pairs_in};
ghost use Rattle.wire.specs.Promises.{WholePairs, ReadNear, ReadFar, KeepRest};

pub fn whole_pairs(bytes: &[u8]) -> usize
    ensures { WholePairs bytes.now result }
{
    bytes.len() / 8
}

// The near samples of the whole pairs, as many as there is room for.
pub fn read_near(bytes: &[u8], near: &mut [f32])
    ensures { ReadNear bytes.now near.old near.new }
{
    read_from(bytes, 0, near);
}

// The far samples.
pub fn read_far(bytes: &[u8], far: &mut [f32])
    ensures { ReadFar bytes.now far.old far.new }
{
    read_from(bytes, 1, far);
}

// Every second sample, from number `first` on.
fn read_from(bytes: &[u8], first: usize, to: &mut [f32])
    requires { first < 2 }
    ensures { to.new ≡ over (pairs_in bytes.now) (λ k x. sample_at bytes.now (2 * k + first)) to.old }
{
    for k in 0..whole_pairs(bytes).min(to.len()) {
        to[k] = sample(bytes, 2 * k + first);
    }
}

// Sample number k.
fn sample(bytes: &[u8], k: usize) -> f32
    requires { 4 * k + 3 < length bytes.now }
    ensures { result ≡ sample_at bytes.now k }
{
    let at = 4 * k;
    let pattern = u32::from_le_bytes([bytes[at], bytes[at + 1], bytes[at + 2], bytes[at + 3]]);
    numbers::from_bits32(pattern)
}

// Of the first `held` bytes of a block, those after the last whole pair go to its start. Fewer than eight.
pub fn keep_rest(held: usize, block: &mut [u8])
    ensures { KeepRest held block.old block.new }
{
    if held <= block.len() {
        block.copy_within(held / 8 * 8..held, 0);
    }
}
