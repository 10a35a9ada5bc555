// The digits of a number.
ghost use Rattle.std.specs.Prelude.{◌≡◌, ◌<◌, ◌≤◌, length, take, drop};
ghost use Rattle.text.specs.Digits.{digit_ascii, last_digits, IsDigitCount};

// How many digits `n` takes in a base, or `width` where that is more.
pub fn digit_count(n: u64, base: u64, width: usize) -> usize
    requires base { 1 < base }
    requires width_nonzero { 0 < width }
    ensures { IsDigitCount base width n result }
{
    least_count(n, base).max(width)
}

fn least_count(n: u64, base: u64) -> usize
    requires { 1 < base }
    ensures { IsDigitCount base 1 n result }
{
    match n.checked_ilog(base) {
        Some(k) => k as usize + 1,
        None => 1,
    }
}

// Puts the last `k` digits of `n` at the front of `out`.
pub fn write_digits(n: u64, base: u64, k: usize, out: &mut [u8])
    requires base_nonzero { 0 < base }
    requires base_small { base ≤ 16 }
    requires in_bounds { k ≤ length out.old }
    ensures digits { take k out.new ≡ last_digits base k n }
    ensures rest { drop k out.new ≡ drop k out.old }
{
    let mut rest = n;
    for i in (0..k).rev() {
        out[i] = ascii(rest % base);
        rest /= base;
    }
}

fn ascii(d: u64) -> u8
    requires { d < 16 }
    ensures { result ≡ digit_ascii d }
{
    if d < 10 {
        b'0' + d as u8
    } else {
        b'a' - 10 + d as u8
    }
}
