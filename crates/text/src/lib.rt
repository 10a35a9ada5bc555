// Words and numbers end to end: what a program's line is made of.
//
// The functions `put`, `put_decimal` and `put_hex` put theirs behind the first `at` bytes of a buffer that the caller lends, and answer where
// it ends.
#![tactic(auto)]

mod digits;

ghost use Rattle.std.specs.Prelude.{◌≡◌, ◌++◌, ◌+◌, ◌≤◌, length, take};
ghost use Rattle.text.specs.Digits.{last_digits};
ghost use Rattle.text.specs.Text.{Decimal, Appended};

use arrayvec::ArrayString;
use digits::{digit_count, write_digits};

// A number in decimal digits. It takes 20 at most.
pub fn decimal(n: u64) -> ArrayString<20>
    ensures { Decimal n result.bytes }
{
    let mut digits = [0u8; 20];
    let count = digit_count(n, 10, 1);
    write_digits(n, 10, count, &mut digits);
    let mut text = ArrayString::new();
    for digit in &digits[..count] {
        text.push(char::from(*digit));
    }
    text
}

pub fn put(word: &[u8], at: usize, out: &mut [u8]) -> usize
    requires { at + length word.now ≤ length out.old }
    ensures value { result ≡ at + length word.now }
    ensures out_after { take result out.new ≡ take at out.old ++ word.now }
{
    let end = at + word.len();
    out[at..end].copy_from_slice(word);
    end
}

// A number takes 20 places at most.
pub fn put_decimal(n: u64, at: usize, out: &mut [u8]) -> usize
    requires { at + 20 ≤ length out.old }
    ensures upper_bound { result ≤ at + 20 }
    ensures appended { Appended n (take at out.old) (take result out.new) }
{
    let mut digits = [0u8; 20];
    let count = digit_count(n, 10, 1);
    write_digits(n, 10, count, &mut digits);
    put(&digits[..count], at, out)
}

// A number's 16 hex digits, in lower case.
pub fn put_hex(n: u64, at: usize, out: &mut [u8]) -> usize
    requires { at + 16 ≤ length out.old }
    ensures value { result ≡ at + 16 }
    ensures out_after { take result out.new ≡ take at out.old ++ last_digits 16 16 n }
{
    let mut digits = [0u8; 16];
    write_digits(n, 16, 16, &mut digits);
    put(&digits, at, out)
}
