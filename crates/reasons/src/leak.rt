// A leak as a decimal number: rounded to millionths, and without zeros at its end.
ghost use Rattle.std.specs.Prelude.{◌≡◌, ◌+◌, ◌<◌, ◌≤◌};
ghost use Rattle.arrayvec.specs.ArrayString.{array_string_len};
ghost use Rattle.reasons.specs.Leak.{millionths_of, places_of, Leak};

use arrayvec::ArrayString;
use std::num::truncating_f64_to_u64;
use text::decimal;

// Puts the leak behind the line. A number takes 20 places at most, and what is behind its point 7.
pub fn push_leak(line: &mut ArrayString<143>, leak: f64)
    requires { array_string_len line.old + 27 ≤ 143 }
    ensures upper_bound { array_string_len line.new ≤ array_string_len line.old + 27 }
    ensures leak { Leak leak line.old.bytes line.new.bytes }
{
    let count = millionths(leak);
    line.push_str(decimal(count / 1000000).as_str());
    if count % 1000000 != 0 {
        line.push_str(".");
        line.push_str(places(count % 1000000).as_str());
    }
}

// How many millionths are nearest. A leak lies between 0 and 0.75; what a u64 does not hold is 0.
fn millionths(leak: f64) -> u64
    ensures { result ≡ millionths_of leak }
{
    let above = leak * 1000000.0 + 0.5;
    if above > -1.0 {
        if above < 18446744073709551616.0 {
            return truncating_f64_to_u64(above);
        }
    }
    0
}

// The six decimal places of so many millionths, up to the last that is not 0.
fn places(behind: u64) -> ArrayString<6>
    requires { behind < 1000000 }
    ensures { result.bytes ≡ places_of 6 behind }
{
    let mut digits = ArrayString::new();
    let mut rest = behind;
    for _ in 0..6u32 {
        if rest == 0 {
            return digits;
        }
        digits.push(char::from(b'0' + (rest / 100000) as u8));
        rest = rest % 100000 * 10;
    }
    digits
}
