// The line of a stretch: which blocks, why, and how many samples went over in each.
ghost use Rattle.std.specs.Prelude.{◌≡◌, ◌+◌, ◌≤◌, [], length};
ghost use Rattle.arrayvec.specs.ArrayString.{array_string_len};
ghost use Rattle.reasons.specs.Line.{Blocks, Why, Overs, Line};

use crate::leak::push_leak;
use crate::words::words;
use arrayvec::ArrayString;
use text::decimal;

// The blocks from `first` up to `last`. Two numbers, a reason with its leak, a count, and what stands between are 143 bytes at most.
pub fn line_of(first: u64, last: u64, number: u32, leak: f64, overs: u32) -> ArrayString<143>
    ensures { Line first last number leak overs result.bytes }
{
    let mut line = ArrayString::new();
    push_blocks(&mut line, first, last);
    line.push_str(": ");
    push_why(&mut line, number, leak);
    push_overs(&mut line, overs);
    line.push_str("\n");
    line
}

fn push_blocks(line: &mut ArrayString<143>, first: u64, last: u64)
    requires { line.old.bytes ≡ [] }
    ensures upper_bound { array_string_len line.new ≤ 48 }
    ensures blocks { Blocks first last line.new.bytes }
{
    if last <= first {
        line.push_str("block ");
        line.push_str(decimal(first).as_str());
        return;
    }
    line.push_str("blocks ");
    line.push_str(decimal(first).as_str());
    line.push_str("-");
    line.push_str(decimal(last).as_str());
}

// A move has its leak behind the word.
fn push_why(line: &mut ArrayString<143>, number: u32, leak: f64)
    requires { array_string_len line.old + 60 ≤ 143 }
    ensures upper_bound { array_string_len line.new ≤ array_string_len line.old + 60 }
    ensures why { Why number leak line.old.bytes line.new.bytes }
{
    line.push_str(words(number));
    if number != 9 {
        return;
    }
    line.push_str(", leak ");
    push_leak(line, leak);
}

// Nothing where no sample went over.
fn push_overs(line: &mut ArrayString<143>, overs: u32)
    requires { array_string_len line.old + 32 ≤ 143 }
    ensures upper_bound { array_string_len line.new ≤ array_string_len line.old + 32 }
    ensures overs { Overs overs line.old.bytes line.new.bytes }
{
    if overs == 0 {
        return;
    }
    line.push_str(", ");
    line.push_str(decimal(u64::from(overs)).as_str());
    line.push_str(" went over");
}
