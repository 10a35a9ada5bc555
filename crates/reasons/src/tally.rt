// How many blocks had each reason, and in how many a sample went over: eleven counts, ten by the reason's number and the last of these.
ghost use Rattle.std.specs.Prelude.{◌≡◌, ◌+◌, ◌<◌, ◌≤◌, [], length};
ghost use Rattle.arrayvec.specs.ArrayString.{array_string_len};
ghost use Rattle.reasons.specs.Course.{number_of};
ghost use Rattle.reasons.specs.Tally.{counted_of, block_counted, Heading, Row, Summary};

use crate::words::words;
use arrayvec::ArrayString;
use tau_state::report::{Told, reason_number};
use tau_state::sums::one_more;
use text::decimal;

// A block that tells this.
#[tactic(auto, using(crate::proofs::Reasons::most))]
pub fn count_told(told: Told, counts: &mut [u64; 11])
    ensures { counts.new ≡ block_counted (number_of told) told.overs counts.old }
{
    count_block(reason_number(told.reason), told.overs, counts);
}

// A block whose reason has this number, or 10, which none has, and so many overs.
#[tactic(auto, unfolding(crate::specs::Tally::block_counted, laws::specs::Choice::pick))]
pub fn count_block(number: u32, overs: u32, counts: &mut [u64])
    requires number_in_bounds { number < length counts.old }
    requires counts_len { length counts.old ≡ 11 }
    ensures { counts.new ≡ block_counted number overs counts.old }
{
    count(number as usize, counts);
    if overs == 0 {
        return;
    }
    count(10, counts);
}

fn count(number: usize, counts: &mut [u64])
    requires { number < length counts.old }
    ensures { counts.new ≡ counted_of number counts.old }
{
    counts[number] = one_more(counts[number]);
}

// All blocks, a row for each reason that came, and one of the blocks with overs. The heading is 29 bytes at most, and each of ten rows 48.
pub fn summary(blocks: u64, counts: &[u64; 11]) -> ArrayString<509>
    ensures { Summary blocks counts.now result.bytes }
{
    let mut text = ArrayString::new();
    push_heading(&mut text, blocks);
    for number in 1..11 {
        push_row(&mut text, counts[number as usize], number);
    }
    text
}

// A blank line sets it off from the stretches, where there are any.
fn push_heading(text: &mut ArrayString<509>, blocks: u64)
    requires { text.old.bytes ≡ [] }
    ensures upper_bound { array_string_len text.new ≤ 29 }
    ensures heading { Heading blocks text.new.bytes }
{
    if blocks == 0 {
        text.push_str("0 blocks\n");
        return;
    }
    text.push_str("\n");
    text.push_str(decimal(blocks).as_str());
    if blocks == 1 {
        text.push_str(" block\n");
        return;
    }
    text.push_str(" blocks\n");
}

fn push_row(text: &mut ArrayString<509>, count: u64, number: u32)
    requires { array_string_len text.old + 48 ≤ 509 }
    ensures upper_bound { array_string_len text.new ≤ array_string_len text.old + 48 }
    ensures row { Row count number text.old.bytes text.new.bytes }
{
    if count == 0 {
        return;
    }
    text.push_str(decimal(count).as_str());
    text.push_str(" ");
    text.push_str(words(number));
    text.push_str("\n");
}
