// The lines of a release manifest, in order.
//
// A line ends at a newline, and the last may have none. Every byte of every line is kept, a carriage return too. The answer is as long
// as the manifest: its lines in the order of `line_order`, and a newline at its end where the manifest has one.
#![tactic(auto)]

mod output;
mod place;
mod split;

ghost use Rattle.manifest.specs.Promises.{Sort, sorted_by};

use std::fmt;

pub const MOST_BYTES: usize = 65536;

pub const MOST_LINES: usize = 4096;

// Why a manifest is not sorted: it has more bytes or more lines than that, or the buffer is shorter than it.
#[derive(Clone, Copy, Debug, PartialEq, Eq)]
pub enum SortError {
    TooLong,
    TooManyLines,
    NoRoom,
}

impl fmt::Display for SortError {
    fn fmt<W: fmt::Write>(&self, f: &mut fmt::Formatter<W>) -> fmt::Result {
        match self {
            SortError::TooLong => write!(f, "the manifest has more than {MOST_BYTES} bytes"),
            SortError::TooManyLines => write!(f, "the manifest has more than {MOST_LINES} lines"),
            SortError::NoRoom => write!(f, "the buffer is shorter than the manifest"),
        }
    }
}

// Sorts `text` into the start of `out`, and counts its bytes. A refused call writes nothing.
pub fn sort(text: &[u8], out: &mut [u8]) -> Result<usize, SortError>
    ensures { Sort text.now out.old (sorted_by result) out.new }
{
    if text.len() > MOST_BYTES {
        return Err(SortError::TooLong);
    }
    if split::count_lines(text) > MOST_LINES {
        return Err(SortError::TooManyLines);
    }
    if out.len() < text.len() {
        return Err(SortError::NoRoom);
    }
    let mut lines: [&[u8]; MOST_LINES] = [&[]; MOST_LINES];
    let count = place::order_lines(text, &mut lines).ok_or(SortError::TooManyLines)?;
    output::write_lines(&lines[..count], &mut out[..text.len()]);
    Ok(text.len())
}
