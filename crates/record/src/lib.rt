// Records, of which a capture is made: what went into an engine's calls and what came out, with each flush and reset at its place.
//
// A record is six bytes of header and a payload: the mark EC 0E, the kind, a zero byte, the payload's length with its least byte first.
// A payload has at most 4,096 bytes. Kind 1 holds pairs, eight bytes each; 2 output samples, four each; 3 is a flush and 4 a reset, both
// empty. Payloads are bytes here, and stay as they are: a NaN comes back with the bits that it had.
//
// Every function is total. The refusals:
//     NoRoom (5)      the output has no room for the record
//     NoMark (7)      the first two bytes are not the mark
//     BadHeader (8)   a fourth byte that is not zero, an unknown kind, a length above 4,096 or one that does not fit the kind
//     CutShort (9)    fewer than six bytes, or fewer behind them than the header says
// Where a read is refused its payload is an empty part; a refused write writes nothing.
#![tactic(auto)]

mod header;
mod kind;
mod reading;
mod writing;

pub use header::Header;
pub use kind::Kind;
pub use reading::{payload, read};
pub use writing::{Written, write, write_record};
