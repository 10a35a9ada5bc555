// What a program needs that replays a list of cases and says how many answers differ.
//
// A case is a line: a letter, then fields of 16 hex digits, each after a blank, then the line's end.
// All lines of a list have the same number of fields, n, and so the same size, 17 n + 2 bytes.
// Such a program is a function from a case to what it answers, beside what the list has: `replay` reads the lines and compares.
//
// Where a case is about whole buffers, its fields have the recipe of what goes in (`Noise`) and one number for what comes out (`hash`).
#![tactic(auto)]

mod bits;
mod case;
mod list;
mod recipe;
mod tally;

pub use bits::{Bits, halves, hash, hash_bytes, joined};
pub use case::Case;
pub use list::{Compared, Program, replay};
pub use recipe::{Mark, Noise, Recipe};
pub use tally::Tally;
