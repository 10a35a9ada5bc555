// The records of a capture on standard input, one at a time, from a block that the input holds.
//
// More is read only where the bytes held are the beginning of a record, so a record of a live pipe is handed out once its last byte is
// there, and a refusal is known once the header is. A capture ends well between two records only.
#![tactic(auto)]

mod error;
mod front;
mod reading;

pub use error::{RecordsError, say};
pub use reading::{Input, Record};
