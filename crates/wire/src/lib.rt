// Pairs of samples from bytes, and samples to bytes: f32, the lowest byte first.
//
// A capture is pairs in a row, a near sample and then a far one, eight bytes. Every function here is total: what has no room in a
// buffer is left out, and an unfinished pair is none.
#![tactic(auto)]

mod pairs;
mod samples;

pub use pairs::{keep_rest, read_far, read_near, whole_pairs};
pub use samples::write_samples;
