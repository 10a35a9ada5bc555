// The eight stages of `complex_fft` in a self-sorting form: two stages a pass, from one half of a scratch to the other and back, so
// that nothing is swapped. Each number of the result is made by the same butterflies, of the same numbers, as in place: only the places
// between differ (proofs/Sorting). No host calls this crate: it is the real transform's core.
#![tactic(auto)]

mod passes;
mod quads;

pub use passes::all_passes;
pub use quads::{get_split, put_split};
