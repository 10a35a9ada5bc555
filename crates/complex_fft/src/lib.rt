// The transform of 256 complex points in place, as `ComplexFft` in fft.rs has it. `points` and the butterfly with its twiddle are for
// the crates of the real transform; a host calls `complex_forward` and `complex_inverse`.
#![tactic(auto)]

mod complex_fft;
pub mod points;
mod reversal;

pub use complex_fft::{Wings, butterfly, complex_forward, complex_inverse, twiddle_at};
pub use reversal::reversal_table;
