// What the programs need that replay a list of Tau's blocks or calls: a state as the fields of a line, and samples and arrays by the
// recipes that a line has for them.
//
// Both lists have these fields, and each program says what the others are. A half is 8 digits of a field.
//
//     11        halves: partitions, carried
//     12        halves: head, flags: 1 suppress, 2 far_active, 4 double_talk, 8 dtd_collapsed, 16 protect_output
//     13        far_energy_peak
//     14        halves: dtd_blocks, rescue_streak
//     15 to 18  dtd_baseline, dtd_deviation, coherence_smooth, step_scale
//     19, 20    shadow_error_power, output_error_power
//     21        quiet_streak
//     22, 23    divergence_near_power, divergence_out_power
//     24, 25    near_power, residual_power
//     26, 27    transfers, divergence_resets
//     28 to 35  the hashes of near_carry, far_carry, window, far_power_mean, echo_power, error_power, gain, error_window
//     36 to 38  the hashes of the shadow weights, the output weights and the far spectra, of what is lent
//
// The hash of what is lent of the powers stands behind these, in another field in each list.
//
// A number of the state is the bits of an f64, and every NaN the same.
#![tactic(auto)]

mod buffers;
mod made;
mod state;

pub use buffers::{Buffers, Lent};
pub use made::{echo, remake};
pub use state::{compared, fresh, set};

/// The fields that both lists have, 0 to 38.
pub type Fields = [u64; 39];
