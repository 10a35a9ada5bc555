// det_sin and det_cos of the transform, and the table that they make. No public function has a `requires`.
#![tactic(auto)]

mod tables;
mod trig;

pub use tables::recombination;
pub use trig::{det_cos, det_sin};
