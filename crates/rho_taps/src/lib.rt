// RhoCanceller's loops over its taps: the sums over the far history, its peak, and the update of the weights. No host calls this crate:
// it is `rho` by layers, and its functions have a `requires` where a call has tested.
#![tactic(auto)]

pub mod clean;
pub mod peak;
pub mod ring;
pub mod update;
