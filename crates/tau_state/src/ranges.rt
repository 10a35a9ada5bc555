// Refusal 6: the ranges of a stored state, in document 01's order.
ghost use Rattle.std.specs.Prelude.{◌≡◌};
ghost use Rattle.tau_state.specs.Ranges.{ranged_of};

use crate::state::{DTD_ESTABLISH_BLOCKS, TauCanceller};

#[tactic(auto, unfolding(crate::specs::Ranges::ranged_of))]
pub fn in_range(state: &TauCanceller) -> bool
    ensures { result ≡ ranged_of state.now }
{
    1 <= state.partitions
        && state.partitions <= 32
        && state.far.head < state.partitions
        && state.carried <= 255
        && state.mic.paths.rescue_streak <= 7
        && state.mic.detector.dtd_blocks <= DTD_ESTABLISH_BLOCKS
}
