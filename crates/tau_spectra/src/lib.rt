// The far end of a Tau block, steps 1 and 4; and the bins, windows and transforms that the other steps share.
#![tactic(auto)]

pub mod bins;
pub mod far;
pub mod powers;
pub mod ring;
pub mod transform;
pub mod windows;
