// Steps 8 and 9 of a Tau block: the guard and the host's powers.
#![tactic(auto)]

pub mod guard;
pub mod powers;
