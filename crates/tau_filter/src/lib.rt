// Steps 2 and 3 of a Tau block: the two echo estimates and their errors.
#![tactic(auto)]

pub mod filter;
