// What is done to all weights of a filter at once, and the three clears.
#![tactic(auto)]

pub mod clears;
pub mod weights;
