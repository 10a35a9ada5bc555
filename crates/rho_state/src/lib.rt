// RhoCanceller's state and settings, and the refusals of its calls.
#![tactic(auto)]

pub mod refusals;
pub mod state;
