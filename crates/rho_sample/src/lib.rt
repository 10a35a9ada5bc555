// One pair of RhoCanceller.
#![tactic(auto)]

pub mod sample;
