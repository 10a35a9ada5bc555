// What TauCanceller keeps: its state and that taken apart, the ranges of a stored one, the report, and the sums that the steps share.
#![tactic(auto)]

pub mod ranges;
pub mod report;
pub mod state;
pub mod sums;
