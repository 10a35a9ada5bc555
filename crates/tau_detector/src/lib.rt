// The house detector, the first half of step 5.
#![tactic(auto)]

pub mod detector;
