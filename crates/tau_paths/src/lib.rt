// The two-path comparison, the second half of step 5.
#![tactic(auto)]

pub mod paths;
