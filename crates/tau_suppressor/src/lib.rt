// Step 7 of a Tau block: the residual suppressor.
#![tactic(auto)]

pub mod suppressor;
