// Step 6 of a Tau block: the update of the shadow.
#![tactic(auto)]

pub mod update;
