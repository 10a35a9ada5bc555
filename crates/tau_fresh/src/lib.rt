// The states that creation and reset give, the buffers cleared for them, and the refusals of the calls.
#![tactic(auto)]

pub mod fresh;
pub mod refusals;
