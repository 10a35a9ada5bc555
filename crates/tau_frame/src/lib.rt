// TauCanceller's framing: pairs into the carry, blocks out of it. No host calls this crate: it is `tau` by layers, and its functions have a
// `requires` where a call has tested.
#![tactic(auto)]

mod frame;

pub use frame::{Framed, flush_block, run, stay, wait};
