// TauCanceller: the block engine with the house detector.
#![tactic(auto)]

mod calls;

pub use calls::{
    Answer, Started, Unreported, create, flush, flush_unreported, process, process_unreported,
    reset,
};
