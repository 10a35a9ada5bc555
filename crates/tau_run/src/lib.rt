// A Tau block whole: the loudspeaker is heard, and the microphone on it.
#![tactic(auto)]

mod run;

pub use run::run_block;
