// No code: what holds of RhoCanceller over streams, however they are cut into calls: counts, cuts, far silence, and the end of a freeze. A crate
// of its own, so that who changes the engine's code does not check these too.
#![tactic(auto)]
