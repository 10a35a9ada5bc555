// No code: what holds of TauCanceller over streams, however they are cut into calls: counts, cuts, blocks, what has come since the carry was
// last emptied, and far silence. A crate of its own, so that who changes the engine's code does not check these too.
#![tactic(auto)]
