// No code: the three demands and the marked cases, as theorems over the definitions of the crates below (specs/), each
// proved by citing what is proved there (proofs/).
#![tactic(auto)]
