// No code: what the theorems on streams of both engines share, a stream cut into parts, and samples that are no sound.
#![tactic(auto)]
