// What holds of the steps of a Tau block that need no transform: bounds, lengths, M11. No code.
#![tactic(auto)]
