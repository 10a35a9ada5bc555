// What holds of a Tau block beyond its contract: bounds, lengths, ranges, counters, silence. No code.
#![tactic(auto)]
