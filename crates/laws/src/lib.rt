// No code: the laws of counting loops and lists, over any element type, stand in specs/.
#![tactic(auto)]
