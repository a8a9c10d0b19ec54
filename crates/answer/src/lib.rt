// Definitions only: the whole answer for the bytes of a trace file, and the claim of demand 3 about it. See specs/.
#![tactic(auto)]
