// Definitions only: what each clause wants, the ten levels, and the first failure of a level. See specs/.
#![tactic(auto)]
