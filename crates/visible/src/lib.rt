// Definitions only: which commit is visible to which (02, E14), and what holds of it on every taken trace. See specs/.
#![tactic(auto)]
