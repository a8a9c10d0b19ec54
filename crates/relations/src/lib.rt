// Definitions only: relations between commits, their composition and closure, walks and rings. See specs/.
#![tactic(auto)]
