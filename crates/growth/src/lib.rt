// Proofs only: how the links between commits and the commits that views hold grow as commits are made. See proofs/.
#![tactic(auto)]
