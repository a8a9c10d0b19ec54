// Definitions and proofs only: the dependency graph of a store, the clauses on a view, and why the graph stays without rings. See specs/ and proofs/.
#![tactic(auto)]
