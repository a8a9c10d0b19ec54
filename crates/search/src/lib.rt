// Definitions only: choices by a test, and searches among the numbers below a bound. See specs/.
#![tactic(auto)]
