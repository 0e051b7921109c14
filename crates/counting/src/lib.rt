// No function: what is said of the numbers below n by a test, and of tests, is in `specs/` and `proofs/`.

#![tactic(auto)]
