// No function: what the calls do with a lent memory, and what is promised of them, is in `specs/` and `proofs/`.

#![tactic(auto)]
