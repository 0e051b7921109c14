// No function: the grid as the proof sees it, without memory, is in `specs/` and `proofs/`.

#![tactic(auto)]
