// No function: the listing's definition and promises are in `specs/`, their theorems in `proofs/`.

#![tactic(auto)]
