// No function: the schedule file's definitions and promises are in `specs/`, their theorems in `proofs/`.

#![tactic(auto)]
