// No function: what every walk over lent records shares is in `proofs/`.

#![tactic(auto)]
