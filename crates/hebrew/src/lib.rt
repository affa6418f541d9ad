// The Hebrew year: definitions and laws, no code. `proofs/Claims.antt` is the page to read first.
#![tactic(auto)]
