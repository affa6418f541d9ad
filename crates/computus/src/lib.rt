// The rule of Easter and what follows from it: definitions and laws, no code. `specs/Claims.antt` is the page to read first.
#![tactic(auto)]
