// What every theory here uses of tests, cases, order and tables, and that has to do with none of them: definitions and laws, no code.
#![tactic(auto)]
