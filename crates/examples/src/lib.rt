// The worked examples that docs/RULES.md marks to be proved, as one table and one statement: no code.
#![tactic(auto)]
