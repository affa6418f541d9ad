// A calendar asked by its number, in the steps that code goes by: definitions for code and laws, no code.
#![tactic(auto)]
