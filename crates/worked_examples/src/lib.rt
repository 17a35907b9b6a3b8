// No code: specs/ computes the definitions of crate model on the examples of document 01.
#![tactic(auto)]
