// Examples of document 01, computed from the definitions: the proofs are all that this crate has.
#![tactic(auto)]
