// Demand 3 and the starred examples, as theorems about the definitions: this crate has no code.
#![tactic(auto)]
