// Well-formed syllables and entries of them, as definitions: this crate has no code.
#![tactic(auto)]
