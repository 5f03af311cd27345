// Tests of every well-formed syllable, computed: this crate has no code.
#![tactic(auto)]
