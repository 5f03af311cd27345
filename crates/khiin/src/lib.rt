// Syllables and the telex step.
#![tactic(auto)]

pub mod converter;
pub mod syllable;
