// Keyings of entries.
#![tactic(auto)]

pub mod key_sequence;
mod layout;
pub mod listing;
