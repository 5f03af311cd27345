// Texts, normalisation, tones and keys of one syllable.
#![tactic(auto)]

pub mod lomaji;
pub mod nfc;
pub mod nfd;
pub mod reply;
pub mod text;
pub mod tone;
pub mod unicode;
mod utf8;
