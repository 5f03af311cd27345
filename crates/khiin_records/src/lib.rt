// Syllable records: those of raw keys, those that a composed syllable may be typed as, and how many of the keys were typed for one.
#![tactic(auto)]

pub mod alignment;
mod ending;
pub mod from_composed;
pub mod from_raw;
mod keys;
mod stripped;

use ji::lomaji::khin::Khin;
use ji::tone::Tone;
use ji::unicode::ByteLen;

// A syllable record: the length of its raw input and of the body that this begins with, in bytes, its tone and khin; and of how many it is one.
#[derive(Clone, Copy)]
pub struct Record {
    pub len: ByteLen,
    pub count: u64,
    pub body: ByteLen,
    pub tone: Tone,
    pub khin: Khin,
}
