// What stands behind the body of a raw input.
ghost use Rattle.std.specs.Prelude.{◌≡◌, true, [], ◌∷◌, ◌+◌, ◌≤◌, length};
ghost use Rattle.std.proofs.Math.Seq.{paste};
ghost use Rattle.ji.specs.Tone.{is_tone};

use crate::Record;
use ji::lomaji::khin::Khin;
use ji::tone::Tone;
use ji::unicode::ByteLen;

// The tone, which has a digit, and khin.
#[derive(Clone, Copy)]
pub(crate) struct Ending {
    pub(crate) tone: Tone,
    pub(crate) khin: Khin,
    ghost toned: { is_tone tone ≡ true },
}

impl Ending {
    ghost use Rattle.khiin_records.specs.Syllable.{tone_digit};
    ghost use Rattle.khiin_records.specs.Endings.{keys_of};

    // The key of the tone.
    pub(crate) fn digit(self) -> u8
        ensures { tone_digit self.tone ≡ result ∷ [] }
    {
        b'0' + self.tone.number() as u8
    }

    // Writes the keys at `at`, and returns the place behind them.
    pub(crate) fn put(self, out: &mut [u8], at: usize) -> usize
        requires { at + 2 ≤ length out.old }
        ensures { (result ≡ at + length (keys_of self)) × (out.new ≡ paste out.old at (keys_of self) (length (keys_of self))) }
    {
        out[at] = self.digit();
        match self.khin {
            Khin::No => at + 1,
            Khin::Yes => {
                out[at + 1] = b'0';
                at + 2
            }
        }
    }

    // The record of a raw input of `len` bytes that ends so, one of `count`.
    pub(crate) fn record(self, body: usize, len: usize, count: u64) -> Record
        ensures { result ≡ record { len = record { 0 = len }; count = count; body = record { 0 = body }; tone = self.tone; khin = self.khin } }
    {
        Record {
            len: ByteLen(len),
            count,
            body: ByteLen(body),
            tone: self.tone,
            khin: self.khin,
        }
    }
}
