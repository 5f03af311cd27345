// `from_raw`: the record of keys that were typed.
ghost use Rattle.std.specs.Prelude.{◌≡◌, true, length};
ghost use Rattle.ji.specs.Text.{all_ascii, last};
ghost use Rattle.khiin_records.specs.Syllable.{key_tone, from_raw, placed_record, from_raw_call, record_reply};
ghost use Rattle.khiin_records.specs.Records.{RecordOf};

use crate::Record;
use crate::keys::Keys;
use ji::lomaji::khin::Khin;
use ji::reply::{self, Refusal};
use ji::tone::Tone;
use ji::unicode::ByteLen;

// The tone that a key is, None of any key but 1 to 9. Through a function from numbers to tones, as `robinflint` has one for C's, a key would be tested
// and made a number first, and a law would have to join what document 01 says of keys to what it says of C's numbers.
#[tactic(auto, unfolding(crate::specs::Syllable::key_tone))]
fn key_tone(key: u8) -> Tone
    ensures { result ≡ key_tone key }
{
    match key {
        b'1' => Tone::T1,
        b'2' => Tone::T2,
        b'3' => Tone::T3,
        b'4' => Tone::T4,
        b'5' => Tone::T5,
        b'6' => Tone::T6,
        b'7' => Tone::T7,
        b'8' => Tone::T8,
        b'9' => Tone::T9,
        _ => Tone::None,
    }
}

// The tone that the last of the keys is. Where there are none it is None as well.
#[tactic(auto, unfolding(crate::specs::Syllable::key_tone, ji::specs::Text::last))]
fn last_tone(s: &[u8]) -> Tone
    ensures { result ≡ key_tone (last s.now) }
{
    match s {
        [.., key] => key_tone(*key),
        [] => Tone::None,
    }
}

// The record of the keys `s`, which are ASCII. The last one is the tone and leaves the body, where it is one of 1 to 9.
fn record_of(s: &[u8]) -> Record
    ensures { all_ascii s.now ≡ true → RecordOf 0 (from_raw s.now) (length s.now) result }
{
    let n = s.len();
    let tone = last_tone(s);
    let body = if tone.is_tone() { n - 1 } else { n };
    Record {
        len: ByteLen(n),
        count: 0,
        body: ByteLen(body),
        tone,
        khin: Khin::No,
    }
}

// The record of keys that are ASCII, which are its raw input, in `out`.
pub(crate) fn place_keys(keys: &[u8], out: &mut [u8]) -> Result<Record, Refusal>
    ensures { all_ascii keys.now ≡ true → record_reply result out.new ≡ placed_record 0 (from_raw keys.now) out.old }
{
    reply::place_bytes(keys, out)?;
    Ok(record_of(keys))
}

// The record of `keys`.
#[tactic(auto, unfolding(crate::specs::Syllable::from_raw, crate::specs::Syllable::from_raw_call))]
pub fn from_raw(keys: &[u8], out: &mut [u8]) -> Result<Record, Refusal>
    ensures { record_reply result out.new ≡ from_raw_call keys.now out.old }
{
    let keys = Keys::of(keys)?;
    place_keys(keys.bytes, out)
}
