// What C and Rust call. Each function takes apart the answer of a library function and lays its numbers out for C. The crate robinflint_c exports them: no crate
// can use a static library, and the round trip, the replay and the workbench use these.
#![tactic(auto)]

pub mod arguments;
pub mod reply;

ghost use Rattle.std.specs.Prelude.{◌≡◌, []};
ghost use Rattle.ji.specs.Unicode.{unicode16};
ghost use Rattle.ji.specs.Lomaji.Strip.{strip_call};
ghost use Rattle.ji.specs.Lomaji.ToneLetter.{tone_letter_call};
ghost use Rattle.khiin_records.specs.Alignment.{align_call};
ghost use Rattle.khiin_records.specs.Syllable.{from_raw_call, candidate_call};
ghost use Rattle.robinflint.specs.Arguments.{compose_numbered, telex_numbered, keying_numbered};
ghost use Rattle.robinflint.specs.Reply.{reply_of};

use crate::reply::{Reply, found, refuse, to_reply};
use ji::lomaji::{strip, tone_letter};
use ji::reply::Refusal;
use khiin::converter;
use khiin::syllable::compose;
use khiin_entries::key_sequence;
use khiin_records::{alignment, from_composed, from_raw};

// The text without its tone marks, in NFD, and its tone. Refuses with 2, 3, 4, 7.
#[inline(always)]
pub fn rf_strip(text: &[u8], out: &mut [u8]) -> Reply
    ensures { reply_of result out.new ≡ strip_call unicode16 text.now out.old }
{
    to_reply(strip::strip_tone_diacritic(text, out))
}

// Where the tone letter of the text stands, in bytes: length 1 and the position, or length 0. Refuses with 2, 3, 4. It takes no buffer, of which the answers
// of `to_reply` speak.
#[inline(always)]
pub fn rf_tone_letter(text: &[u8]) -> Reply
    ensures { reply_of result [] ≡ tone_letter_call unicode16 text.now }
{
    match tone_letter::tone_letter(text) {
        Err(why) => refuse(why),
        Ok(None) => found(0, 0),
        Ok(Some(position)) => found(1, position.0 as u64),
    }
}

// The record of raw keys. Refuses with 2, 4, 7.
#[inline(always)]
pub fn rf_from_raw(keys: &[u8], out: &mut [u8]) -> Reply
    ensures { reply_of result out.new ≡ from_raw_call keys.now out.old }
{
    to_reply(from_raw::from_raw(keys, out))
}

// The record at the position of those that a composed syllable may be typed as, and how many there are. Refuses with 2, 3, 4, 6, 7.
#[inline(always)]
pub fn rf_candidate(text: &[u8], position: u64, out: &mut [u8]) -> Reply
    ensures { reply_of result out.new ≡ candidate_call unicode16 text.now position out.old }
{
    to_reply(from_composed::from_composed(text, position, out))
}

// The record of the keys that were typed for the syllable `target`: length 0 is "no alignment". Refuses with 2, 4 for the keys, 2, 3, 4 for the target, 7.
#[inline(always)]
pub fn rf_align(keys: &[u8], target: &[u8], out: &mut [u8]) -> Reply
    ensures { reply_of result out.new ≡ align_call unicode16 keys.now target.now out.old }
{
    to_reply(alignment::from_conversion_alignment(keys, target, out))
}

// What a syllable record is written as. Refuses with 1, 2, 3, 4, 7.
#[inline(always)]
pub fn rf_compose(raw: &[u8], body: &[u8], tone: u64, khin: u64, out: &mut [u8]) -> Reply
    ensures { reply_of result out.new ≡ compose_numbered raw.now body.now tone khin out.old }
{
    if 9 < tone || 1 < khin {
        return refuse(Refusal::Argument);
    }
    to_reply(compose::compose(
        raw,
        body,
        arguments::tone_of(tone),
        arguments::khin_of(khin),
        out,
    ))
}

// What a text becomes when a key is typed. `keys` are those of the tones 2 3 5 6 7 8 9. Refuses with 1, 2, 3, 4, 7.
#[inline(always)]
pub fn rf_telex(text: &[u8], key: u64, mode: u64, keys: &[u8; 7], out: &mut [u8]) -> Reply
    ensures { reply_of result out.new ≡ telex_numbered text.now key mode keys.now out.old }
{
    if 1 < mode || 0x7E < key {
        return refuse(Refusal::Argument);
    }
    to_reply(converter::convert_to_telex(
        text,
        key as u8,
        arguments::mode_of(mode),
        arguments::keys_of(keys),
        out,
    ))
}

// The keying at the position of an entry's list of a kind, and how many the list has. Refuses with 1, 2, 3, 4, 5, 6, 7.
#[inline(always)]
pub fn rf_keying(entry: &[u8], kind: u64, position: u64, out: &mut [u8]) -> Reply
    ensures { reply_of result out.new ≡ keying_numbered entry.now kind position out.old }
{
    if 2 < kind {
        return refuse(Refusal::Argument);
    }
    to_reply(key_sequence::keying_at(entry, arguments::kind_of(kind), position, out))
}
