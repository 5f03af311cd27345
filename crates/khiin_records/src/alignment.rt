// `from_conversion_alignment`: how many of the keys were typed for a composed syllable, and their record.
ghost use Rattle.std.specs.Prelude.{◌≡◌, true, List, ◌∷◌, ◌++◌, ℕ, suc, ◌+◌, ◌*◌, ◌≤◌, ◌<◌, leb, eqb, length, take, drop};
ghost use Rattle.ji.specs.Unicode.{unicode16, pick_number, same};
ghost use Rattle.ji.specs.Utf8.{encode};
ghost use Rattle.ji.specs.Text.{all_ascii, lower as lower_of};
ghost use Rattle.ji.specs.Reply.{good, check_text};
ghost use Rattle.khiin_records.specs.Syllable.{Syllable, raw, tone_digit, khin_key, candidates_of, record_reply};
ghost use Rattle.khiin_records.specs.Endings.{keys_of};
ghost use Rattle.khiin_records.specs.RawBytes.{body_of};
ghost use Rattle.khiin_records.specs.Alignment.{shared_prefix, nearest_of, aligned_with, align_of, align_call};
ghost use Rattle.khiin_records.specs.Prefixes.{NearestPrefix};

use crate::Record;
use crate::ending::Ending;
use crate::from_composed::{again, spell};
use crate::from_raw::place_keys;
use crate::keys::Keys;
use crate::stripped::Stripped;
use ji::lomaji::dot::holds_dot;
use ji::lomaji::khin::Khin;
use ji::reply::Refusal;
use ji::unicode;

// Whether two bytes are the same, ASCII case ignored. Most that are compared are the very same, so that this is asked first.
#[tactic(auto, unfolding(ji::specs::Text::lower))]
fn same_key(a: u8, b: u8) -> bool
    ensures { result ≡ eqb (lower_of a) (lower_of b) }
{
    a == b || a.eq_ignore_ascii_case(&b)
}

// How many keys the keys and a raw input share at their beginning, ASCII case ignored.
fn shared_prefix(keys: &[u8], s: &[u8]) -> usize
    ensures { result ≡ shared_prefix keys.now s.now }
{
    keys.iter()
        .zip(s)
        .take_while(|(key, c)| same_key(**key, **c))
        .count()
}

// How many keys are shared with the candidate of a stripped text that has `vowel` for U+0358. `letters` is used up.
#[tactic(auto, unfolding(crate::specs::Alignment::shared_prefix, crate::specs::RawBytes::body_of, ji::specs::Text::replace_all))]
fn candidate_prefix(keys: &[u8], text: Stripped, vowel: u8, letters: &mut [u8]) -> usize
    requires { length text.rest.now + 2 ≤ length letters.old }
    ensures { result ≡ shared_prefix keys.now ((body_of vowel text.entry.rest.now).text ++ keys_of text.entry.ending) }
{
    let spelled = spell(text.rest, vowel, letters);
    let len = text.ending.put(letters, spelled.len);
    shared_prefix(keys, &letters[..len])
}

// Whether the later of two candidates is taken, by how many keys are shared with each: of two that share as many it is the later. `max` gives the same
// number, and has no line for the gate's edit `ties_to_the_earlier`, which has to keep its meaning.
fn takes_later(earlier: usize, later: usize) -> bool
    ensures { result ≡ leb earlier later }
{
    earlier <= later
}

// How many keys are shared with the candidate that shares most: the one with u or, where U+0358 occurs, the one with o. `letters` is used up. Keys and text
// stay two parameters, here and below: a struct of both would be made at one place, `align_within`, for these few functions.
fn spelled_prefix(keys: Keys, text: Stripped, letters: &mut [u8]) -> usize
    requires { length text.rest.now + 2 ≤ length letters.old }
    ensures { NearestPrefix keys.entry.bytes.now text.entry.rest.now text.entry.ending result }
{
    let earlier = candidate_prefix(keys.bytes, text, b'u', letters);
    if holds_dot(text.rest) {
        let later = candidate_prefix(keys.bytes, text, b'o', letters);
        if takes_later(earlier, later) {
            later
        } else {
            earlier
        }
    } else {
        earlier
    }
}

// The same with N bytes for the candidates.
fn spelled_within<const N: usize>(keys: Keys, text: Stripped) -> usize
    requires { (length text.rest.now + 2 ≤ N) × (N ≤ 642) }
    ensures { NearestPrefix keys.entry.bytes.now text.entry.rest.now text.entry.ending result }
{
    let mut letters = [0u8; N];
    spelled_prefix(keys, text, &mut letters)
}

// Whether the key at `at` is the byte `x` of a raw input: whether the prefix goes on there.
#[tactic(auto, unfolding(crate::specs::Alignment::shared_prefix))]
fn is_key_at(keys: &[u8], at: usize, x: u8) -> bool
    ensures { (s : List ℕ) → shared_prefix (drop at keys.now) (x ∷ s) ≡ pick_number result (suc (shared_prefix (drop (at + 1) keys.now) s)) 0 }
{
    at < keys.len() && same_key(keys[at], x)
}

// How many of the keys from `at` on are shared with the 0 for khin.
fn khin_prefix(keys: &[u8], at: usize, khin: Khin) -> usize
    ensures { (result ≡ shared_prefix (drop at keys.now) (khin_key khin)) × (result ≤ 1) }
{
    match khin {
        Khin::No => 0,
        Khin::Yes => usize::from(is_key_at(keys, at, b'0')),
    }
}

// How many of the keys from `at` on are shared with the tone digit and the 0 for khin.
#[tactic(auto, unfolding(crate::specs::Alignment::shared_prefix, ji::specs::Text::replace_all))]
fn digits_prefix(keys: &[u8], at: usize, ending: Ending) -> usize
    requires { at ≤ length keys.now }
    ensures { result ≡ shared_prefix (drop at keys.now) (keys_of ending) }
{
    if is_key_at(keys, at, ending.digit()) {
        1 + khin_prefix(keys, at + 1, ending.khin)
    } else {
        0
    }
}

// The same of an ASCII text, which is the body of its one candidate: nothing is spelled, and nothing copied.
fn plain_prefix(keys: Keys, text: Stripped) -> usize
    requires { all_ascii text.rest.now ≡ true }
    ensures { NearestPrefix keys.entry.bytes.now text.entry.rest.now text.entry.ending result }
{
    let body = shared_prefix(keys.bytes, text.rest);
    if body < text.rest.len() {
        body
    } else {
        body + digits_prefix(keys.bytes, body, text.ending)
    }
}

// The same of any text. Of a short one clearing a small buffer is quicker.
fn nearest_prefix(keys: Keys, text: Stripped) -> usize
    requires { length text.rest.now ≤ 640 }
    ensures { NearestPrefix keys.entry.bytes.now text.entry.rest.now text.entry.ending result }
{
    if unicode::is_ascii(text.rest) {
        plain_prefix(keys, text)
    } else if text.rest.len() <= 40 {
        spelled_within::<42>(keys, text)
    } else {
        spelled_within::<642>(keys, text)
    }
}

// Whether the key behind the one at the prefix's end is the tone's digit.
fn tone_key_follows(keys: &[u8], prefix: usize, ending: Ending) -> bool
    requires { prefix ≤ length keys.now }
    ensures { result ≡ same (take 1 (drop (prefix + 1) keys.now)) (tone_digit ending.tone) }
{
    prefix + 1 < keys.len() && keys[prefix + 1] == ending.digit()
}

// How many keys are aligned, where the nearest candidate has the tone and `prefix` keys are shared with it.
fn aligned_keys(keys: &[u8], prefix: usize, ending: Ending) -> usize
    requires { prefix ≤ length keys.now }
    ensures { (s : Syllable) → s.tone ≡ ending.tone → prefix ≡ shared_prefix keys.now (raw s) → result ≡ aligned_with keys.now s }
{
    if prefix != 0 && tone_key_follows(keys, prefix, ending) {
        prefix + 1
    } else {
        prefix
    }
}

// How many keys are aligned with a stripped text.
fn align_stripped(keys: Keys, text: Stripped) -> usize
    requires { length text.rest.now ≤ 640 }
    ensures { (u : List ℕ) → text.entry.rest.now ≡ encode u → result ≡ aligned_with keys.entry.bytes.now (nearest_of keys.entry.bytes.now (candidates_of text.entry.ending.tone text.entry.ending.khin u)) }
{
    let prefix = nearest_prefix(keys, text);
    aligned_keys(keys.bytes, prefix, text.ending)
}

// The record of the keys that are aligned with a target that is not empty, with N bytes for the stripped target: at most five for
// each two of the target.
#[tactic(auto, unfolding(ji::specs::Utf8::encode, crate::specs::Syllable::from_raw, crate::specs::Alignment::aligned, ji::specs::Reply::check_text))]
fn align_within<const N: usize>(
    keys: Keys,
    target: &[u8],
    out: &mut [u8],
) -> Result<Record, Refusal>
    requires { (0 < length target.now) × (5 * length target.now ≤ 2 * N) × (N ≤ 640) }
    ensures { record_reply result out.new ≡ align_of unicode16 (good keys.entry.bytes.now) (check_text unicode16 target.now) out.old }
{
    let mut buffer = [0u8; N];
    let stripped = Stripped::of(target, &mut buffer)?;
    let count = align_stripped(keys, stripped);
    place_keys(&keys.bytes[..count], out)
}

// The record of the keys that are aligned with a target. With the empty target, whose one candidate is the default, that is none. Of a short one clearing
// a small buffer is quicker. from_composed has the same sizes: a function for both would take a closure for each and be longer.
fn align(keys: Keys, target: &[u8], out: &mut [u8]) -> Result<Record, Refusal>
    ensures { record_reply result out.new ≡ align_of unicode16 (good keys.entry.bytes.now) (check_text unicode16 target.now) out.old }
{
    if target.is_empty() {
        place_keys(&[], out)
    } else if target.len() <= 16 {
        align_within::<40>(keys, target, out)
    } else if target.len() <= 256 {
        again(align_within::<640>(keys, target, out))
    } else {
        Err(Refusal::TooLong)
    }
}

// The record of the keys that were typed for the syllable `target`, which stand in `out`: no keys where there is no alignment.
#[tactic(auto, unfolding(crate::specs::Alignment::align_call))]
pub fn from_conversion_alignment(
    keys: &[u8],
    target: &[u8],
    out: &mut [u8],
) -> Result<Record, Refusal>
    ensures { record_reply result out.new ≡ align_call unicode16 keys.now target.now out.old }
{
    let keys = Keys::of(keys)?;
    align(keys, target, out)
}
