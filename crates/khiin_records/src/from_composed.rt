// `from_composed`: the records that a syllable may be typed as.
ghost use Rattle.std.specs.Prelude.{◌≡◌, ◌&&◌, List, [], ◌∷◌, ℕ, ◌+◌, ◌*◌, ◌≤◌, ◌<◌, length, drop};
ghost use Rattle.ji.specs.Unicode.{unicode16};
ghost use Rattle.ji.specs.Utf8.{encode};
ghost use Rattle.ji.specs.Text.{begins};
ghost use Rattle.ji.specs.Written.{Written};
ghost use Rattle.ji.specs.Lomaji.Dot.{dot_in};
ghost use Rattle.khiin_records.specs.Syllable.{default, candidates_of, candidate_in, candidate_call, record_reply};
ghost use Rattle.khiin_records.specs.Records.{Roomy};
ghost use Rattle.khiin_records.specs.RawBytes.{takes_below, first_of, second_of, nasal, below, body_of, count_of, vowel_at, byte_before, Walking};

use crate::Record;
use crate::ending::Ending;
use crate::stripped::Stripped;
use ji::lomaji::dot::holds_dot;
use ji::lomaji::khin::Khin;
use ji::reply::{self, Refusal};
use ji::tone::Tone;
use ji::unicode::ByteLen;

// The one candidate of the empty text: the default.
#[tactic(auto, unfolding(ji::specs::Utf8::encode))]
fn default_at(position: u64, out: &mut [u8]) -> Result<Record, Refusal>
    ensures { record_reply result out.new ≡ candidate_in (default ∷ []) position out.old }
{
    if position == 0 {
        Ok(Record {
            len: ByteLen(0),
            count: 1,
            body: ByteLen(0),
            tone: Tone::None,
            khin: Khin::No,
        })
    } else {
        Err(Refusal::Position)
    }
}

// Whether the bytes `a` and `b` stand at `at`. It is asked of each byte of a text: `starts_with` would make a slice first.
#[tactic(auto, unfolding(ji::specs::Text::begins))]
fn is_pair(s: &[u8], at: usize, a: u8, b: u8) -> bool
    requires { at < length s.now }
    ensures { result ≡ begins (a ∷ b ∷ []) (drop at s.now) }
{
    s[at] == a && at + 1 < s.len() && s[at + 1] == b
}

// Whether U+207F stands at `at`. The length is tested first: else the compiler makes one branch table of this test and its neighbours, and U+0358,
// which is the most frequent, comes last.
fn is_nasal(s: &[u8], at: usize) -> bool
    requires { at < length s.now }
    ensures { result ≡ begins nasal (drop at s.now) }
{
    at + 2 < s.len() && s[at] == 0xE2 && is_pair(s, at + 1, 0x81, 0xBF)
}

// The letters that U+0324 changes: O, U, o, u.
#[tactic(auto, unfolding(crate::specs::RawBytes::takes_below, ji::specs::Unicode::listed))]
fn takes_below(x: u8) -> bool
    ensures { result ≡ takes_below x }
{
    matches!(x, b'O' | b'U' | b'o' | b'u')
}

// The first of the two letters that stand for such a letter: E for a capital, else e.
#[tactic(auto, unfolding(ji::specs::Unicode::listed))]
fn first_of(x: u8) -> u8
    ensures { result ≡ first_of x }
{
    match x {
        b'O' | b'U' => b'E',
        _ => b'e',
    }
}

// The second: u or o, never a capital.
#[tactic(auto, unfolding(ji::specs::Unicode::listed))]
fn second_of(x: u8) -> u8
    ensures { result ≡ second_of x }
{
    match x {
        b'U' | b'u' => b'u',
        _ => b'o',
    }
}

// Whether U+0324 stands at `at`, behind such a letter.
fn is_below(s: &[u8], at: usize) -> bool
    requires { at < length s.now }
    ensures { result ≡ (begins below (drop at s.now) && takes_below (byte_before s.now at)) }
{
    is_pair(s, at, 0xCC, 0xA4) && 0 < at && takes_below(s[at - 1])
}

// How many bytes the body has, and how many candidates there are. Of two numbers of one width the record would be made by one load of both, which
// waits for their stores.
#[derive(Clone, Copy)]
pub(crate) struct Spelled {
    pub(crate) len: usize,
    pub(crate) count: u8,
}

// Copies the ASCII bytes that `s` begins with, and returns their number. Most texts have no other. khiin's copies a whole text or nothing. It goes byte
// by byte and ends at the first that is not ASCII, which is one walk: `position` and a copy would be two.
fn copy_ascii(s: &[u8], out: &mut [u8]) -> usize
    requires { length s.now ≤ length out.old }
    ensures { (vowel : ℕ) → Walking vowel s.now out.old out.new result result 1 }
{
    for (i, &b) in s.iter().enumerate() {
        if !b.is_ascii() {
            return i;
        }
        out[i] = b;
    }
    s.len()
}

// Goes on from `start`, where all before is copied. U+0324 takes back the letter that was written before it. A `while`, since each turn goes on by the
// bytes of what it has read, one to three.
#[tactic(auto, unfolding(crate::specs::RawBytes::body_of, crate::specs::RawBytes::body_from))]
fn spell_rest(s: &[u8], start: usize, vowel: u8, out: &mut [u8]) -> Spelled
    requires { (length s.now ≤ length out.old) × Walking vowel s.now out.old out.old start start 1 }
    ensures { (start ≤ result.len) × Written out.old out.new result.len (body_of vowel s.now).text × (result.len ≤ length s.now)
        × (result.count ≡ count_of (body_of vowel s.now).dotted) }
{
    let mut i: usize = start;
    let mut n: usize = start;
    let mut count: u8 = 1;
    while i < s.len() {
        if is_pair(s, i, 0xCD, 0x98) {
            out[n] = vowel;
            n += 1;
            i += 2;
            count = 2;
        } else if is_nasal(s, i) {
            out[n] = b'n';
            out[n + 1] = b'n';
            n += 2;
            i += 3;
        } else if is_below(s, i) {
            let x = s[i - 1];
            out[n - 1] = first_of(x);
            out[n] = second_of(x);
            n += 1;
            i += 2;
        } else {
            out[n] = s[i];
            n += 1;
            i += 1;
        }
    }
    Spelled { len: n, count }
}

// Writes the body of the candidate that has `vowel` for U+0358 to the front of `out`.
pub(crate) fn spell(s: &[u8], vowel: u8, out: &mut [u8]) -> Spelled
    requires { length s.now ≤ length out.old }
    ensures { Written out.old out.new result.len (body_of vowel s.now).text × (result.len ≤ length s.now)
        × (result.count ≡ count_of (body_of vowel s.now).dotted) }
{
    let start = copy_ascii(s, out);
    spell_rest(s, start, vowel, out)
}

// The vowel for U+0358 of the candidate at the position: the second one needs U+0358.
fn vowel_at(s: &[u8], position: u64) -> Option<u8>
    ensures { result ≡ vowel_at (dot_in s.now) position }
{
    match position {
        0 => Some(b'u'),
        1 if holds_dot(s) => Some(b'o'),
        _ => None,
    }
}

// Writes the candidate at the position of a stripped text, by one walk over its bytes, to a buffer with room for any. One `match` with both answers:
// two returns would send the record through memory.
fn write_candidate(text: Stripped, position: u64, out: &mut [u8]) -> Result<Record, Refusal>
    requires { length text.rest.now + 2 ≤ length out.old }
    ensures { Roomy (length out.old) result × ((u : List ℕ) → text.entry.rest.now ≡ encode u
        → record_reply result out.new ≡ candidate_in (candidates_of text.entry.ending.tone text.entry.ending.khin u) position out.old) }
{
    match vowel_at(text.rest, position) {
        Some(vowel) => {
            let spelled = spell(text.rest, vowel, out);
            let len = text.ending.put(out, spelled.len);
            Ok(
                text.ending
                    .record(spelled.len, len, u64::from(spelled.count)),
            )
        }
        None => Err(Refusal::Position),
    }
}

// The same for a buffer that may have too little room: it is written to one of our own, and copied where it has. That one stands here and not in the
// caller, so that the quick way does not make room for it.
#[inline(never)]
fn candidate_copied(text: Stripped, position: u64, out: &mut [u8]) -> Result<Record, Refusal>
    requires { length text.rest.now ≤ 640 }
    ensures { (u : List ℕ) → text.entry.rest.now ≡ encode u
        → record_reply result out.new ≡ candidate_in (candidates_of text.entry.ending.tone text.entry.ending.khin u) position out.old }
{
    let mut raw = [0u8; 642];
    let record = write_candidate(text, position, &mut raw)?;
    reply::place_bytes(&raw[..record.len.0], out)?;
    Ok(record)
}

// An answer of a slower way, taken apart and made again, so that the quickest way's answer need not go through memory to meet it.
pub(crate) fn again(answer: Result<Record, Refusal>) -> Result<Record, Refusal>
    ensures { result ≡ answer }
{
    match answer {
        Ok(record) => Ok(record),
        Err(why) => Err(why),
    }
}

// The same for any buffer: where the raw input has room in any case, nothing is copied. Written into its callers, so that the record of a short text
// need not go through memory.
#[inline(always)]
fn candidate_stripped(text: Stripped, position: u64, out: &mut [u8]) -> Result<Record, Refusal>
    requires { length text.rest.now ≤ 640 }
    ensures { (u : List ℕ) → text.entry.rest.now ≡ encode u
        → record_reply result out.new ≡ candidate_in (candidates_of text.entry.ending.tone text.entry.ending.khin u) position out.old }
{
    if text.rest.len() + 2 <= out.len() {
        write_candidate(text, position, out)
    } else {
        again(candidate_copied(text, position, out))
    }
}

// The candidate at the position of a text that is not empty, with N bytes for the stripped text: at most five for each two of the text.
#[tactic(auto, unfolding(crate::specs::Syllable::candidate_call))]
fn candidate_within<const N: usize>(
    text: &[u8],
    position: u64,
    out: &mut [u8],
) -> Result<Record, Refusal>
    requires { (0 < length text.now) × (5 * length text.now ≤ 2 * N) × (N ≤ 640) }
    ensures { record_reply result out.new ≡ candidate_call unicode16 text.now position out.old }
{
    let mut buffer = [0u8; N];
    let stripped = Stripped::of(text, &mut buffer)?;
    candidate_stripped(stripped, position, out)
}

// The candidate at the position, whose raw input stands in `out`, and how many there are. Of a short text clearing a small buffer is quicker.
pub fn from_composed(text: &[u8], position: u64, out: &mut [u8]) -> Result<Record, Refusal>
    ensures { record_reply result out.new ≡ candidate_call unicode16 text.now position out.old }
{
    if text.is_empty() {
        default_at(position, out)
    } else if text.len() <= 16 {
        candidate_within::<40>(text, position, out)
    } else if text.len() <= 256 {
        again(candidate_within::<640>(text, position, out))
    } else {
        Err(Refusal::TooLong)
    }
}
