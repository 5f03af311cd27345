// Keys of one syllable.
ghost use Rattle.std.specs.Prelude.{◌≡◌, true, List, [], ◌∷◌, ◌++◌, ℕ, ◌+◌, ◌*◌, ◌/◌, ◌≤◌, ◌<◌, length, take, drop};
ghost use Rattle.std.proofs.Math.Seq.{paste};
ghost use Rattle.ucd.specs.Unicode16.{unicode16};
ghost use Rattle.ji.specs.Utf8.{encode};
ghost use Rattle.ji.specs.Unicode.{members};
ghost use Rattle.ji.specs.Tone.{tone_number};
ghost use Rattle.ji.specs.Written.{Written};
ghost use Rattle.ji.specs.Reply.{placed, text_call, text_reply};
ghost use Rattle.ji.specs.Lomaji.Keys.{plain_rules, rules_of, respell, tone_keys, keys, key_text};

use crate::lomaji::strip;
use crate::reply::Refusal;
use crate::text::{put, replace_pair};
use crate::tone::Tone;
use crate::unicode::ByteLen;
use crate::{reply, unicode};

// The two spellings of o with U+0358: ou, and oo.
#[derive(Clone, Copy, PartialEq, Eq)]
pub enum Form {
    Plain,
    Oo,
}

#[derive(Clone, Copy, PartialEq, Eq)]
pub enum Kind {
    Detoned,
    Numeric,
    Telex,
}

// The rules go in three parts, in their order. Letters by number: 4E N, 4F O, 65 e, 6E n, 6F o, 75 u.

// The first two rules: o and O with U+0358. They keep the length, so they go in place. The forms differ in the second
// letter.
fn respell_o(form: Form, s: &mut [u16])
    ensures { s.new ≡ respell (take 2 (rules_of form)) s.old }
{
    let second = match form {
        Form::Plain => 0x75,
        Form::Oo => 0x6F,
    };
    replace_pair(s, 0x6F, 0x358, 0x6F, second);
    replace_pair(s, 0x4F, 0x358, 0x4F, second);
}

// The next two, U+207F and U+1D3A, which make a text longer. They go in one pass, since neither is in what replaces the other.
fn respell_nasals(src: &[u16], out: &mut [u16]) -> usize
    requires { length (respell (take 2 (drop 2 plain_rules)) src.now) ≤ length out.old }
    ensures { Written out.old out.new result (respell (take 2 (drop 2 plain_rules)) src.now) }
{
    let mut n: usize = 0;
    for &c in src {
        match c {
            0x207F => n = put(&[0x6E, 0x6E], out, n),
            0x1D3A => n = put(&[0x4E, 0x4E], out, n),
            _ => {
                out[n] = c;
                n += 1;
            }
        }
    }
    n
}

// The last two: o and u with U+0324, in place again.
#[tactic(auto, unfolding(crate::specs::Text::replace_all))]
fn respell_below(s: &mut [u16])
    ensures { s.new ≡ respell (drop 4 plain_rules) s.old }
{
    replace_pair(s, 0x6F, 0x324, 0x65, 0x6F);
    replace_pair(s, 0x75, 0x324, 0x65, 0x75);
}

// Writes the letters of a stripped text in keys to the front of `out`, and returns their number. `s` is left as the first two rules make it.
pub(crate) fn respell(form: Form, s: &mut [u16], out: &mut [u16]) -> usize
    requires { length (respell (rules_of form) s.old) ≤ length out.old }
    ensures { (s.new ≡ respell (take 2 (rules_of form)) s.old) × Written out.old out.new result (respell (rules_of form) s.old) }
{
    respell_o(form, s);
    let n = respell_nasals(s, out);
    respell_below(&mut out[..n]);
    n
}

// The key by which keys of a kind write a tone.
pub(crate) fn tone_key(kind: Kind, tone: Tone) -> Option<u8>
    ensures { key_text result ≡ take 1 (drop (tone_number tone) (tone_keys kind)) }
{
    let n = tone.number();
    match kind {
        Kind::Detoned => None,
        Kind::Numeric => Some(b"0123456789"[n]),
        Kind::Telex => Some(b"01sf4l6jjw"[n]),
    }
}

// Writes the key at `at`, and returns the place behind it.
fn put_key(key: Option<u8>, out: &mut [u16], at: usize) -> usize
    requires { at + length (key_text key) ≤ length out.old }
    ensures { (result ≡ at + length (key_text key)) × (out.new ≡ paste out.old at (key_text key) (length (key_text key))) }
{
    match key {
        None => at,
        Some(k) => {
            out[at] = u16::from(k);
            at + 1
        }
    }
}

// Writes the keys of a stripped text, whose bytes `stripped` are, with the key of its tone, to `out`. Its code points and
// its letters each have a buffer.
fn place_respelled<const POINTS: usize, const LETTERS: usize>(
    form: Form,
    key: Option<u8>,
    stripped: &[u8],
    out: &mut [u8],
) -> Result<ByteLen, Refusal>
    requires points { (length stripped.now ≤ POINTS / 3 * 2) × (POINTS ≤ 65536) }
    requires letters { (2 * length stripped.now < LETTERS) × (LETTERS ≤ 65536) }
    ensures { (rest : List ℕ) → members unicode16 rest ≡ true → stripped.now ≡ encode rest → text_reply result out.new ≡ placed 0 (encode (respell (rules_of form) rest ++ key_text key)) out.old }
{
    let mut points = [0u16; POINTS];
    let len = unicode::read_points(stripped, &mut points)?;
    let mut letters = [0u16; LETTERS];
    let n = respell(form, &mut points[..len.0], &mut letters);
    let end = put_key(key, &mut letters, n);
    reply::place(&letters[..end], out)
}

// Writes the first `n` of `bytes`, and the key behind them. It matches on the key as `put_key` does: a trait over the two widths would be longer.
fn place_toned(
    bytes: &mut [u8],
    n: usize,
    key: Option<u8>,
    out: &mut [u8],
) -> Result<ByteLen, Refusal>
    requires { n < length bytes.old }
    ensures { text_reply result out.new ≡ placed 0 (take n bytes.old ++ key_text key) out.old }
{
    let end = match key {
        None => n,
        Some(k) => {
            bytes[n] = k;
            n + 1
        }
    };
    reply::place_bytes(&bytes[..end], out)
}

// Strips the text, and writes its keys, in buffers of these sizes. A stripped text has at most five bytes for each two of
// the text, and the key takes one more. A stripped text of ASCII letters is respelled by no rule.
fn keys_with<const BYTES: usize, const POINTS: usize, const LETTERS: usize>(
    text: &[u8],
    form: Form,
    kind: Kind,
    out: &mut [u8],
) -> Result<ByteLen, Refusal>
    requires text { length text.now ≤ 256 }
    requires bytes { (5 * length text.now + 2 ≤ 2 * BYTES) × (BYTES ≤ 65536) }
    requires points { (BYTES ≤ POINTS / 3 * 2) × (POINTS ≤ 65536) }
    requires letters { (2 * BYTES < LETTERS) × (LETTERS ≤ 65536) }
    ensures { text_reply result out.new ≡ text_call unicode16 (keys unicode16 form kind) text.now out.old }
{
    let mut bytes = [0u8; BYTES];
    let stripped = strip::strip_tone_diacritic(text, &mut bytes)?;
    let n = stripped.len.0;
    let key = tone_key(kind, stripped.tone);
    if unicode::is_ascii(&bytes[..n]) {
        place_toned(&mut bytes, n, key, out)
    } else {
        place_respelled::<POINTS, LETTERS>(form, key, &bytes[..n], out)
    }
}

// `poj_syl_to_key_sequences` and its `_oo` form: the keys of the syllable `text`, in `out`. Most syllables have at most 8
// bytes, and clearing small buffers is quicker.
pub fn keys(text: &[u8], form: Form, kind: Kind, out: &mut [u8]) -> Result<ByteLen, Refusal>
    ensures { text_reply result out.new ≡ text_call unicode16 (keys unicode16 form kind) text.now out.old }
{
    if text.len() <= 8 {
        keys_with::<22, 33, 45>(text, form, kind, out)
    } else if text.len() <= 256 {
        keys_with::<642, 963, 1285>(text, form, kind, out)
    } else {
        Err(Refusal::TooLong)
    }
}
