// `strip_tone_diacritic`: a text without its tone marks, and its tone.
ghost use Rattle.std.specs.Prelude.{◌≡◌, ◌+◌, ◌*◌, ◌≤◌, map, length};
ghost use Rattle.ji.specs.Text.{lower};
ghost use Rattle.ucd.specs.Unicode16.{unicode16};
ghost use Rattle.ji.specs.Written.{Written};
ghost use Rattle.ji.specs.Utf8.{encode};
ghost use Rattle.ji.specs.Nfd.{order};
ghost use Rattle.ji.specs.Tone.{tone_number};
ghost use Rattle.ji.specs.Reply.{placed};
ghost use Rattle.ji.specs.Lomaji.Strip.{mark_tone, without_marks, dropped_marks, last_tone, ends_in, ends_in_any, stop_endings, unmarked_tone, tone_or, stripped_reply, strip_call, strip_reply};

use crate::lomaji::{quick, single};
use crate::reply::Refusal;
use crate::tone::Tone;
use crate::unicode::{ByteLen, CharLen};
use crate::{nfd, reply, unicode};

// The length of the stripped text, and the tone.
#[derive(Clone, Copy)]
pub struct StripResult {
    pub len: ByteLen,
    pub tone: Tone,
}

// The tone of a mark, None of any other code point.
#[tactic(auto, unfolding(crate::specs::Lomaji::Strip::mark_tone))]
pub(crate) fn mark_tone(c: u16) -> Tone
    ensures { result ≡ mark_tone c }
{
    match c {
        0x0301 => Tone::T2,
        0x0300 => Tone::T3,
        0x0302 => Tone::T5,
        0x0303 => Tone::T6,
        0x0304 => Tone::T7,
        0x030D => Tone::T8,
        0x0306 => Tone::T9,
        _ => Tone::None,
    }
}

// How many code points are left of a text, and the tone of its last mark, None where it has none.
#[derive(Clone, Copy)]
struct Dropped {
    left: CharLen,
    tone: Tone,
}

// Drops the tone marks of `s`, in place: the places are counted, since those that are read and written are of one slice.
fn drop_marks(s: &mut [u16]) -> Dropped
    ensures { Written s.old s.new result.left.0 (without_marks s.old) × (result.tone ≡ last_tone Tone.None (dropped_marks s.old)) }
{
    let mut left = 0;
    let mut tone = Tone::None;
    for i in 0..s.len() {
        let c = s[i];
        let mark = mark_tone(c);
        if mark.is_tone() {
            tone = mark;
        } else {
            s[left] = c;
            left += 1;
        }
    }
    let left = CharLen(left);
    Dropped { left, tone }
}

// Whether the last bytes of `s`, in lower case, are `ending`, which is in lower case.
fn ends_in(ending: &[u8], s: &[u8]) -> bool
    requires { map lower ending.now ≡ ending.now }
    ensures { result ≡ ends_in ending.now s.now }
{
    s.len() >= ending.len() && s[s.len() - ending.len()..].eq_ignore_ascii_case(ending)
}

// Whether `s` has one of the seven endings of a stop. Its last byte tells which of them it might have.
#[tactic(auto, unfolding(crate::specs::Text::lower))]
fn ends_in_any(s: &[u8]) -> bool
    ensures { result ≡ ends_in_any stop_endings s.now }
{
    let Some(&last) = s.last() else {
        return false;
    };
    match last.to_ascii_lowercase() {
        b'h' => ends_in(b"h", s),
        b'p' => ends_in(b"p", s),
        b't' => ends_in(b"t", s),
        b'k' => ends_in(b"k", s),
        b'n' => ends_in(b"hnn", s),
        0xBF => ends_in(b"h\xE2\x81\xBF", s),
        0xBA => ends_in(b"h\xE1\xB4\xBA", s),
        _ => false,
    }
}

// The tone of a text without a mark, from its bytes.
#[tactic(auto, unfolding(crate::specs::Lomaji::Strip::unmarked_tone))]
pub fn unmarked_tone(s: &[u8]) -> Tone
    ensures { result ≡ unmarked_tone s.now }
{
    if ends_in_any(s) { Tone::T4 } else { Tone::T1 }
}

// The tone: of the last mark, or by the ending of the stripped text, whose bytes `s` are.
fn tone_of(last: Tone, s: &[u8]) -> Tone
    ensures { result ≡ tone_or last (unmarked_tone s.now) }
{
    if last.is_tone() {
        last
    } else {
        unmarked_tone(s)
    }
}

// Writes the stripped text `s` to `out`, and answers its length and its tone. `place_bytes` does so of bytes: one function for both would take the answer
// of the writing and the text's bytes once more, and a law that joins them.
fn place(s: &[u16], last: Tone, out: &mut [u8]) -> Result<StripResult, Refusal>
    ensures { strip_reply result out.new ≡ placed (tone_number (tone_or last (unmarked_tone (encode s.now)))) (encode s.now) out.old }
{
    let len = reply::place(s, out)?;
    let tone = tone_of(last, &out[..len.0]);
    Ok(StripResult { len, tone })
}

// Puts the fully decomposed text `s` into canonical order, drops its marks and writes what is left.
fn finish(s: &mut [u16], out: &mut [u8]) -> Result<StripResult, Refusal>
    ensures { strip_reply result out.new ≡ stripped_reply (order unicode16 s.old) out.old }
{
    nfd::order(s);
    let Dropped { left, tone } = drop_marks(s);
    place(&s[..left.0], tone, out)
}

// Strips a text step by step, in a buffer of `N` code points. That the text has at most 256 bytes is asked here and below: a struct around the text for
// this one fact would be longer than the clauses.
fn strip_slowly_with<const N: usize>(text: &[u8], out: &mut [u8]) -> Result<StripResult, Refusal>
    requires { (length text.now ≤ 256) × (3 * length text.now ≤ 2 * N) × (N ≤ 65536) }
    ensures { strip_reply result out.new ≡ strip_call unicode16 text.now out.old }
{
    let mut points = [0u16; N];
    let len = unicode::decode(text, true, &mut points)?;
    finish(&mut points[..len.0], out)
}

// What the quick walk gives up. A short text goes in a small buffer, since clearing it is quicker.
fn strip_slowly(text: &[u8], out: &mut [u8]) -> Result<StripResult, Refusal>
    requires { length text.now ≤ 256 }
    ensures { strip_reply result out.new ≡ strip_call unicode16 text.now out.old }
{
    if text.len() <= 32 {
        strip_slowly_with::<48>(text, out)
    } else {
        strip_slowly_with::<384>(text, out)
    }
}

// Writes the bytes of a stripped text to `out`, and answers its length and its tone.
fn place_bytes(s: &[u8], last: Tone, out: &mut [u8]) -> Result<StripResult, Refusal>
    ensures { strip_reply result out.new ≡ placed (tone_number (tone_or last (unmarked_tone s.now))) s.now out.old }
{
    let len = reply::place_bytes(s, out)?;
    let tone = tone_of(last, s);
    Ok(StripResult { len, tone })
}

// Strips a text in one walk into a buffer of `N` bytes, or else step by step. A text of syllables has room there. Stripping may make a text two and a half
// times as long: where the buffer might not do, the walk gives up.
fn strip_with<const N: usize>(text: &[u8], out: &mut [u8]) -> Result<StripResult, Refusal>
    requires { (length text.now ≤ 256) × (length text.now ≤ N) × (N ≤ 65536) }
    ensures { strip_reply result out.new ≡ strip_call unicode16 text.now out.old }
{
    let mut bytes = [0u8; N];
    match quick::walk(text, &mut bytes) {
        Some((len, last)) => place_bytes(&bytes[..len.0], last, out),
        None => strip_slowly(text, out),
    }
}

// A text of any kind.
fn strip_any(text: &[u8], out: &mut [u8]) -> Result<StripResult, Refusal>
    requires { length text.now ≤ 256 }
    ensures { strip_reply result out.new ≡ strip_call unicode16 text.now out.old }
{
    if text.len() <= 32 {
        strip_with::<64>(text, out)
    } else {
        strip_with::<400>(text, out)
    }
}

// The text without its tone marks, in NFD, in `out`, and its tone. Most texts are kept whole, or have one letter with a mark.
pub fn strip_tone_diacritic(text: &[u8], out: &mut [u8]) -> Result<StripResult, Refusal>
    ensures { strip_reply result out.new ≡ strip_call unicode16 text.now out.old }
{
    if 256 < text.len() {
        return Err(Refusal::TooLong);
    }
    let at = single::kept_to(text, 0);
    if at == text.len() {
        return place_bytes(text, Tone::None, out);
    }
    if let Some(letter) = single::marked_at(text, at)
        && single::kept_to(text, at + 2) == text.len()
    {
        return single::place_marked(text, at, letter, out);
    }
    strip_any(text, out)
}
