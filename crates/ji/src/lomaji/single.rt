// A text with at most one tone mark, as a syllable has: all of it is looked at before the first byte is written, so that it needs no buffer in
// between.
ghost use Rattle.std.specs.Prelude.{◌≡◌, ◌∷◌, ◌++◌, ◌+◌, ◌≤◌, ◌<◌, length, take, drop, IfSome};
ghost use Rattle.ji.specs.Tone.{tone_number};
ghost use Rattle.ji.specs.Reply.{placed};
ghost use Rattle.ji.specs.Lomaji.Strip.{strip_reply};
ghost use Rattle.ji.specs.Lomaji.Single.{KeptTo, MarkedAt};

use crate::lomaji::quick;
use crate::lomaji::quick::MarkedLetter;
use crate::lomaji::strip::StripResult;
use crate::reply;
use crate::reply::Refusal;
use crate::unicode::ByteLen;

// Where the first byte from `from` on stands that is not ASCII. Most bytes are, and a search of its own is the quickest way past them.
fn ascii_to(s: &[u8], from: usize) -> usize
    requires { from ≤ length s.now }
    ensures { (from ≤ result) × (result ≤ length s.now) × KeptTo s.now from result }
{
    match s[from..].iter().position(|b| !b.is_ascii()) {
        Some(i) => from + i,
        None => s.len(),
    }
}

// Where the first code point from `from` on stands that is not ASCII, U+0358 or ⁿ; these are their own NFD, and no tone marks. Each turn steps by the
// width of one and of the ASCII behind it, so that no `for` fits. Written into its caller, which asks twice: a call for each is a tenth
// of the instructions of a short text.
#[inline(always)]
pub(crate) fn kept_to(s: &[u8], from: usize) -> usize
    requires { from ≤ length s.now }
    ensures { (result ≤ length s.now) × KeptTo s.now from result }
{
    let mut i = ascii_to(s, from);
    while i < s.len() {
        match &s[i..] {
            [0xCD, 0x98, ..] => i = ascii_to(s, i + 2), // U+0358
            [0xE2, 0x81, 0xBF, ..] => i = ascii_to(s, i + 3), // ⁿ
            _ => return i,
        }
    }
    i
}

// The letter with a tone mark that stands at `at`.
pub(crate) fn marked_at(s: &[u8], at: usize) -> Option<MarkedLetter>
    requires { at < length s.now }
    ensures { IfSome result (MarkedAt s.now at) }
{
    match &s[at..] {
        [a @ 0xC0..=0xDF, b @ 0x80..=0xBF, ..] => {
            quick::letter(u16::from(*a) % 32 * 64 + u16::from(*b) % 64)
        }
        _ => None,
    }
}

// Writes the text without the mark of the letter at `at`, and answers its length and its tone. Of the letter's two bytes
// one is left, so that the length is known: by `reply::place_between`, which asks how many bytes a code point has, the
// refusal of a candidate takes 2.3 times the hand-tuned time, and this way 1.9.
pub(crate) fn place_marked(
    text: &[u8],
    at: usize,
    letter: MarkedLetter,
    out: &mut [u8],
) -> Result<StripResult, Refusal>
    requires { (at + 2 ≤ length text.now) × (letter.ascii < 0x80) }
    ensures { strip_reply result out.new ≡ placed (tone_number letter.tone) (take at text.now ++ (letter.ascii ∷ drop (at + 2) text.now)) out.old }
{
    let len = text.len() - 1;
    if out.len() < len {
        return Err(Refusal::NoRoom);
    }
    reply::copy(&text[..at], out);
    out[at] = letter.ascii;
    reply::copy(&text[at + 2..], &mut out[at + 1..]);
    let len = ByteLen(len);
    let tone = letter.tone;
    Ok(StripResult { len, tone })
}
