// Texts of the table: read from bytes, checked and, if asked, decomposed while they are read. Lengths in bytes and in code points are two
// types; only the UTF-8 walk turns one into the other.
ghost use Rattle.std.specs.Prelude.{◌≡◌, [], ◌∷◌, ◌++◌, ℕ, ◌+◌, ◌*◌, ◌≤◌, length, false, ◌/◌, drop};
ghost use Rattle.std.proofs.Math.Seq.{paste};
ghost use Rattle.ucd.specs.Table.{decomposition};
ghost use Rattle.ucd.specs.Unicode16.{unicode16};
ghost use Rattle.ji.specs.Unicode.{to_byte_len, spread, accepted};
ghost use Rattle.ucd.specs.Full.{full};
ghost use Rattle.ji.specs.Text.{all_ascii};
ghost use Rattle.ji.specs.Utf8.{decode, last_start, last_point};
ghost use Rattle.ji.specs.Written.{Written};
ghost use Rattle.ji.specs.Reply.{placed, check_points, check_within, verdict_of};
ghost use Rattle.ji.specs.Reading.{spread_text, fault_in, Reading, PointsReading, Counting, points_reply, points_call};

use crate::reply::Refusal;
use crate::{text, utf8};
use ucd::Mapping;

// A number of bytes.
#[derive(Clone, Copy, PartialEq, Eq)]
pub struct ByteLen(pub usize);

// A number of code points.
#[derive(Clone, Copy, PartialEq, Eq)]
pub struct CharLen(pub usize);

// What a code point becomes: itself, or its full decomposition, which has at most three.
#[derive(Clone, Copy)]
enum Spread {
    One(u16),
    Two(u16, u16),
    Three(u16, u16, u16),
}

// The decomposition of `a`, and `b` behind it.
fn spread_pair(a: u16, b: u16) -> Spread
    ensures { spread_text result ≡ decomposition unicode16 a ++ (b ∷ []) }
{
    match ucd::decomposition(a) {
        Mapping::Itself => Spread::Two(a, b),
        Mapping::One(x) => Spread::Two(x, b),
        Mapping::Two(x, y) => Spread::Three(x, y, b),
    }
}

// What c becomes. `ucd` tests for U+00C0 too, but in a call: most texts hold little that is not below it, and need no
// call.
fn spread_point(c: u16, decomposed: bool) -> Spread
    ensures { spread_text result ≡ spread unicode16 decomposed (c ∷ []) }
{
    if c < 0x00C0 || !decomposed {
        return Spread::One(c);
    }
    match ucd::decomposition(c) {
        Mapping::Itself => Spread::One(c),
        Mapping::One(a) => Spread::One(a),
        Mapping::Two(a, b) => spread_pair(a, b),
    }
}

// Writes these code points at `at`, and returns the place behind them.
fn put(points: Spread, out: &mut [u16], at: usize) -> usize
    requires { at + length (spread_text points) ≤ length out.old }
    ensures { (result ≡ at + length (spread_text points)) × (out.new ≡ paste out.old at (spread_text points) (length (spread_text points))) }
{
    match points {
        Spread::One(a) => {
            out[at] = a;
            at + 1
        }
        Spread::Two(a, b) => {
            out[at] = a;
            out[at + 1] = b;
            at + 2
        }
        Spread::Three(a, b, c) => {
            out[at] = a;
            out[at + 1] = b;
            out[at + 2] = c;
            at + 3
        }
    }
}

// Why a text is refused whose rest `s` begins with a code point outside the table: the rest decides whether it is well
// formed.
fn fault_of(s: &[u8]) -> Refusal
    ensures { result ≡ fault_in (decode s.now) }
{
    if utf8::well_formed(s) {
        Refusal::OutsideTable
    } else {
        Refusal::IllFormed
    }
}

// The code points of `s`, as they are or fully decomposed, written to the front of `out`. Each turn steps by the width
// of a sequence, so that no `for` fits: an iterator over sequences would need a contract of its own, and ASCII has a
// branch of its own here, without which the loop is slower by a tenth. Only what is not ASCII has `decomposed` tested,
// for which a constant parameter would have the loop compiled twice.
pub(crate) fn decode(s: &[u8], decomposed: bool, out: &mut [u16]) -> Result<CharLen, Refusal>
    requires { length (spread unicode16 decomposed (accepted unicode16 s.now)) ≤ length out.old }
    ensures { Reading unicode16 decomposed s.now out.old out.new result }
{
    let mut i = 0;
    let mut n: usize = 0;
    while i < s.len() {
        let a = s[i];
        if a < 0x80 {
            n = put(Spread::One(u16::from(a)), out, n);
            i += 1;
        } else {
            let Some(sequence) = utf8::read(s, i) else {
                return Err(Refusal::IllFormed);
            };
            if !ucd::is_member(sequence.point) {
                return Err(fault_of(&s[i..]));
            }
            n = put(spread_point(sequence.point as u16, decomposed), out, n);
            i += sequence.width;
        }
    }
    Ok(CharLen(n))
}

// Whether all bytes of `s` are ASCII, after which nothing needs the table: the library's method, with our definition as
// its clause.
pub fn is_ascii(s: &[u8]) -> bool
    ensures { result ≡ all_ascii s.now }
{
    s.is_ascii()
}

// Writes the bytes `s`, each as the code point that it is in ASCII, to the front of `out`, and returns their number.
fn widen(s: &[u8], out: &mut [u16]) -> usize
    requires { length s.now ≤ length out.old }
    ensures { Written out.old out.new result s.now }
{
    for (i, &b) in s.iter().enumerate() {
        out[i] = u16::from(b);
    }
    s.len()
}

// The code points of `text`, as they are, read into a buffer of our own, which has three places for every two bytes. A text that is refused may leave
// some there. Written into its callers, so that the answer need not go through memory.
#[inline(always)]
pub(crate) fn read_points(text: &[u8], out: &mut [u16]) -> Result<CharLen, Refusal>
    requires { length text.now ≤ length out.old / 3 * 2 }
    ensures { Reading unicode16 false text.now out.old out.new result }
{
    if is_ascii(text) {
        Ok(CharLen(widen(text, out)))
    } else {
        decode(text, false, out)
    }
}

// The code points of `text`, as they are, at the front of `out`, which has to have three places for every two bytes. A text that is refused leaves its
// code points before the fault there: `code_points` writes none, and asks for no more room than the code points take.
pub fn points(text: &[u8], out: &mut [u16]) -> Result<CharLen, Refusal>
    ensures { PointsReading unicode16 text.now out.old out.new result }
{
    if out.len() / 3 * 2 < text.len() {
        return Err(Refusal::NoRoom);
    }
    read_points(text, out)
}

// How many code points the bytes `s` have, or which of the two refusals they get. Each turn steps by the width of a
// sequence, so that no `for` fits, as in `decode`; and ASCII has a branch of its own, without which the loop is slower
// by a fifth.
fn count_points(s: &[u8]) -> Result<CharLen, Refusal>
    ensures { Counting unicode16 s.now result }
{
    let mut i: usize = 0;
    let mut n: usize = 0;
    while i < s.len() {
        if s[i] < 0x80 {
            i += 1;
            n += 1;
        } else {
            let Some(sequence) = utf8::read(s, i) else {
                return Err(Refusal::IllFormed);
            };
            if !ucd::is_member(sequence.point) {
                return Err(fault_of(&s[i..]));
            }
            i += sequence.width;
            n += 1;
        }
    }
    Ok(CharLen(n))
}

// Writes the code points `s` to `out`, if there is room for all of them: the room is of code points, where
// `reply::place` asks for that of their bytes.
fn place_points(s: &[u16], out: &mut [u16]) -> Result<CharLen, Refusal>
    ensures { points_reply result out.new ≡ placed 0 s.now out.old }
{
    if out.len() < s.len() {
        return Err(Refusal::NoRoom);
    }
    Ok(CharLen(text::put(s, out, 0)))
}

// The code points of a short text, read into a buffer of our own first, so that a refusal writes nothing.
fn short_points(text: &[u8], out: &mut [u16]) -> Result<CharLen, Refusal>
    requires { length text.now ≤ 16 }
    ensures { points_reply result out.new ≡ points_call unicode16 text.now out.old }
{
    let mut read = [0u16; 24];
    let len = decode(text, false, &mut read)?;
    place_points(&read[..len.0], out)
}

// The code points of any text, counted first, so that a refusal writes nothing.
fn long_points(text: &[u8], out: &mut [u16]) -> Result<CharLen, Refusal>
    ensures { points_reply result out.new ≡ points_call unicode16 text.now out.old }
{
    let len = count_points(text)?;
    if out.len() < len.0 {
        return Err(Refusal::NoRoom);
    }
    decode(text, false, out)
}

// The code points of `text`, as they are, in `out`. A refusal writes nothing. Written into its callers, as `check` is.
#[inline(always)]
pub fn code_points(text: &[u8], out: &mut [u16]) -> Result<CharLen, Refusal>
    ensures { points_reply result out.new ≡ points_call unicode16 text.now out.old }
{
    if is_ascii(text) {
        if out.len() < text.len() {
            return Err(Refusal::NoRoom);
        }
        Ok(CharLen(widen(text, out)))
    } else if text.len() <= 16 {
        short_points(text, out)
    } else {
        long_points(text, out)
    }
}

// Whether the bytes `s` are a text of the table, or which of the two refusals they get.
fn check_points(s: &[u8]) -> Result<(), Refusal>
    ensures { result ≡ verdict_of (check_points unicode16 (decode s.now)) }
{
    count_points(s)?;
    Ok(())
}

// Whether `text` is a text of the table of at most `limit` bytes. Written into its callers: for a short text the call would
// cost as much as the look.
#[inline(always)]
pub fn check(text: &[u8], limit: usize) -> Result<(), Refusal>
    ensures { result ≡ verdict_of (check_within unicode16 limit text.now) }
{
    if limit < text.len() {
        return Err(Refusal::TooLong);
    }
    if is_ascii(text) {
        Ok(())
    } else {
        check_points(text)
    }
}

// Where the last sequence of `text` begins, in bytes.
pub fn last_start(text: &[u8]) -> ByteLen
    ensures { (result.0 ≡ last_start text.now) × (result.0 ≤ length text.now) }
{
    ByteLen(utf8::last_start(text))
}

// The code point of the last sequence of `text`, and 0 where there is none, or one of more than sixteen bits, which the
// table has not: 0 is what the definition says there, and it is no letter.
pub fn last_point(text: &[u8]) -> u16
    ensures { result ≡ last_point text.now }
{
    if text.is_empty() {
        return 0;
    }
    match utf8::read_any(&text[utf8::last_start(text)..]) {
        Some(sequence) => u16::try_from(sequence.point).unwrap_or(0),
        None => 0,
    }
}

// The full decomposition of the code points `s`, written to the front of `out`.
pub(crate) fn decompose(s: &[u16], out: &mut [u16]) -> usize
    requires { 3 * length s.now ≤ length out.old }
    ensures { Written out.old out.new result (full unicode16 s.now) }
{
    let mut n: usize = 0;
    for &c in s {
        n = put(spread_point(c, true), out, n);
    }
    n
}

// How many bytes the first `chars` code points of `s` take.
pub(crate) fn to_byte_len(s: &[u16], chars: CharLen) -> ByteLen
    requires { (chars.0 ≤ length s.now) × (length s.now ≤ 65536) }
    ensures { result.0 ≡ to_byte_len s.now chars.0 }
{
    utf8::encoded_len(&s[..chars.0])
}
