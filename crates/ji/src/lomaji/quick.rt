// The quick way to strip a text: one walk from its bytes to the bytes of the stripped text. It gives up where the text is refused, where the marks
// that are left have to be put in order, and where the buffer might be too short.
ghost use Rattle.std.specs.Prelude.{◌≡◌, false, [], ◌∷◌, ◌+◌, ◌≤◌, ◌<◌, length, IfSome};
ghost use Rattle.ucd.specs.Table.{decomposition};
ghost use Rattle.ucd.specs.Full.{full};
ghost use Rattle.ucd.specs.Unicode16.{unicode16};
ghost use Rattle.ji.specs.Written.{Written};
ghost use Rattle.ji.specs.Lomaji.Strip.{is_tone_mark};
ghost use Rattle.ji.specs.Lomaji.Quick.{IsLetter, Further, Walked};

use crate::lomaji::strip::mark_tone;
use crate::tone::Tone;
use crate::unicode::ByteLen;
use crate::{nfd, utf8};
use ucd::Mapping;

// What the walk knows of the marks so far: the tone of the last tone mark, the combining class of the last code point that was written, and whether
// those that were written are in order.
#[derive(Clone, Copy)]
struct Marks {
    tone: Tone,
    class: u8,
    sorted: bool,
}

// Takes an ASCII character. This and the others below write at `n`, and return the place behind what they wrote. A struct of the buffer, the place
// and the marks in their stead, passed by value, makes the walk of a long text 1.2 times slower.
fn push_ascii(x: u8, out: &mut [u8], n: usize, marks: &mut Marks) -> usize
    requires { (x < 0x80) × (n < length out.old) }
    ensures { (result ≤ n + 1) × Further n marks.old result marks.new out.old out.new (x ∷ []) }
{
    out[n] = x;
    marks.class = 0;
    n + 1
}

// Takes a code point that is no tone mark.
fn push_kept(x: u16, out: &mut [u8], n: usize, marks: &mut Marks) -> usize
    requires { (is_tone_mark x ≡ false) × (n + 3 ≤ length out.old) }
    ensures { (result ≤ n + 3) × Further n marks.old result marks.new out.old out.new (x ∷ []) }
{
    let class = nfd::class_of(x);
    let sorted = marks.sorted && (class == 0 || marks.class <= class);
    marks.sorted = sorted;
    marks.class = class;
    utf8::put_point(u32::from(x), out, n)
}

// Takes a code point that decomposes no further.
fn push(x: u16, out: &mut [u8], n: usize, marks: &mut Marks) -> usize
    requires { n + 3 ≤ length out.old }
    ensures { (result ≤ n + 3) × Further n marks.old result marks.new out.old out.new (x ∷ []) }
{
    let tone = mark_tone(x);
    if tone.is_tone() {
        marks.tone = tone;
        n
    } else {
        push_kept(x, out, n, marks)
    }
}

// Takes the decomposition of a code point. Most are ASCII here, and decompose no further: `unicode::spread_point` looks each of them up, and its
// three cases would be matched here once more, so that this and `push_decomposed` go through the two passes themselves.
fn push_first(a: u16, out: &mut [u8], n: usize, marks: &mut Marks) -> usize
    requires { n + 6 ≤ length out.old }
    ensures { (result ≤ n + 6) × Further n marks.old result marks.new out.old out.new (decomposition unicode16 a) }
{
    if a < 0x80 {
        return push_ascii(a as u8, out, n, marks);
    }
    match ucd::decomposition(a) {
        Mapping::Itself => push(a, out, n, marks),
        Mapping::One(x) => push(x, out, n, marks),
        Mapping::Two(x, y) => {
            let m = push(x, out, n, marks);
            push(y, out, m, marks)
        }
    }
}

// An ASCII letter with a tone mark, and the tone of that.
#[derive(Clone, Copy)]
pub(crate) struct MarkedLetter {
    pub ascii: u8,
    pub tone: Tone,
}

// A vowel with the mark of tone 2, 3 or 5. Texts hold few others that decompose. A `match` is compiled into a table where its patterns lie close
// together: with those of tone 7, which lie apart, it would be one of jumps.
fn low_letter(c: u16) -> Option<MarkedLetter>
    ensures { IfSome result (IsLetter c) }
{
    let (ascii, tone) = match c {
        0x00E0 => (b'a', Tone::T3), // à
        0x00E1 => (b'a', Tone::T2), // á
        0x00E2 => (b'a', Tone::T5), // â
        0x00E8 => (b'e', Tone::T3), // è
        0x00E9 => (b'e', Tone::T2), // é
        0x00EA => (b'e', Tone::T5), // ê
        0x00EC => (b'i', Tone::T3), // ì
        0x00ED => (b'i', Tone::T2), // í
        0x00EE => (b'i', Tone::T5), // î
        0x00F2 => (b'o', Tone::T3), // ò
        0x00F3 => (b'o', Tone::T2), // ó
        0x00F4 => (b'o', Tone::T5), // ô
        0x00F9 => (b'u', Tone::T3), // ù
        0x00FA => (b'u', Tone::T2), // ú
        0x00FB => (b'u', Tone::T5), // û
        _ => return None,
    };
    Some(MarkedLetter { ascii, tone })
}

// A vowel with the mark of tone 7.
fn macron_letter(c: u16) -> Option<MarkedLetter>
    ensures { IfSome result (IsLetter c) }
{
    let ascii = match c {
        0x0101 => b'a', // ā
        0x0113 => b'e', // ē
        0x012B => b'i', // ī
        0x014D => b'o', // ō
        0x016B => b'u', // ū
        _ => return None,
    };
    Some(MarkedLetter {
        ascii,
        tone: Tone::T7,
    })
}

// A vowel with one of these marks.
pub(crate) fn letter(c: u16) -> Option<MarkedLetter>
    ensures { IfSome result (IsLetter c) }
{
    if c < 0x0100 {
        low_letter(c)
    } else {
        macron_letter(c)
    }
}

// Takes the full decomposition of a code point.
fn push_decomposed(c: u16, out: &mut [u8], n: usize, marks: &mut Marks) -> usize
    requires { n + 9 ≤ length out.old }
    ensures { (result ≤ n + 9) × Further n marks.old result marks.new out.old out.new (full unicode16 (c ∷ [])) }
{
    if let Some(letter) = letter(c) {
        let m = push_ascii(letter.ascii, out, n, marks);
        marks.tone = letter.tone;
        return m;
    }
    match ucd::decomposition(c) {
        Mapping::Itself => push(c, out, n, marks),
        Mapping::One(a) => push(a, out, n, marks),
        Mapping::Two(a, b) => {
            let m = push_first(a, out, n, marks);
            push(b, out, m, marks)
        }
    }
}

// The same. U+0358 is its own decomposition and no tone mark, and most texts that hold a mark of another kind hold this one.
fn push_point(c: u16, out: &mut [u8], n: usize, marks: &mut Marks) -> usize
    requires { n + 9 ≤ length out.old }
    ensures { (result ≤ n + 9) × Further n marks.old result marks.new out.old out.new (full unicode16 (c ∷ [])) }
{
    if c == 0x0358 {
        push_kept(c, out, n, marks)
    } else {
        push_decomposed(c, out, n, marks)
    }
}

// The stripped text of `s`, in UTF-8, written to the front of `out`: its length, and the tone of its last mark, Tone::None where it has none. Each turn
// steps by the width of a sequence, so that no `for` fits.
pub(crate) fn walk(s: &[u8], out: &mut [u8]) -> Option<(ByteLen, Tone)>
    requires { (length s.now ≤ length out.old) × (length out.old ≤ 65536) }
    ensures { Walked s.now out.old out.new result }
{
    let mut i: usize = 0;
    let mut n: usize = 0;
    let mut marks = Marks {
        tone: Tone::None,
        class: 0,
        sorted: true,
    };
    while i < s.len() {
        let a = s[i];
        if a < 0x80 {
            n = push_ascii(a, out, n, &mut marks);
            i += 1;
        } else {
            let sequence = utf8::read(s, i)?;
            if out.len() < n + (s.len() - i) + 9 || !ucd::is_member(sequence.point) {
                return None;
            }
            n = push_point(sequence.point as u16, out, n, &mut marks);
            i += sequence.width;
        }
    }
    marks.sorted.then_some((ByteLen(n), marks.tone))
}
