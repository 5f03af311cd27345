// Canonical order (the Unicode Standard, 3.11, D108 and D109), of code points in their buffer, and NFD (D118).
ghost use Rattle.std.specs.Prelude.{◌≡◌, true, false, ◌&&◌, ◌++◌, ◌+◌, ◌*◌, ◌<◌, ◌≤◌, ltb, length, take, drop, get_or};
ghost use Rattle.std.specs.List.{prefix_len};
ghost use Rattle.ucd.specs.Table.{combining_class};
ghost use Rattle.ucd.specs.Unicode16.{unicode16};
ghost use Rattle.ji.specs.Reply.{text_call, text_reply};
ghost use Rattle.ji.specs.Reading.{NfdReading};
ghost use Rattle.ji.specs.Nfd.{Ordered, insert, order, nfd};

use crate::reply::Refusal;
use crate::unicode::{ByteLen, CharLen};
use crate::{reply, unicode};

// The combining class of c. `ucd` tests for U+0300 too, but in a call: most texts hold little that is not below it, and
// need no call.
pub(crate) fn class_of(c: u16) -> u8
    ensures { result ≡ combining_class unicode16 c }
{
    if c < 0x0300 {
        0
    } else {
        ucd::combining_class(c)
    }
}

// No pair of s is reorderable. The class before is kept: pairs of `windows(2)` would have each class looked up twice.
fn is_ordered(s: &[u16]) -> bool
    ensures { (result ≡ true → Ordered unicode16 s.now) × (result ≡ false → Ordered unicode16 s.now → ⊥) }
{
    let mut before: u8 = 0;
    for &c in s {
        let class = class_of(c);
        if 0 < class && class < before {
            return false;
        }
        before = class;
    }
    true
}

// How many code points, from the front of s on, one of this class is exchanged with.
fn passed(class: u8, s: &[u16]) -> usize
    ensures { result ≡ prefix_len (λ b. ltb 0 (combining_class unicode16 b) && ltb (combining_class unicode16 b) class) s.now }
{
    s.iter()
        .take_while(|&&b| {
            let next = class_of(b);
            0 < next && next < class
        })
        .count()
}

// Moves the code point at i behind those that it is exchanged with. A loop, since `rotate_left` calls memmove, which a C
// program would have to supply too.
fn insert(s: &mut [u16], i: usize)
    requires { i < length s.old }
    ensures { s.new ≡ take i s.old ++ insert unicode16 (get_or s.old i 0) (drop (i + 1) s.old) }
{
    let a = s[i];
    let end = i + passed(class_of(a), &s[i + 1..]);
    for j in i..end {
        s[j] = s[j + 1];
    }
    s[end] = a;
}

// The insertions, from the last code point to the first. The library's stable sort asks for memory of its own, and
// there is none.
fn sort(s: &mut [u16])
    ensures { s.new ≡ order unicode16 s.old }
{
    for i in (0..s.len()).rev() {
        insert(s, i);
    }
}

// Puts s into canonical order. Most texts are in order already: they are only read.
pub(crate) fn order(s: &mut [u16])
    ensures { s.new ≡ order unicode16 s.old }
{
    if !is_ordered(s) {
        sort(s);
    }
}

// Reads `text` into `points`, in NFD.
pub(crate) fn read_nfd(text: &[u8], points: &mut [u16]) -> Result<CharLen, Refusal>
    requires { 384 ≤ length points.old }
    ensures { NfdReading unicode16 text.now points.old points.new result }
{
    if 256 < text.len() {
        return Err(Refusal::TooLong);
    }
    let len = unicode::decode(text, true, points)?;
    order(&mut points[..len.0]);
    Ok(len)
}

// NFD of `text`, in `out`.
pub fn to_nfd(text: &[u8], out: &mut [u8]) -> Result<ByteLen, Refusal>
    ensures { text_reply result out.new ≡ text_call unicode16 (nfd unicode16) text.now out.old }
{
    let mut points = [0u16; 384];
    let len = read_nfd(text, &mut points)?;
    reply::place(&points[..len.0], out)
}
