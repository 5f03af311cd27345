// UTF-8: one sequence at a time, whole texts, and the walk that turns code points into bytes.
ghost use Rattle.std.specs.Prelude.{◌≡◌, ◌&&◌, ℕ, ◌+◌, ◌-◌, ◌≤◌, ◌<◌, leb, length, drop, get_or};
ghost use Rattle.std.proofs.Math.Seq.{paste};
ghost use Rattle.ji.specs.Written.{Written};
ghost use Rattle.ji.specs.Text.{within};
ghost use Rattle.ji.specs.Utf8.{is_start, last_start, second_low, second_high, ReadOf, decode, is_decoded, bytes_of, encode};

use crate::unicode::ByteLen;

// A well-formed sequence of bytes: its width and its code point.
#[derive(Clone, Copy)]
pub(crate) struct Sequence {
    pub width: usize,
    pub point: u32,
}

// The byte at `i`, and 0 past the end: 0 is no later byte of a sequence, so that a text that ends early is no case of its
// own in the functions below and in their proofs, as it would be with patterns of the slice.
fn byte_at(s: &[u8], i: usize) -> u32
    ensures { (result ≡ get_or s.now i 0) × (result ≤ 255) }
{
    u32::from(s.get(i).copied().unwrap_or(0))
}

// Whether `b` may be a later byte of a sequence, where its first byte asks for no more.
fn is_later(b: u32) -> bool
    ensures { result ≡ within 0x80 0xBF b }
{
    (0x80..=0xBF).contains(&b)
}

// Whether `b` may be the second byte behind `a`, in a sequence of three bytes or four.
fn is_second(a: u32, b: u32) -> bool
    ensures { result ≡ within (second_low a) (second_high a) b }
{
    match a {
        0xE0 => (0xA0..=0xBF).contains(&b),
        0xED => (0x80..=0x9F).contains(&b),
        0xF0 => (0x90..=0xBF).contains(&b),
        0xF4 => (0x80..=0x8F).contains(&b),
        _ => is_later(b),
    }
}

// The sequence of two bytes that `s` begins with. It and the next two are a function each: what the first byte gives of the
// code point, what is asked of the second, and how many bytes follow differ, and one function would have a case for each.
fn read_two(s: &[u8]) -> Option<Sequence>
    requires { (0 < length s.now) × (0xC2 ≤ get_or s.now 0 0) × (get_or s.now 0 0 ≤ 0xDF) }
    ensures { ReadOf s.now result }
{
    let a = byte_at(s, 0);
    let b = byte_at(s, 1);
    is_later(b).then_some(Sequence {
        width: 2,
        point: a % 32 * 64 + b % 64,
    })
}

fn read_three(s: &[u8]) -> Option<Sequence>
    requires { (0 < length s.now) × (0xE0 ≤ get_or s.now 0 0) × (get_or s.now 0 0 ≤ 0xEF) }
    ensures { ReadOf s.now result }
{
    let a = byte_at(s, 0);
    let b = byte_at(s, 1);
    let c = byte_at(s, 2);
    (is_second(a, b) && is_later(c)).then_some(Sequence {
        width: 3,
        point: a % 16 * 4096 + b % 64 * 64 + c % 64,
    })
}

fn read_four(s: &[u8]) -> Option<Sequence>
    requires { (0 < length s.now) × (0xF0 ≤ get_or s.now 0 0) × (get_or s.now 0 0 ≤ 0xF4) }
    ensures { ReadOf s.now result }
{
    let a = byte_at(s, 0);
    let b = byte_at(s, 1);
    let c = byte_at(s, 2);
    let d = byte_at(s, 3);
    (is_second(a, b) && is_later(c) && is_later(d)).then_some(Sequence {
        width: 4,
        point: a % 8 * 262144 + b % 64 * 4096 + c % 64 * 64 + d % 64,
    })
}

// The sequence that `s` begins with, or `None` where its bytes fit no row of Table 3-7.
pub(crate) fn read_any(s: &[u8]) -> Option<Sequence>
    requires { 0 < length s.now }
    ensures { ReadOf s.now result }
{
    let a = byte_at(s, 0);
    match a {
        0x00..=0x7F => Some(Sequence { width: 1, point: a }),
        0xC2..=0xDF => read_two(s),
        0xE0..=0xEF => read_three(s),
        0xF0..=0xF4 => read_four(s),
        _ => None,
    }
}

// The sequence that begins at `at`, small enough to be compiled into a caller's loop: one of one byte or two is read in
// place, where a call for each would be too slow. It takes the place and no slice from there on: with the slices that they
// would make, the loops over texts take up to half as long again.
pub(crate) fn read(s: &[u8], at: usize) -> Option<Sequence>
    requires { at < length s.now }
    ensures { ReadOf (drop at s.now) result }
{
    let a = byte_at(s, at);
    match a {
        0x00..=0x7F => Some(Sequence { width: 1, point: a }),
        0xC2..=0xDF => {
            let b = byte_at(s, at + 1);
            is_later(b).then_some(Sequence {
                width: 2,
                point: a % 32 * 64 + b % 64,
            })
        }
        _ => read_any(&s[at..]),
    }
}

// Whether all of `s` is well formed, by the same definition as its reading, where `str::from_utf8` would need the two
// proved equal. Each turn steps by the width of a sequence, so that no `for` fits: an iterator over sequences would need
// a contract of its own, for one line less.
pub(crate) fn well_formed(s: &[u8]) -> bool
    ensures { result ≡ is_decoded (decode s.now) }
{
    let mut i = 0;
    while i < s.len() {
        let Some(sequence) = read_any(&s[i..]) else {
            return false;
        };
        i += sequence.width;
    }
    true
}

// Writes the bytes of the code point `x` at `at`, and returns the place behind them. `char::encode_utf8` does not fit,
// here and in `byte_count`: a code point of sixteen bits may be a surrogate, which no `char` is.
pub(crate) fn put_point(x: u32, out: &mut [u8], at: usize) -> usize
    requires { (x ≤ 0xFFFF) × (at + length (bytes_of x) ≤ length out.old) }
    ensures { (result ≡ at + length (bytes_of x)) × (out.new ≡ paste out.old at (bytes_of x) (length (bytes_of x))) }
{
    if x <= 0x7F {
        out[at] = x as u8;
        at + 1
    } else if x <= 0x7FF {
        out[at] = (0xC0 + x / 64) as u8;
        out[at + 1] = (0x80 + x % 64) as u8;
        at + 2
    } else {
        out[at] = (0xE0 + x / 4096) as u8;
        out[at + 1] = (0x80 + x / 64 % 64) as u8;
        out[at + 2] = (0x80 + x % 64) as u8;
        at + 3
    }
}

// The bytes of the code points `s`, written to the front of `out`.
pub(crate) fn encode(s: &[u16], out: &mut [u8]) -> ByteLen
    requires { length (encode s.now) ≤ length out.old }
    ensures { Written out.old out.new result.0 (encode s.now) }
{
    let mut n: usize = 0;
    for &c in s {
        n = put_point(u32::from(c), out, n);
    }
    ByteLen(n)
}

// How many bytes the code point `x` takes.
pub(crate) fn byte_count(x: u16) -> usize
    ensures { (result ≡ length (bytes_of x)) × (result ≤ 3) }
{
    match x {
        0x0000..=0x007F => 1,
        0x0080..=0x07FF => 2,
        _ => 3,
    }
}

// How many bytes the code points `s` take.
pub(crate) fn encoded_len(s: &[u16]) -> ByteLen
    requires { length s.now ≤ 65536 }
    ensures { result.0 ≡ length (encode s.now) }
{
    ByteLen(s.iter().map(|&c| byte_count(c)).sum())
}

// Whether the bytes of the code points `s` have room in `room` bytes. It counts down what is left of the room, so that
// a length that no number holds is refused too. With `try_fold` the proof did not close: the clause of a whole run does
// not say what was left before each turn.
pub(crate) fn fits(s: &[u16], room: usize) -> bool
    ensures { result ≡ leb (length (encode s.now)) room }
{
    let mut left = room;
    for &c in s {
        let Some(rest) = left.checked_sub(byte_count(c)) else {
            return false;
        };
        left = rest;
    }
    true
}

// Whether a byte begins a sequence.
fn is_start(b: u8) -> bool
    ensures { result ≡ is_start b }
{
    !is_later(u32::from(b))
}

// Where the last sequence of `s` begins.
pub(crate) fn last_start(s: &[u8]) -> usize
    ensures { (result ≡ last_start s.now) × (result ≤ length s.now) × (0 < length s.now → result < length s.now) }
{
    s.iter().rposition(|&b| is_start(b)).unwrap_or(0)
}
