// Texts of code points: letters in lower case, whether a text begins with a pattern, and replace-all.
ghost use Rattle.std.specs.Prelude.{◌≡◌, [], ◌∷◌, ◌+◌, ◌≤◌, ◌<◌, leb, length, drop};
ghost use Rattle.std.proofs.Math.Seq.{paste};
ghost use Rattle.ji.specs.Text.{lower as lower_of, begins, replace_all};
ghost use Rattle.ji.specs.Written.{Written};
ghost use Rattle.ji.specs.Replacing.{Replacing};

use crate::unicode::CharLen;

// An ASCII letter in lower case, and any other code point as it is.
pub fn lower(x: u16) -> u16
    ensures { result ≡ lower_of x }
{
    match x {
        0x41..=0x5A => x + 32,
        _ => x,
    }
}

// The same of a byte: the library's method, under the name and the definition that callers know.
pub fn lower_byte(x: u8) -> u8
    ensures { result ≡ lower_of x }
{
    x.to_ascii_lowercase()
}

// Why a text is left as it is: what it would become does not go into the buffer, or the pattern is empty.
#[derive(Clone, Copy, PartialEq, Eq)]
pub enum Unreplaced {
    NoRoom,
    NoPattern,
}

// Whether `s` begins with `pattern` at `at`.
pub(crate) fn begins_at(s: &[u16], at: usize, pattern: &[u16]) -> bool
    requires { at ≤ length s.now }
    ensures { result ≡ begins pattern.now (drop at s.now) }
{
    s[at..].starts_with(pattern)
}

// Writes `src` into `out` from `at` on, and returns the place behind it.
pub(crate) fn put(src: &[u16], out: &mut [u16], at: usize) -> usize
    requires { at + length src.now ≤ length out.old }
    ensures { (result ≡ at + length src.now) × (out.new ≡ paste out.old at src.now (length src.now)) }
{
    let end = at + src.len();
    out[at..end].copy_from_slice(src);
    end
}

// Writes `src`, with each occurrence of `pattern` replaced by `by`, to the front of `out`, and returns its length.
// An occurrence takes the loop as far as the pattern is long, which is the step of no range: here, in `fits` and in
// `replace_same`.
pub(crate) fn replace(src: &[u16], pattern: &[u16], by: &[u16], out: &mut [u16]) -> usize
    requires { (0 < length pattern.now) × (length (replace_all pattern.now by.now src.now) ≤ length out.old) }
    ensures { Written out.old out.new result (replace_all pattern.now by.now src.now) }
{
    let mut i: usize = 0;
    let mut j: usize = 0;
    while i < src.len() {
        if begins_at(src, i, pattern) {
            j = put(by, out, j);
            i += pattern.len();
        } else {
            out[j] = src[i];
            i += 1;
            j += 1;
        }
    }
    j
}

// Whether `s`, with each occurrence of `pattern` replaced by `by`, has at most `room` code points. It counts down what is left of the
// room, and stops at the first piece that does not go in, so that a length that no number holds is refused too.
fn fits(s: &[u16], pattern: &[u16], by: &[u16], room: usize) -> bool
    requires { 0 < length pattern.now }
    ensures { result ≡ leb (length (replace_all pattern.now by.now s.now)) room }
{
    let mut i: usize = 0;
    let mut left = room;
    while i < s.len() {
        let (width, size) = if begins_at(s, i, pattern) {
            (pattern.len(), by.len())
        } else {
            (1, 1)
        };
        let Some(rest) = left.checked_sub(size) else {
            return false;
        };
        left = rest;
        i += width;
    }
    true
}

// `s` with each occurrence of `pattern` replaced by `by`, in `out`.
pub fn replace_all(
    s: &[u16],
    pattern: &[u16],
    by: &[u16],
    out: &mut [u16],
) -> Result<CharLen, Unreplaced>
    ensures { Replacing pattern.now by.now s.now out.old out.new result }
{
    if pattern.is_empty() {
        return Err(Unreplaced::NoPattern);
    }
    if !fits(s, pattern, by, out.len()) {
        return Err(Unreplaced::NoRoom);
    }
    Ok(CharLen(replace(s, pattern, by, out)))
}

// Replaces each occurrence of `pattern` by `by`, which is as long, so that the rest of the text stays where it is.
pub(crate) fn replace_same(s: &mut [u16], pattern: &[u16], by: &[u16])
    requires { (0 < length pattern.now) × (length by.now ≡ length pattern.now) }
    ensures { s.new ≡ replace_all pattern.now by.now s.old }
{
    let mut i: usize = 0;
    while i < s.len() {
        if begins_at(s, i, pattern) {
            i = put(by, s, i);
        } else {
            i += 1;
        }
    }
}

// Replaces each `a` `b` by `c` `d`.
pub fn replace_pair(s: &mut [u16], a: u16, b: u16, c: u16, d: u16)
    ensures { s.new ≡ replace_all (a ∷ b ∷ []) (c ∷ d ∷ []) s.old }
{
    replace_same(s, &[a, b], &[c, d]);
}
