// What calls answer: refusals with their numbers, and texts.
ghost use Rattle.std.specs.Prelude.{◌≡◌, ◌++◌, ◌+◌, ◌≤◌, ◌<◌, length};
ghost use Rattle.ji.specs.Utf8.{bytes_of, encode};
ghost use Rattle.ji.specs.Written.{Written, Covers};
ghost use Rattle.ji.specs.Reply.{refusal_number, placed, text_reply};

use crate::unicode::ByteLen;
use crate::utf8;

// Why a call is refused.
#[derive(Clone, Copy, PartialEq, Eq)]
pub enum Refusal {
    Argument = 1,
    TooLong = 2,
    IllFormed = 3,
    OutsideTable = 4,
    Parts = 5,
    Position = 6,
    NoRoom = 7,
}

impl Refusal {
    // The number of a refusal. Callers cite the clause by the method's name, which a From does not give.
    pub fn number(self) -> u64
        ensures { result ≡ refusal_number self }
    {
        self as u64
    }
}

// Writes the text `s` to `out`, if there is room for all of it. A code point has three bytes at most, so that most buffers need no counting.
pub fn place(s: &[u16], out: &mut [u8]) -> Result<ByteLen, Refusal>
    ensures { text_reply result out.new ≡ placed 0 (encode s.now) out.old }
{
    if s.len() <= out.len() / 3 || utf8::fits(s, out.len()) {
        Ok(utf8::encode(s, out))
    } else {
        Err(Refusal::NoRoom)
    }
}

// Copies the four bytes of `s` from `at` on to the same places of `out`.
fn copy_four(s: &[u8], at: usize, out: &mut [u8])
    requires { (at + 4 ≤ length s.now) × (length s.now ≤ length out.old) }
    ensures { Covers s.now out.old out.new at (at + 4) }
{
    out[at] = s[at];
    out[at + 1] = s[at + 1];
    out[at + 2] = s[at + 2];
    out[at + 3] = s[at + 3];
}

// Copies at most three bytes: the first, the one in the middle and the last.
fn copy_few(s: &[u8], out: &mut [u8])
    requires { (length s.now < 4) × (length s.now ≤ length out.old) }
    ensures { Written out.old out.new (length s.now) s.now }
{
    if s.is_empty() {
        return;
    }
    let middle = s.len() / 2;
    let last = s.len() - 1;
    out[0] = s[0];
    out[middle] = s[middle];
    out[last] = s[last];
}

// Copies the bytes `s` to the front of `out`, one after the other: `copy_from_slice` calls memmove, which a C program
// would have to supply too.
fn copy_each(s: &[u8], out: &mut [u8])
    requires { length s.now ≤ length out.old }
    ensures { Written out.old out.new (length s.now) s.now }
{
    for (i, &b) in s.iter().enumerate() {
        out[i] = b;
    }
}

// Copies the bytes `s` to the front of `out`. Most texts have at most eight, which go without a loop: the first four and
// the last four, though these may share some.
pub(crate) fn copy(s: &[u8], out: &mut [u8])
    requires { length s.now ≤ length out.old }
    ensures { Written out.old out.new (length s.now) s.now }
{
    if 8 < s.len() {
        copy_each(s, out);
    } else if s.len() < 4 {
        copy_few(s, out);
    } else {
        copy_four(s, 0, out);
        copy_four(s, s.len() - 4, out);
    }
}

// Writes the bytes `s` of a text to `out`, if there is room for all of them.
pub fn place_bytes(s: &[u8], out: &mut [u8]) -> Result<ByteLen, Refusal>
    ensures { text_reply result out.new ≡ placed 0 s.now out.old }
{
    if out.len() < s.len() {
        return Err(Refusal::NoRoom);
    }
    copy(s, out);
    Ok(ByteLen(s.len()))
}

// Writes the bytes `before`, the code point `x` and the bytes `after` to `out`, if there is room for all of them.
pub fn place_between(
    before: &[u8],
    x: u16,
    after: &[u8],
    out: &mut [u8],
) -> Result<ByteLen, Refusal>
    ensures { text_reply result out.new ≡ placed 0 (before.now ++ (bytes_of x ++ after.now)) out.old }
{
    let size = utf8::byte_count(x);
    let Some(left) = out.len().checked_sub(before.len()) else {
        return Err(Refusal::NoRoom);
    };
    if left < size || left - size < after.len() {
        return Err(Refusal::NoRoom);
    }
    copy(before, out);
    let at = utf8::put_point(u32::from(x), out, before.len());
    copy(after, &mut out[at..]);
    Ok(ByteLen(at + after.len()))
}
