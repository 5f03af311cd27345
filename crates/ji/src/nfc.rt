// Canonical composition (the Unicode Standard, 3.11, D115 and D117), of code points in their buffer, and NFC (D120).
ghost use Rattle.std.specs.Prelude.{◌≡◌, true, false, ◌++◌, ◌*◌, ◌/◌, ◌≤◌, length, drop};
ghost use Rattle.std.proofs.Math.Option.{none, some};
ghost use Rattle.ucd.specs.Unicode16.{unicode16};
ghost use Rattle.ji.specs.Utf8.{encode};
ghost use Rattle.ji.specs.Reply.{over, placed, text_call, text_reply};
ghost use Rattle.ji.specs.Normalising.{exchanged, exchanged_call, Normalising};
ghost use Rattle.ji.specs.Nfd.{nfd};
ghost use Rattle.ji.specs.Nfc.{pick_done, reversed, absorb, compose, nfc};

use crate::reply::Refusal;
use crate::text::replace_pair;
use crate::unicode::{ByteLen, CharLen};
use crate::{nfd, reply, unicode};

// R1 and R2: c and the last starter of s give way to their composite, in the starter's place, unless c is blocked from
// it or they have none. Says whether they did. What stands below U+0300 ends no composite, and needs no call. A search
// by `rposition` would have the class of what it finds looked up again, to tell a starter from what blocks.
fn absorb(s: &mut [u16], c: u16) -> bool
    ensures { (pick_done result (some (reversed s.new)) none ≡ absorb unicode16 c (reversed s.old))
        × (result ≡ false → s.new ≡ s.old) }
{
    if c < 0x0300 {
        return false;
    }
    let class = ucd::combining_class(c);
    for i in (0..s.len()).rev() {
        let b = s[i];
        let before = nfd::class_of(b);
        if before == 0 {
            let Some(p) = ucd::composite(b, c) else {
                return false;
            };
            s[i] = p;
            return true;
        }
        if class <= before {
            return false;
        }
    }
    false
}

// Composes s from its first code point to its last. Says how many code points are left; what stands behind them stays
// as it was. The places are counted, since those that are read and written are of one slice.
pub(crate) fn compose(s: &mut [u16]) -> usize
    ensures { (result ≡ length (compose unicode16 s.old))
        × (s.new ≡ compose unicode16 s.old ++ drop result s.old) }
{
    let mut n: usize = 0;
    for i in 0..s.len() {
        let c = s[i];
        if !absorb(&mut s[..n], c) {
            s[n] = c;
            n += 1;
        }
    }
    n
}

// Makes the NFC of the code points `s` at the front of `work`, where their NFD is made first, and returns its length.
fn make(s: &[u16], work: &mut [u16]) -> usize
    requires { length s.now ≤ length work.old / 3 }
    ensures { (result ≡ length (nfc unicode16 s.now))
        × (work.new ≡ over (nfc unicode16 s.now) (over (nfd unicode16 s.now) work.old)) }
{
    let n = unicode::decompose(s, work);
    nfd::order(&mut work[..n]);
    compose(&mut work[..n])
}

// NFC of the code points `s`, at the front of `out`. The buffer has to have three places for each, where their NFD is made.
pub fn normalise(s: &[u16], out: &mut [u16]) -> Option<CharLen>
    ensures { Normalising unicode16 s.now out.old out.new result }
{
    if out.len() / 3 < s.len() {
        return None;
    }
    Some(CharLen(make(s, out)))
}

// NFC of the code points `s`, made in a buffer of N places, with each `a` `b` in it exchanged, in `out`.
fn place_in<const N: usize>(s: &[u16], a: u16, b: u16, out: &mut [u8]) -> Result<ByteLen, Refusal>
    requires bounded { N ≤ 65536 }
    requires room { 3 * length s.now ≤ N }
    ensures { text_reply result out.new ≡ placed 0 (encode (exchanged a b (nfc unicode16 s.now))) out.old }
{
    let mut work = [0u16; N];
    let n = make(s, &mut work);
    replace_pair(&mut work[..n], a, b, b, a);
    reply::place(&work[..n], out)
}

// NFC of the code points `s`, with each `a` `b` in it exchanged, in `out`. Short texts are normalised in a small buffer,
// since clearing it is quicker.
pub fn place_exchanged(s: &[u16], a: u16, b: u16, out: &mut [u8]) -> Result<ByteLen, Refusal>
    ensures { text_reply result out.new ≡ exchanged_call unicode16 a b s.now out.old }
{
    if s.len() <= 24 {
        place_in::<72>(s, a, b, out)
    } else if s.len() <= 1024 {
        place_in::<3072>(s, a, b, out)
    } else {
        Err(Refusal::TooLong)
    }
}

// Composes `s`, which is in NFD, and writes it to `out`.
fn place_composed(s: &mut [u16], out: &mut [u8]) -> Result<ByteLen, Refusal>
    ensures { text_reply result out.new ≡ placed 0 (encode (compose unicode16 s.old)) out.old }
{
    let n = compose(s);
    reply::place(&s[..n], out)
}

// NFC of `text`, in `out`.
pub fn to_nfc(text: &[u8], out: &mut [u8]) -> Result<ByteLen, Refusal>
    ensures { text_reply result out.new ≡ text_call unicode16 (nfc unicode16) text.now out.old }
{
    let mut points = [0u16; 384];
    let len = nfd::read_nfd(text, &mut points)?;
    place_composed(&mut points[..len.0], out)
}
