// The tone mark: what a tone adds to a spelled text, and the text with it in compose's encoding. Most texts need no normalising: there the letter
// and the mark give way to their composite, or stand beside each other.
ghost use Rattle.std.specs.Prelude.{◌≡◌, true, List, ◌∷◌, ◌++◌, ℕ, ◌+◌, ◌*◌, ◌≤◌, ◌<◌, length, take, drop, get_or};
ghost use Rattle.ji.specs.Unicode.{unicode16, listed};
ghost use Rattle.ji.specs.Text.{points as points_of};
ghost use Rattle.ji.specs.Utf8.{bytes_of, encode};
ghost use Rattle.ji.specs.Reply.{placed, text_reply};
ghost use Rattle.khiin.specs.Syllable.{mark_of, encoded};
ghost use Rattle.khiin.specs.Compose.{Front, mark_text, stays_behind, settled_from, JoinedAs, JoinedIn, inserted};

use crate::syllable::letters::{
    A, CAPITAL_A, CAPITAL_E, CAPITAL_I, CAPITAL_M, CAPITAL_N, CAPITAL_O, CAPITAL_SIGN, CAPITAL_U,
    DOT, DOTS, E, I, M, N, O, SMALL_SIGN, U,
};
use ji::nfc::place_exchanged;
use ji::reply;
use ji::reply::Refusal;
use ji::tone::Tone;
use ji::unicode::ByteLen;

// The mark of a tone.
#[tactic(auto, unfolding(crate::specs::Syllable::mark_of))]
pub(crate) fn mark_of(tone: Tone) -> Option<u16>
    ensures { mark_text result ≡ mark_of tone }
{
    match tone {
        Tone::None | Tone::T1 | Tone::T4 => None,
        Tone::T2 => Some(0x0301),
        Tone::T3 => Some(0x0300),
        Tone::T5 => Some(0x0302),
        Tone::T6 => Some(0x0303),
        Tone::T7 => Some(0x0304),
        Tone::T8 => Some(0x030D),
        Tone::T9 => Some(0x0306),
    }
}

// What a letter and a tone mark behind it make, as far as it is known here: one code point, which has two bytes in UTF-8; or they stay apart.
// Unknown is no None: an Option would wrap each line of the six tables in Some.
#[derive(Clone, Copy, PartialEq, Eq)]
pub(crate) enum Joined {
    Composite(u16),
    Apart,
    Unknown,
}

// A letter with a tone mark behind it, a function for each mark: these are six tables, and `line`. A dense `match` of one number is compiled into a table; one
// of both numbers would be no plainer, and a chain of jumps.
#[tactic(auto, unfolding(ji::specs::Unicode::unicode16, ji::specs::Unicode::mappings16, ji::specs::Unicode::classes16, ji::specs::Unicode::exclusions16, ji::specs::Unicode::same, ji::specs::Unicode::listed, ji::specs::Unicode::mapping_in, ji::specs::Unicode::class_in, ji::specs::Unicode::decomposition, ji::specs::Unicode::combining_class, ji::specs::Unicode::is_composite, ji::specs::Unicode::composite_in, ji::specs::Unicode::composite))]
fn grave(x: u16) -> Joined
    ensures { JoinedAs x 0x0300 result }
{
    match x {
        CAPITAL_A => Joined::Composite(0xC0), // À
        CAPITAL_E => Joined::Composite(0xC8), // È
        CAPITAL_I => Joined::Composite(0xCC), // Ì
        CAPITAL_M => Joined::Apart,
        CAPITAL_N => Joined::Composite(0x1F8), // Ǹ
        CAPITAL_O => Joined::Composite(0xD2), // Ò
        CAPITAL_U => Joined::Composite(0xD9), // Ù
        A => Joined::Composite(0xE0), // à
        E => Joined::Composite(0xE8), // è
        I => Joined::Composite(0xEC), // ì
        M => Joined::Apart,
        N => Joined::Composite(0x1F9), // ǹ
        O => Joined::Composite(0xF2), // ò
        U => Joined::Composite(0xF9), // ù
        _ => Joined::Unknown,
    }
}

#[tactic(auto, unfolding(ji::specs::Unicode::unicode16, ji::specs::Unicode::mappings16, ji::specs::Unicode::classes16, ji::specs::Unicode::exclusions16, ji::specs::Unicode::same, ji::specs::Unicode::listed, ji::specs::Unicode::mapping_in, ji::specs::Unicode::class_in, ji::specs::Unicode::decomposition, ji::specs::Unicode::combining_class, ji::specs::Unicode::is_composite, ji::specs::Unicode::composite_in, ji::specs::Unicode::composite))]
fn acute(x: u16) -> Joined
    ensures { JoinedAs x 0x0301 result }
{
    match x {
        CAPITAL_A => Joined::Composite(0xC1), // Á
        CAPITAL_E => Joined::Composite(0xC9), // É
        CAPITAL_I => Joined::Composite(0xCD), // Í
        CAPITAL_N => Joined::Composite(0x143), // Ń
        CAPITAL_O => Joined::Composite(0xD3), // Ó
        CAPITAL_U => Joined::Composite(0xDA), // Ú
        A => Joined::Composite(0xE1), // á
        E => Joined::Composite(0xE9), // é
        I => Joined::Composite(0xED), // í
        N => Joined::Composite(0x144), // ń
        O => Joined::Composite(0xF3), // ó
        U => Joined::Composite(0xFA), // ú
        _ => Joined::Unknown,
    }
}

#[tactic(auto, unfolding(ji::specs::Unicode::unicode16, ji::specs::Unicode::mappings16, ji::specs::Unicode::classes16, ji::specs::Unicode::exclusions16, ji::specs::Unicode::same, ji::specs::Unicode::listed, ji::specs::Unicode::mapping_in, ji::specs::Unicode::class_in, ji::specs::Unicode::decomposition, ji::specs::Unicode::combining_class, ji::specs::Unicode::is_composite, ji::specs::Unicode::composite_in, ji::specs::Unicode::composite))]
fn circumflex(x: u16) -> Joined
    ensures { JoinedAs x 0x0302 result }
{
    match x {
        CAPITAL_A => Joined::Composite(0xC2), // Â
        CAPITAL_E => Joined::Composite(0xCA), // Ê
        CAPITAL_I => Joined::Composite(0xCE), // Î
        CAPITAL_M => Joined::Apart,
        CAPITAL_N => Joined::Apart,
        CAPITAL_O => Joined::Composite(0xD4), // Ô
        CAPITAL_U => Joined::Composite(0xDB), // Û
        A => Joined::Composite(0xE2), // â
        E => Joined::Composite(0xEA), // ê
        I => Joined::Composite(0xEE), // î
        M => Joined::Apart,
        N => Joined::Apart,
        O => Joined::Composite(0xF4), // ô
        U => Joined::Composite(0xFB), // û
        _ => Joined::Unknown,
    }
}

#[tactic(auto, unfolding(ji::specs::Unicode::unicode16, ji::specs::Unicode::mappings16, ji::specs::Unicode::classes16, ji::specs::Unicode::exclusions16, ji::specs::Unicode::same, ji::specs::Unicode::listed, ji::specs::Unicode::mapping_in, ji::specs::Unicode::class_in, ji::specs::Unicode::decomposition, ji::specs::Unicode::combining_class, ji::specs::Unicode::is_composite, ji::specs::Unicode::composite_in, ji::specs::Unicode::composite))]
fn tilde(x: u16) -> Joined
    ensures { JoinedAs x 0x0303 result }
{
    match x {
        CAPITAL_A => Joined::Composite(0xC3), // Ã
        CAPITAL_I => Joined::Composite(0x128), // Ĩ
        CAPITAL_M => Joined::Apart,
        CAPITAL_N => Joined::Composite(0xD1), // Ñ
        CAPITAL_O => Joined::Composite(0xD5), // Õ
        CAPITAL_U => Joined::Composite(0x168), // Ũ
        A => Joined::Composite(0xE3), // ã
        I => Joined::Composite(0x129), // ĩ
        M => Joined::Apart,
        N => Joined::Composite(0xF1), // ñ
        O => Joined::Composite(0xF5), // õ
        U => Joined::Composite(0x169), // ũ
        _ => Joined::Unknown,
    }
}

#[tactic(auto, unfolding(ji::specs::Unicode::unicode16, ji::specs::Unicode::mappings16, ji::specs::Unicode::classes16, ji::specs::Unicode::exclusions16, ji::specs::Unicode::same, ji::specs::Unicode::listed, ji::specs::Unicode::mapping_in, ji::specs::Unicode::class_in, ji::specs::Unicode::decomposition, ji::specs::Unicode::combining_class, ji::specs::Unicode::is_composite, ji::specs::Unicode::composite_in, ji::specs::Unicode::composite))]
fn macron(x: u16) -> Joined
    ensures { JoinedAs x 0x0304 result }
{
    match x {
        CAPITAL_A => Joined::Composite(0x100), // Ā
        CAPITAL_E => Joined::Composite(0x112), // Ē
        CAPITAL_I => Joined::Composite(0x12A), // Ī
        CAPITAL_M => Joined::Apart,
        CAPITAL_N => Joined::Apart,
        CAPITAL_O => Joined::Composite(0x14C), // Ō
        CAPITAL_U => Joined::Composite(0x16A), // Ū
        A => Joined::Composite(0x101), // ā
        E => Joined::Composite(0x113), // ē
        I => Joined::Composite(0x12B), // ī
        M => Joined::Apart,
        N => Joined::Apart,
        O => Joined::Composite(0x14D), // ō
        U => Joined::Composite(0x16B), // ū
        _ => Joined::Unknown,
    }
}

#[tactic(auto, unfolding(ji::specs::Unicode::unicode16, ji::specs::Unicode::mappings16, ji::specs::Unicode::classes16, ji::specs::Unicode::exclusions16, ji::specs::Unicode::same, ji::specs::Unicode::listed, ji::specs::Unicode::mapping_in, ji::specs::Unicode::class_in, ji::specs::Unicode::decomposition, ji::specs::Unicode::combining_class, ji::specs::Unicode::is_composite, ji::specs::Unicode::composite_in, ji::specs::Unicode::composite))]
fn breve(x: u16) -> Joined
    ensures { JoinedAs x 0x0306 result }
{
    match x {
        CAPITAL_A => Joined::Composite(0x102), // Ă
        CAPITAL_E => Joined::Composite(0x114), // Ĕ
        CAPITAL_I => Joined::Composite(0x12C), // Ĭ
        CAPITAL_M => Joined::Apart,
        CAPITAL_N => Joined::Apart,
        CAPITAL_O => Joined::Composite(0x14E), // Ŏ
        CAPITAL_U => Joined::Composite(0x16C), // Ŭ
        A => Joined::Composite(0x103), // ă
        E => Joined::Composite(0x115), // ĕ
        I => Joined::Composite(0x12D), // ĭ
        M => Joined::Apart,
        N => Joined::Apart,
        O => Joined::Composite(0x14F), // ŏ
        U => Joined::Composite(0x16D), // ŭ
        _ => Joined::Unknown,
    }
}

// With 030D no letter has a composite.
fn line(x: u16) -> Joined
    ensures { JoinedAs x 0x030D result }
{
    if x < 0x80 {
        Joined::Apart
    } else {
        Joined::Unknown
    }
}

// The same for any tone mark.
pub(crate) fn join(x: u16, mark: u16) -> Joined
    ensures { JoinedAs x mark result }
{
    match mark {
        0x0300 => grave(x),
        0x0301 => acute(x),
        0x0302 => circumflex(x),
        0x0303 => tilde(x),
        0x0304 => macron(x),
        0x0306 => breve(x),
        0x030D => line(x),
        _ => Joined::Unknown,
    }
}

// Whether U+0324 makes no composite with `x`.
#[tactic(auto, unfolding(ji::specs::Unicode::listed))]
fn is_o(x: u16) -> bool
    ensures { result ≡ listed (points_of "oO") x }
{
    matches!(x, CAPITAL_O | O)
}

// Whether `x` stays as it is behind `before`.
#[tactic(auto, unfolding(ji::specs::Unicode::listed))]
fn stays_behind(before: u16, x: u16) -> bool
    ensures { result ≡ true → stays_behind before x ≡ true }
{
    match x {
        0..0xC0 => true,
        DOTS => is_o(before),
        DOT | CAPITAL_SIGN | SMALL_SIGN => true,
        _ => false,
    }
}

// Whether `s` needs no normalising, nor will with a tone mark behind one of its letters.
// `windows(2)` would leave out the first code point, which has none before it.
#[tactic(auto, unfolding(crate::specs::Compose::settled_from))]
fn is_settled(s: &[u16]) -> bool
    ensures { result ≡ true → settled_from 0 s.now ≡ true }
{
    let mut before: u16 = 0;
    for &x in s {
        if !stays_behind(before, x) {
            return false;
        }
        before = x;
    }
    true
}

// Puts `mark` behind the first `k` code points of `s`, in place: what follows moves up by one, over the last. A loop, since
// `rotate_right` calls memmove, which a C program would have to supply too.
pub(crate) fn insert_mark(s: &mut [u16], k: usize, mark: u16)
    requires { k < length s.old }
    ensures { s.new ≡ inserted k mark s.old }
{
    for i in (k + 1..s.len()).rev() {
        s[i] = s[i - 1];
    }
    s[k] = mark;
}

// Writes `s` in compose's encoding to `out`: its NFC, with each U+0324 U+030D exchanged.
#[tactic(auto, unfolding(crate::specs::Syllable::encoded))]
fn place_encoded(s: &[u16], out: &mut [u8]) -> Result<ByteLen, Refusal>
    requires { length s.now ≤ 803 }
    ensures { text_reply result out.new ≡ placed 0 (encode (encoded unicode16 s.now)) out.old }
{
    place_exchanged(s, DOTS, 0x030D, out)
}

// Writes `s` in compose's encoding, without a mark.
pub(crate) fn place_unmarked(s: &[u16], out: &mut [u8]) -> Result<ByteLen, Refusal>
    requires { length s.now ≤ 803 }
    ensures { text_reply result out.new ≡ placed 0 (encode (encoded unicode16 s.now)) out.old }
{
    if is_settled(s) {
        reply::place(s, out)
    } else {
        place_encoded(s, out)
    }
}

// What `join` says of the letter at `k` and the mark where the text is settled.
fn joined_at(s: &[u16], k: usize, mark: u16) -> Joined
    requires { k < length s.now }
    ensures { JoinedIn s.now k mark result }
{
    if is_settled(s) {
        join(s[k], mark)
    } else {
        Joined::Unknown
    }
}

// Writes the first `n` code points of `s` with `mark` behind the letter at `k`.
pub(crate) fn place_marked(
    s: &mut [u16],
    n: usize,
    k: usize,
    mark: u16,
    out: &mut [u8],
) -> Result<ByteLen, Refusal>
    requires { (k < n) × (n < length s.old) × (n ≤ 802) }
    ensures { text_reply result out.new ≡ placed 0 (encode (encoded unicode16 (take (k + 1) (take n s.old) ++ (mark ∷ drop (k + 1) (take n s.old))))) out.old }
{
    let joined = joined_at(&s[..n], k, mark);
    if let Joined::Composite(c) = joined {
        s[k] = c;
        return reply::place(&s[..n], out);
    }
    insert_mark(&mut s[..n + 1], k + 1, mark);
    if mark == 0x030D && joined == Joined::Apart {
        return reply::place(&s[..n + 1], out);
    }
    place_encoded(&s[..n + 1], out)
}
