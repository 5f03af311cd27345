// The tone letter.
ghost use Rattle.std.specs.Prelude.{◌≡◌, [], ◌∷◌, ◌*◌, ◌/◌, ◌^◌, ◌<◌, ◌≤◌, ℕ, map, eqb, length, drop, get_or, MatchOption};
ghost use Rattle.ucd.specs.Table.{listed};
ghost use Rattle.ji.specs.Text.{points, lower};
ghost use Rattle.ucd.specs.Unicode16.{unicode16};
ghost use Rattle.ji.specs.Lomaji.ToneLetter.{patterns, matches, searched, tone_letter, occurrence_place_of, place_of, byte_place_of, is_some, letter_at, tone_letter_call, tone_letter_reply, has_tone_letter_call, has_tone_letter_reply};

use crate::reply::Refusal;
use crate::unicode::{ByteLen, CharLen};
use crate::{nfd, text, unicode};

// The letters of the patterns, as code points. They have names, since a pattern of a match takes no cast.
const A: u16 = b'a' as u16;

const E: u16 = b'e' as u16;

const G: u16 = b'g' as u16;

const H: u16 = b'h' as u16;

const I: u16 = b'i' as u16;

const K: u16 = b'k' as u16;

const M: u16 = b'm' as u16;

const N: u16 = b'n' as u16;

const O: u16 = b'o' as u16;

const P: u16 = b'p' as u16;

const T: u16 = b't' as u16;

const U: u16 = b'u' as u16;

// A letter of a text that is searched: a code point, or the byte of an ASCII text, which is the number of its code point. Such a text need not be
// read into code points for the search.
trait Letter: Copy {
    ghost number: { Self → ℕ };

    fn number(self) -> u16
        ensures { result ≡ number self };
}

impl Letter for u8 {
    ghost number = { λ x. x };

    fn number(self) -> u16 {
        u16::from(self)
    }
}

impl Letter for u16 {
    ghost number = { λ x. x };

    fn number(self) -> u16 {
        self
    }
}

// The patterns go by their numbers, in the order in which they are looked for: 0 is o, a or e, and a final; then o, a, e, u, i, ng, n and m. That
// the search is a labelled loop over patterns and positions is a rule of the project.
const PATTERNS: usize = 9;

// The letter that each pattern begins with.
const FIRST: [u16; PATTERNS] = [O, O, A, E, U, I, N, N, M];

// The number of the letter at `i` with its case ignored, and 0 past the end: no pattern has that, and an Option would be taken apart at each use.
#[tactic(auto, unfolding(crate::specs::Text::lower))]
fn letter_at<L: Letter>(s: &[L], i: usize) -> u16
    ensures { result ≡ lower (get_or (map L.number s.now) i 0) }
{
    match s.get(i) {
        Some(x) => text::lower(x.number()),
        None => 0,
    }
}

// The second letter of the first pattern, which is the tone letter.
#[tactic(auto, unfolding(crate::specs::Unicode::listed))]
fn is_a_or_e(x: u16) -> bool
    ensures { result ≡ listed (points "ae") x }
{
    matches!(x, A | E)
}

// The third letter of the first pattern.
#[tactic(auto, unfolding(crate::specs::Unicode::listed))]
fn is_final(x: u16) -> bool
    ensures { result ≡ listed (points "ptkhmni") x }
{
    matches!(x, P | T | K | H | M | N | I)
}

// Whether at `at` stands what follows the o of the first pattern. That a text is shorter than 2^63, which holds of every slice, is asked here and where it is
// called, for the place behind `at`.
fn follows_o<L: Letter>(s: &[L], at: usize) -> bool
    requires { (at ≤ length s.now) × (length s.now < 2 ^ 63) }
    ensures { result ≡ matches ("ae" ∷ "ptkhmni" ∷ []) (drop at (map L.number s.now)) }
{
    is_a_or_e(letter_at(s, at)) && is_final(letter_at(s, at + 1))
}

// Whether `x` is the small letter `small` with its case ignored. By two comparisons, since this is asked of every letter for each of nine patterns:
// `text::lower` tests a range first.
#[tactic(auto, unfolding(crate::specs::Text::lower))]
fn is_letter(x: u16, small: u16) -> bool
    requires { (0x61 ≤ small) × (small ≤ 0x7A) }
    ensures { result ≡ eqb (lower x) small }
{
    x == small || x == small - 32
}

// Whether pattern `k` stands at `at`. Its first letter decides for nearly every place, so no other is read before that one fits.
fn stands_at<L: Letter>(s: &[L], at: usize, k: usize) -> bool
    requires { (k < 9) × (at < length s.now) × (length s.now < 2 ^ 63) }
    ensures { result ≡ matches (get_or patterns k ([], 0)).0 (drop at (map L.number s.now)) }
{
    is_letter(s[at].number(), FIRST[k])
        && match k {
            0 => follows_o(s, at + 1),
            6 => letter_at(s, at + 1) == G,
            _ => true,
        }
}

// Which letter of pattern `k` is the tone letter: the second of the first pattern, the first of every other.
fn letter_of(k: usize) -> usize
    requires { k < 9 }
    ensures { (result ≡ (get_or patterns k ([], 0)).1) × (result ≤ 1) }
{
    if k == 0 { 1 } else { 0 }
}

// The first pattern to look for: the first two begin with o, which many texts do not have.
fn first_tried<L: Letter>(s: &[L]) -> usize
    ensures { (result ≤ 9) × (tone_letter (map L.number s.now) ≡ searched (drop result patterns) (map L.number s.now)) }
{
    if s.iter().any(|x| is_letter(x.number(), O)) {
        0
    } else {
        2
    }
}

// The first pattern that occurs, and its first place. Finding it ends the search over both.
fn search<L: Letter>(s: &[L]) -> Option<(usize, usize)>
    requires { length s.now < 2 ^ 63 }
    ensures inside { MatchOption result (Unit {0}) (λ p. (p.0 < 9) × (p.1 < length s.now)) }
    ensures found { occurrence_place_of result ≡ tone_letter (map L.number s.now) }
{
    let mut occurrence = None;
    'patterns: for k in first_tried(s)..PATTERNS {
        for at in 0..s.len() {
            if stands_at(s, at, k) {
                occurrence = Some((k, at));
                break 'patterns;
            }
        }
    }
    occurrence
}

// The place of the tone letter: in the first pattern that occurs, at its first place.
pub fn tone_position(s: &[u16]) -> Option<CharLen>
    ensures { place_of result ≡ tone_letter s.now }
{
    let (k, at) = search(s)?;
    Some(CharLen(at + letter_of(k)))
}

// The place of the tone letter of an ASCII text. It is no case of `tone_position`, since CharLen and ByteLen are two types by a rule of the project.
pub fn ascii_tone_position(s: &[u8]) -> Option<ByteLen>
    ensures { byte_place_of result ≡ tone_letter s.now }
{
    let (k, at) = search(s)?;
    Some(ByteLen(at + letter_of(k)))
}

// The letters that are a pattern by themselves.
#[tactic(auto, unfolding(crate::specs::Unicode::listed))]
fn is_single(x: u16) -> bool
    ensures { result ≡ listed (points "oaeuinm") x }
{
    matches!(x, O | A | E | U | I | N | M)
}

// Whether `s` has a tone letter: each pattern begins with a letter that is a pattern by itself, so that it does if it has one of these.
pub fn holds_letter(s: &[u16]) -> bool
    ensures { result ≡ is_some (tone_letter s.now) }
{
    s.iter().any(|&x| is_single(text::lower(x)))
}

// The tone letter of a text that was read: its place among the code points, turned into bytes.
fn letter_in(s: &[u16]) -> Result<Option<ByteLen>, Refusal>
    requires { length s.now ≤ 65536 }
    ensures { tone_letter_reply result ≡ letter_at s.now (tone_letter s.now) }
{
    Ok(tone_position(s).map(|chars| unicode::to_byte_len(s, chars)))
}

// The tone letter of a text, whose code points are read into a buffer of `SIZE`.
fn letter_with<const SIZE: usize>(text: &[u8]) -> Result<Option<ByteLen>, Refusal>
    requires { (length text.now ≤ 256) × (length text.now ≤ SIZE / 3 * 2) × (SIZE ≤ 65536) }
    ensures { tone_letter_reply result ≡ tone_letter_call unicode16 text.now }
{
    let mut points = [0u16; SIZE];
    let len = unicode::read_points(text, &mut points)?;
    letter_in(&points[..len.0])
}

// `get_tone_position`: the tone letter of `text` as it stands. Short texts go in a small buffer, since clearing it is quicker.
pub fn tone_letter(text: &[u8]) -> Result<Option<ByteLen>, Refusal>
    ensures { tone_letter_reply result ≡ tone_letter_call unicode16 text.now }
{
    match text.len() {
        0..=16 => letter_with::<24>(text),
        17..=256 => letter_with::<384>(text),
        _ => Err(Refusal::TooLong),
    }
}

// Whether the NFD of `text` has a tone letter.
pub fn has_tone_letter(text: &[u8]) -> Result<bool, Refusal>
    ensures { has_tone_letter_reply result ≡ has_tone_letter_call unicode16 text.now }
{
    let mut points = [0u16; 384];
    let len = nfd::read_nfd(text, &mut points)?;
    Ok(holds_letter(&points[..len.0]))
}
