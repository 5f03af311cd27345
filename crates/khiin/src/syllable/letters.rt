// Letters and signs as code points, and the vowels of a body that a rule replaces.
ghost use Rattle.std.specs.Prelude.{◌≡◌};
ghost use Rattle.ji.specs.Unicode.{listed};
ghost use Rattle.ji.specs.Text.{points as points_of};

// The letters that the rules and the tables name, small and capital. ji has some of them for the tone letter: its stated meaning alone is used here, and no
// constant of it.
pub(crate) const CAPITAL_A: u16 = b'A' as u16;

pub(crate) const CAPITAL_E: u16 = b'E' as u16;

pub(crate) const CAPITAL_H: u16 = b'H' as u16;

pub(crate) const CAPITAL_I: u16 = b'I' as u16;

pub(crate) const CAPITAL_M: u16 = b'M' as u16;

pub(crate) const CAPITAL_N: u16 = b'N' as u16;

pub(crate) const CAPITAL_O: u16 = b'O' as u16;

pub(crate) const CAPITAL_U: u16 = b'U' as u16;

pub(crate) const A: u16 = b'a' as u16;

pub(crate) const E: u16 = b'e' as u16;

pub(crate) const H: u16 = b'h' as u16;

pub(crate) const I: u16 = b'i' as u16;

pub(crate) const K: u16 = b'k' as u16;

pub(crate) const M: u16 = b'm' as u16;

pub(crate) const N: u16 = b'n' as u16;

pub(crate) const O: u16 = b'o' as u16;

pub(crate) const P: u16 = b'p' as u16;

pub(crate) const T: u16 = b't' as u16;

pub(crate) const U: u16 = b'u' as u16;

// The signs of a nasal vowel, small and capital. No code point below the capital one, which is the lower of the two, is one.
pub(crate) const SMALL_SIGN: u16 = 0x207F;

pub(crate) const CAPITAL_SIGN: u16 = 0x1D3A;

// The dot of o+0358, and the two dots of o+0324.
pub(crate) const DOT: u16 = 0x0358;

pub(crate) const DOTS: u16 = 0x0324;

// The hyphen, of which khin has two.
pub(crate) const HYPHEN: u16 = b'-' as u16;

// The first letter of a pair of vowels that is replaced: o or e.
#[tactic(auto, unfolding(ji::specs::Unicode::listed))]
pub(crate) fn is_first(c: u16) -> bool
    ensures { result ≡ listed (points_of "oOeE") c }
{
    matches!(c, CAPITAL_E | CAPITAL_O | E | O)
}

// The second letter of such a pair: o or u.
#[tactic(auto, unfolding(ji::specs::Unicode::listed))]
pub(crate) fn is_second(c: u16) -> bool
    ensures { result ≡ listed (points_of "oOuU") c }
{
    matches!(c, CAPITAL_O | CAPITAL_U | O | U)
}
