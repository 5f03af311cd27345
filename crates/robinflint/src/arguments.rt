// The numbers that a caller passes, as the libraries have them. A call asks of all its numbers at once whether document 01 names them, since the refusal is
// one, and turns them then. A `TryFrom` would stand in ji and khiin, whose enums these are, and ask of each number by itself; these functions answer for
// every number, and are public.
ghost use Rattle.std.specs.Prelude.{◌≡◌};
ghost use Rattle.robinflint.specs.Arguments.{tone_of, khin_of, kind_of, mode_of, keys_of};

use ji::lomaji::keys::Kind;
use ji::lomaji::khin::Khin;
use ji::tone::Tone;
use khiin::converter::{ToneKeys, ToneMode};

// The tone of a number, None of any number above 9.
#[tactic(auto, unfolding(crate::specs::Arguments::tone_of))]
pub fn tone_of(number: u64) -> Tone
    ensures { result ≡ tone_of number }
{
    match number {
        1 => Tone::T1,
        2 => Tone::T2,
        3 => Tone::T3,
        4 => Tone::T4,
        5 => Tone::T5,
        6 => Tone::T6,
        7 => Tone::T7,
        8 => Tone::T8,
        9 => Tone::T9,
        _ => Tone::None,
    }
}

// 0 is no, any other number yes.
pub fn khin_of(number: u64) -> Khin
    ensures { result ≡ khin_of number }
{
    match number {
        0 => Khin::No,
        _ => Khin::Yes,
    }
}

// 0 is detoned, 1 numeric, any other number telex.
pub fn kind_of(number: u64) -> Kind
    ensures { result ≡ kind_of number }
{
    match number {
        0 => Kind::Detoned,
        1 => Kind::Numeric,
        _ => Kind::Telex,
    }
}

// 0 is numeric, any other number telex.
pub fn mode_of(number: u64) -> ToneMode
    ensures { result ≡ mode_of number }
{
    match number {
        0 => ToneMode::Numeric,
        _ => ToneMode::Telex,
    }
}

// The keys for t2 t3 t5 t6 t7 t8 t9.
pub fn keys_of(keys: &[u8; 7]) -> ToneKeys
    ensures { result ≡ keys_of keys.now }
{
    ToneKeys {
        t2: keys[0],
        t3: keys[1],
        t5: keys[2],
        t6: keys[3],
        t7: keys[4],
        t8: keys[5],
        t9: keys[6],
    }
}
