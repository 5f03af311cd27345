// The telex step: `convert_to_telex`, its text only.
ghost use Rattle.std.specs.Prelude.{◌≡◌, true, not, ◌||◌, List, [], ◌∷◌, ◌++◌, ℕ, ◌+◌, ◌-◌, ◌*◌, ◌/◌, ◌≤◌, ◌<◌, length, take};
ghost use Rattle.ji.specs.Unicode.{unicode16, listed};
ghost use Rattle.ji.specs.Text.{points as points_of, within, all_ascii};
ghost use Rattle.ji.specs.Utf8.{decode, encode, last_start};
ghost use Rattle.ji.specs.Reply.{placed, text_call, text_reply, good, check_points};
ghost use Rattle.ji.specs.Lomaji.ToneLetter.{tone_letter, is_some};
ghost use Rattle.khiin.specs.Syllable.{compose};
ghost use Rattle.khiin.specs.Converter.{keys_in, key_to_tone, tone_to_key, is_setting, settings_fit, shared_or, ends_in_stop, repeats_tone, e_like, grown, is_first, telex_call};
ghost use Rattle.khiin.specs.Telex.{edit_by, edit_at, edit_of, composed_of, edited, step_of, RestIn};

use crate::syllable::compose::Composer;
use crate::syllable::letters::{
    CAPITAL_E, CAPITAL_SIGN, DOT, DOTS, E, H, K, N, O, P, SMALL_SIGN, T, U,
};
use ji::lomaji::khin::Khin;
use ji::lomaji::strip;
use ji::lomaji::tone_letter::holds_letter;
use ji::reply::Refusal;
use ji::text::{lower, lower_byte};
use ji::tone::Tone;
use ji::unicode::ByteLen;
use ji::{reply, unicode};

// How tone keys are chosen. It stands beside the tone keys, since C passes these in either mode, and they are checked in both.
#[derive(Clone, Copy, PartialEq, Eq)]
pub enum ToneMode {
    Numeric,
    Telex,
}

// The tone keys of a setting, in fields and no array: each is public, and named as the definitions name it.
#[derive(Clone, Copy)]
pub struct ToneKeys {
    pub t2: u8,
    pub t3: u8,
    pub t5: u8,
    pub t6: u8,
    pub t7: u8,
    pub t8: u8,
    pub t9: u8,
}

// What a key does to a text: it goes behind the stripped text, or takes the place of its last code point, or takes with an e before it the place
// of the last two; or the text is composed anew.
#[derive(Clone, Copy, PartialEq, Eq)]
enum Edit {
    Behind,
    Last,
    LastTwo,
    Compose,
}

// u with the two dots of o+0324 as one code point, small and capital.
const SMALL_U_DOTS: u16 = 0x1E73;

const CAPITAL_U_DOTS: u16 = 0x1E72;

// Whether `key` is one that may be typed.
fn is_key(key: u8) -> bool
    ensures { result ≡ within 0x20 0x7E key }
{
    key == b' ' || key.is_ascii_graphic()
}

// Whether a tone key may be set to `x`.
fn is_setting(x: u8) -> bool
    ensures { result ≡ is_setting x }
{
    x.is_ascii_graphic()
}

// Whether every tone key may be set as it is. The fields are no array, and the definition has a clause for each.
#[tactic(auto, unfolding(crate::specs::Converter::settings_fit))]
fn settings_fit(k: ToneKeys) -> bool
    ensures { result ≡ settings_fit k }
{
    is_setting(k.t2)
        && is_setting(k.t3)
        && is_setting(k.t5)
        && is_setting(k.t6)
        && is_setting(k.t7)
        && is_setting(k.t8)
        && is_setting(k.t9)
}

// The tone keys: those that are set, or the digits.
fn keys_in(mode: ToneMode, k: ToneKeys) -> ToneKeys
    ensures { result ≡ keys_in mode k }
{
    match mode {
        ToneMode::Numeric => ToneKeys {
            t2: b'2',
            t3: b'3',
            t5: b'5',
            t6: b'6',
            t7: b'7',
            t8: b'8',
            t9: b'9',
        },
        ToneMode::Telex => k,
    }
}

// The tone of a key, None of any other. The keys are no constants, which a `match` would need.
#[tactic(auto, unfolding(crate::specs::Converter::key_to_tone))]
fn key_to_tone(k: ToneKeys, key: u8) -> Tone
    ensures { result ≡ key_to_tone k key }
{
    if k.t2 == key {
        return Tone::T2;
    }
    if k.t3 == key {
        return Tone::T3;
    }
    if k.t5 == key {
        return Tone::T5;
    }
    if k.t6 == key {
        return Tone::T6;
    }
    if k.t7 == key {
        return Tone::T7;
    }
    if k.t9 == key {
        return Tone::T9;
    }
    if k.t8 == key {
        return Tone::T8;
    }
    Tone::None
}

// The key of a tone, and a space where it has none, as the definition says it, and no Option.
fn tone_to_key(k: ToneKeys, tone: Tone) -> u8
    ensures { result ≡ tone_to_key k tone }
{
    match tone {
        Tone::None | Tone::T1 | Tone::T4 => b' ',
        Tone::T2 => k.t2,
        Tone::T3 => k.t3,
        Tone::T5 => k.t5,
        Tone::T6 => k.t6,
        Tone::T7 => k.t7,
        Tone::T8 => k.t8,
        Tone::T9 => k.t9,
    }
}

// e, in the case of the key.
#[tactic(auto, unfolding(ji::specs::Text::lower))]
fn e_like(key: u8) -> u8
    ensures { result ≡ e_like key }
{
    if lower_byte(key) == key { b'e' } else { b'E' }
}

// Whether the letter `x`, in lower case, is a stop.
#[tactic(auto, unfolding(ji::specs::Unicode::listed))]
fn is_stop(x: u16) -> bool
    ensures { result ≡ listed (points_of "ptkh") x }
{
    matches!(x, P | T | K | H)
}

// Whether `body` ends in a stop, whatever stands behind it of ⁿ, ᴺ and nn. `stop` says so of what is passed, and `single` that an n stands
// behind it which another n would make a sign.
fn ends_in_stop(body: &[u16]) -> bool
    ensures { result ≡ ends_in_stop body.now }
{
    let mut stop = false;
    let mut single = false;
    for &x in body {
        match lower(x) {
            SMALL_SIGN | CAPITAL_SIGN => {}
            N => single = !single,
            low => {
                single = false;
                stop = is_stop(low);
            }
        }
    }
    stop && !single
}

// The tone of a body whose tone has this key: the key of tone 8 may be shared with another tone, and is tone 8's behind a stop.
#[tactic(auto, unfolding(crate::specs::Converter::shared_or, crate::specs::Converter::shared_tone))]
fn shared_or(k: ToneKeys, key: u8, tone: Tone, body: &[u16]) -> Tone
    ensures { result ≡ shared_or k key tone body.now }
{
    if key != k.t8 {
        tone
    } else if ends_in_stop(body) {
        Tone::T8
    } else {
        key_to_tone(k, key)
    }
}

// Which branch a text takes, by its end: the last code point, and the last but one in lower case, as the key is.
#[tactic(auto, unfolding(crate::specs::Telex::edit_by))]
fn edit_by(low: u8, before: u16, end: u16) -> Edit
    ensures { result ≡ edit_by low before end }
{
    match (low, before, end) {
        (b'n', _, SMALL_SIGN | CAPITAL_SIGN) => Edit::Last,
        (b'u', O, DOT) => Edit::Last,
        (b'o', O, DOT) => Edit::Last,
        (b'u', _, SMALL_U_DOTS | CAPITAL_U_DOTS) => Edit::LastTwo,
        (b'o', O, DOTS) => Edit::LastTwo,
        _ => Edit::Compose,
    }
}

// Which branch the text takes whose bytes `text` are, unless the key repeats its tone. Its last two code points tell.
fn edit_at(key: u8, text: &[u8]) -> Edit
    ensures { (given : List ℕ) → check_points unicode16 (decode text.now) ≡ good given → result ≡ edit_at key given }
{
    let start = unicode::last_start(text);
    let before = unicode::last_point(&text[..start.0]);
    edit_by(lower_byte(key), lower(before), unicode::last_point(text))
}

// Writes the first `at` bytes of `bytes`, and the key behind them. Here and below a slice is the room, and a number how much of it is the text, since a text
// grows by a key or a mark into the room behind it.
fn place_key(bytes: &mut [u8], at: usize, key: u8, out: &mut [u8]) -> Result<ByteLen, Refusal>
    requires { at < length bytes.old }
    ensures { text_reply result out.new ≡ placed 0 (take at bytes.old ++ (key ∷ [])) out.old }
{
    bytes[at] = key;
    reply::place_bytes(&bytes[..at + 1], out)
}

// How many bytes the first `n` of `bytes` have without their last code point.
fn without_last(bytes: &[u8], n: usize) -> usize
    requires { n ≤ length bytes.now }
    ensures { (result ≡ last_start (take n bytes.now)) × (result ≤ n) }
{
    unicode::last_start(&bytes[..n]).0
}

// Whether a text of this tone is one that a tone key gives a tone: it has one other than the first, or a tone letter.
fn takes_tone(tone: Tone, rest: &[u16]) -> bool
    ensures { result ≡ (not (is_first tone) || is_some (tone_letter rest.now)) }
{
    tone != Tone::T1 || holds_letter(rest)
}

// What a key makes of the body: how many code points it has, and its tone.
#[derive(Clone, Copy)]
struct Body {
    len: usize,
    tone: Tone,
}

// How many code points a body of `n` has if the key joins it. A space joins none.
fn grown_len(key: u8, n: usize) -> usize
    requires { n < 400 }
    ensures { (key ≡ 0x20 → result ≡ n) × ((key ≡ 0x20 → ⊥) → result ≡ n + 1) × (result ≤ n + 1) }
{
    if key == b' ' { n } else { n + 1 }
}

// A key, which is ASCII, that is typed behind a text of this tone, and the tone keys.
#[derive(Clone, Copy)]
struct Step {
    keys: ToneKeys,
    key: u8,
    tone: Tone,
    ghost ascii: { key ≤ 0x7F },
}

impl Step {
    // Whether the key of the text's tone is typed again.
    #[tactic(auto, unfolding(crate::specs::Converter::repeats_tone))]
    fn repeats_tone(self) -> bool
        ensures { result ≡ repeats_tone self.keys self.key self.tone }
    {
        let before = tone_to_key(self.keys, self.tone);
        before != b' ' && before == lower_byte(self.key)
    }

    // Which branch a text of this tone takes. It is read only for the keys that open one.
    #[tactic(auto, unfolding(crate::specs::Telex::edit_of, ji::specs::Utf8::decode))]
    fn edit_of(self, text: &[u8]) -> Edit
        ensures { (given : List ℕ) → check_points unicode16 (decode text.now) ≡ good given → result ≡ edit_of self.keys self.key self.tone given }
    {
        if self.repeats_tone() {
            return Edit::Behind;
        }
        match lower_byte(self.key) {
            b'n' | b'o' | b'u' => edit_at(self.key, text),
            _ => Edit::Compose,
        }
    }

    // The body and the tone when a key is typed behind the stripped text, with which `whole` begins; `len` is its length if the key joins it.
    // Two slices would be no plainer: both are parts of one text, and `whole` says so.
    #[tactic(auto, unfolding(crate::specs::Telex::composed_of, crate::specs::Syllable::compose))]
    fn typed(self, whole: &[u16], n: usize, len: usize) -> Body
        requires { (n ≤ length whole.now) × (len ≤ length whole.now) }
        ensures { (result.len ≤ length whole.now) × (grown self.key (take n whole.now) ≡ take len whole.now → composed_of unicode16 self.keys self.key self.tone (take n whole.now) ≡ compose unicode16 (take n whole.now ++ (self.key ∷ [])) (take result.len whole.now) result.tone Khin.No) }
    {
        if !takes_tone(self.tone, &whole[..n]) {
            return Body {
                len,
                tone: Tone::None,
            };
        }
        let low = lower_byte(self.key);
        let named = key_to_tone(self.keys, low);
        if named.is_tone() {
            Body {
                len: n,
                tone: shared_or(self.keys, low, named, &whole[..n]),
            }
        } else {
            Body {
                len,
                tone: shared_or(
                    self.keys,
                    tone_to_key(self.keys, self.tone),
                    self.tone,
                    &whole[..len],
                ),
            }
        }
    }

    // Composes the stripped text anew, which stands in the first `n` places of `points`. `raw` are the bytes of it and the key.
    fn compose_step(
        self,
        raw: &[u8],
        points: &mut [u16],
        n: usize,
        out: &mut [u8],
    ) -> Result<ByteLen, Refusal>
        requires { (n < 400) × (n + 2 < length points.old) × (raw.now ≡ encode (take n points.old ++ (self.key ∷ []))) }
        ensures { text_reply result out.new ≡ placed 0 (encode (composed_of unicode16 self.keys self.key self.tone (take n points.old))) out.old }
    {
        points[n] = u16::from(self.key);
        let body = self.typed(&points[..n + 1], n, grown_len(self.key, n));
        let composer = Composer {
            raw,
            tone: body.tone,
            khin: Khin::No,
        };
        if let Some(answer) = composer.compose_plain(&raw[..body.len], out) {
            return answer;
        }
        composer.compose_points(points, body.len, out)
    }

    // Reads the stripped text, the first `n` of `bytes`, into `points`, and composes it anew.
    fn compose_in(
        self,
        bytes: &mut [u8],
        n: usize,
        points: &mut [u16],
        out: &mut [u8],
    ) -> Result<ByteLen, Refusal>
        requires { (n < length bytes.old) × (n ≤ length points.old) × (n + 2 < length points.old) × RestIn bytes.old n }
        ensures { (h : RestIn bytes.old n) → text_reply result out.new ≡ placed 0 (encode (composed_of unicode16 self.keys self.key self.tone h.rest)) out.old }
    {
        let count = unicode::code_points(&bytes[..n], points)?;
        bytes[n] = self.key;
        self.compose_step(&bytes[..n + 1], points, count.0, out)
    }

    // Writes what a branch makes of the stripped text, the first `n` of `bytes`. A match: the definition names Edit, and a closure for
    // each branch would hide which it is. Written into its caller, where the branch of an ASCII text is known.
    #[inline(always)]
    #[tactic(auto, unfolding(ji::specs::Utf8::encode, ji::specs::Text::but_last, ji::specs::Text::lower, crate::specs::Telex::composed_of, crate::specs::Converter::step))]
    fn finish(
        self,
        edit: Edit,
        bytes: &mut [u8],
        n: usize,
        points: &mut [u16],
        out: &mut [u8],
    ) -> Result<ByteLen, Refusal>
        requires { (n + 1 < length bytes.old) × (n ≤ length points.old) × (n + 2 < length points.old) × RestIn bytes.old n }
        ensures { (h : RestIn bytes.old n) → text_reply result out.new ≡ placed 0 (encode (edited unicode16 self.keys edit self.key self.tone h.rest)) out.old }
    {
        match edit {
            Edit::Behind => place_key(bytes, n, self.key, out),
            Edit::Last => {
                let at = without_last(bytes, n);
                place_key(bytes, at, self.key, out)
            }
            Edit::LastTwo => {
                let at = without_last(bytes, without_last(bytes, n));
                bytes[at] = e_like(self.key);
                place_key(bytes, at + 1, self.key, out)
            }
            Edit::Compose => self.compose_in(bytes, n, points, out),
        }
    }
}

// Copies `text` to the front of `bytes`, as far as it is ASCII, and says whether all of it is. It goes byte by byte, which is one walk: a look at all of a text
// and a copy would be two, and `copy_from_slice` calls memmove. The function of this name in khiin_records is another crate's.
fn copy_ascii(text: &[u8], bytes: &mut [u8]) -> bool
    requires { length text.now ≤ length bytes.old }
    ensures { result ≡ true → (all_ascii text.now ≡ true) × (take (length text.now) bytes.new ≡ text.now) }
{
    for (i, &b) in text.iter().enumerate() {
        if !b.is_ascii() {
            return false;
        }
        bytes[i] = b;
    }
    true
}

// The step in a buffer of bytes for the stripped text and one of code points. An ASCII text is its own stripped text, has no mark, and takes none of
// the branches before the last.
fn step_in(
    k: ToneKeys,
    key: u8,
    text: &[u8],
    bytes: &mut [u8],
    points: &mut [u16],
    out: &mut [u8],
) -> Result<ByteLen, Refusal>
    requires { (key ≤ 0x7F) × (length text.now ≤ 256) × (5 * length text.now + 6 ≤ 2 * length bytes.old) × (length bytes.old ≤ length points.old) }
    ensures { text_reply result out.new ≡ text_call unicode16 (step_of unicode16 k key) text.now out.old }
{
    if copy_ascii(text, bytes) {
        let tone = strip::unmarked_tone(text);
        let step = Step { keys: k, key, tone };
        return step.finish(Edit::Compose, bytes, text.len(), points, out);
    }
    let stripped = strip::strip_tone_diacritic(text, bytes)?;
    let step = Step {
        keys: k,
        key,
        tone: stripped.tone,
    };
    let edit = step.edit_of(text);
    step.finish(edit, bytes, stripped.len.0, points, out)
}

// The same in buffers of `N` places: clearing small ones is quicker. A stripped text has at most five bytes for each two of the text, and the key
// takes one more.
fn step_with<const N: usize>(
    k: ToneKeys,
    key: u8,
    text: &[u8],
    out: &mut [u8],
) -> Result<ByteLen, Refusal>
    requires { (key ≤ 0x7F) × (length text.now ≤ 256) × (5 * length text.now + 6 ≤ 2 * N) × (N ≤ 65536) }
    ensures { text_reply result out.new ≡ text_call unicode16 (step_of unicode16 k key) text.now out.old }
{
    let mut bytes = [0u8; N];
    let mut points = [0u16; N];
    step_in(k, key, text, &mut bytes, &mut points, out)
}

// The text that typing `key` makes of `text`, in `out`.
pub fn convert_to_telex(
    text: &[u8],
    key: u8,
    mode: ToneMode,
    keys: ToneKeys,
    out: &mut [u8],
) -> Result<ByteLen, Refusal>
    ensures { text_reply result out.new ≡ telex_call unicode16 mode keys key text.now out.old }
{
    if !is_key(key) || !settings_fit(keys) {
        return Err(Refusal::Argument);
    }
    let k = keys_in(mode, keys);
    match text.len() {
        0..=8 => step_with::<24>(k, key, text, out),
        9..=256 => step_with::<644>(k, key, text, out),
        _ => Err(Refusal::TooLong),
    }
}
