// `compose`: the text of a syllable. The body is spelled by the rules, in place, the tone mark put to the tone letter, and the whole written in
// compose's encoding. Most bodies have one pair of vowels at most, and a sign at their end only: for these each rule is one look.
ghost use Rattle.std.specs.Prelude.{◌≡◌, true, false, ◌&&◌, List, [], ◌∷◌, ◌++◌, ℕ, ◌+◌, ◌-◌, ◌*◌, ◌/◌, ◌≤◌, ◌<◌, length, take, drop, get_or, MatchOption, IsSome};
ghost use Rattle.ji.specs.Unicode.{unicode16, listed};
ghost use Rattle.ji.specs.Text.{points as points_of, marked, begins, replace_all, all_ascii};
ghost use Rattle.ji.specs.Utf8.{encode};
ghost use Rattle.ji.specs.Written.{Written};
ghost use Rattle.ji.specs.Reply.{placed, text_reply, good, check_text};
ghost use Rattle.ji.specs.Lomaji.Keys.{respell};
ghost use Rattle.khiin.specs.Syllable.{vowel_rules, nasal_rules, o_rules, ends_nasal, nasalised, moved, spelled, khin_text, mark_of, composed_with, compose, compose_of, compose_call};
ghost use Rattle.khiin.specs.Compose.{Front, is_pair, apart_from, o_pairs, e_pairs, takes_dot, NoPairIn, NoNasalBefore, NoSignBefore, settled_body, SettledAs, DotAt, QuickAs};
ghost use Rattle.khiin.specs.RawInput.{RawOf, one_raw};

use crate::syllable::letters::{
    A, CAPITAL_E, CAPITAL_H, CAPITAL_N, CAPITAL_O, CAPITAL_SIGN, CAPITAL_U, DOT, DOTS, E, H,
    HYPHEN, I, K, M, N, O, P, SMALL_SIGN, T, U, is_first, is_second,
};
use crate::syllable::marking::{insert_mark, mark_of, place_marked, place_unmarked};
use crate::syllable::plain::{is_plain, place_joined};
use ji::lomaji::khin::Khin;
use ji::lomaji::tone_letter::{ascii_tone_position, tone_position};
use ji::reply::Refusal;
use ji::text::{lower, replace_pair};
use ji::tone::Tone;
use ji::unicode::ByteLen;
use ji::{reply, unicode};

// The code point at `i`, and 0 past the end, as the definition of a pair reads it; no rule has 0.
fn at(s: &[u16], i: usize) -> u16
    ensures { result ≡ get_or s.now i 0 }
{
    s.get(i).copied().unwrap_or(0)
}

// Whether a pair of vowels that is replaced stands at `i`.
#[tactic(auto, unfolding(crate::specs::Compose::is_pair))]
fn is_pair(s: &[u16], i: usize) -> bool
    requires { i < length s.now }
    ensures { result ≡ is_pair (drop i s.now) }
{
    is_first(s[i]) && is_second(at(s, i + 1))
}

// Where the first such pair stands from `from` on.
fn next_pair(s: &[u16], from: usize) -> Option<usize>
    requires { from ≤ length s.now }
    ensures { MatchOption result (NoPairIn from (length s.now) s.now) (λ k. (from ≤ k) × (k < length s.now) × (is_pair (drop k s.now) ≡ true) × NoPairIn from k s.now) }
{
    (from..s.len()).find(
        |&i|
            requires { i < length s.now }
        { is_pair(s, i) },
    )
}

// Whether the pair at `at`, the first, is the only one, and no o or e stands before it, which what becomes of it might be a pair with.
fn is_alone(s: &[u16], at: usize) -> bool
    requires { at < length s.now }
    ensures { result ≡ true → NoPairIn (at + 1) (length s.now) s.now × (0 < at → listed (points_of "oOeE") (get_or s.now (at - 1) 0) ≡ false) }
{
    next_pair(s, at + 1).is_none() && (at == 0 || !is_first(s[at - 1]))
}

// Replaces the pair at `at`: the vowel behind o gives way to U+0358; that behind e takes its place, with U+0324.
fn respell_one(s: &mut [u16], at: usize)
    requires { (at + 1 < length s.old) × (is_pair (drop at s.old) ≡ true) × NoPairIn 0 at s.old × NoPairIn (at + 1) (length s.old) s.old × (0 < at → listed (points_of "oOeE") (get_or s.old (at - 1) 0) ≡ false) }
    ensures { s.new ≡ respell vowel_rules s.old }
{
    match s[at] {
        CAPITAL_O | O => {
            s[at + 1] = DOT;
        }
        _ => {
            s[at] = s[at + 1];
            s[at + 1] = DOTS;
        }
    }
}

// Whether anywhere in `s` the second letter, small or capital, stands behind the first. Before the first code point stands 0, as the definition has it.
#[tactic(auto, unfolding(crate::specs::Compose::apart_from, ji::specs::Unicode::listed))]
fn has_letters(s: &[u16], first: u16, capital_first: u16, second: u16, capital_second: u16) -> bool
    ensures { result ≡ false → apart_from (first ∷ capital_first ∷ []) (second ∷ capital_second ∷ []) 0 s.now ≡ true }
{
    let mut before: u16 = 0;
    for &x in s {
        if (x == second || x == capital_second) && (before == first || before == capital_first) {
            return true;
        }
        before = x;
    }
    false
}

// The four vowel rules for o and the vowel behind it, which gives way to U+0358, in place: they keep the length. One look tells whether they have
// something to do: most bodies have pairs of one group of rules at most, and with the sixteen passes of all groups these would take up to half as long again.
#[tactic(auto, using(crate::proofs::syllable::compose::Pairs::o_apart))]
fn respell_o(s: &mut [u16], small: u16, capital: u16)
    ensures { s.new ≡ respell (o_pairs small capital) s.old }
{
    if has_letters(s, O, CAPITAL_O, small, capital) {
        replace_pair(s, O, small, O, DOT);
        replace_pair(s, O, capital, O, DOT);
        replace_pair(s, CAPITAL_O, small, CAPITAL_O, DOT);
        replace_pair(s, CAPITAL_O, capital, CAPITAL_O, DOT);
    }
}

// The same for e and the vowel behind it, which comes first, with U+0324.
#[tactic(auto, using(crate::proofs::syllable::compose::Pairs::e_apart))]
fn respell_e(s: &mut [u16], small: u16, capital: u16)
    ensures { s.new ≡ respell (e_pairs small capital) s.old }
{
    if has_letters(s, E, CAPITAL_E, small, capital) {
        replace_pair(s, E, small, small, DOTS);
        replace_pair(s, CAPITAL_E, small, small, DOTS);
        replace_pair(s, E, capital, capital, DOTS);
        replace_pair(s, CAPITAL_E, capital, capital, DOTS);
    }
}

// The sixteen vowel rules, in their order, which matters: what one writes may be part of a pair of a later one.
fn respell_each(s: &mut [u16])
    ensures { s.new ≡ respell vowel_rules s.old }
{
    respell_o(s, U, CAPITAL_U);
    respell_o(s, O, CAPITAL_O);
    respell_e(s, O, CAPITAL_O);
    respell_e(s, U, CAPITAL_U);
}

// The same, where one of them has something to do.
fn respell_vowels(s: &mut [u16])
    ensures { s.new ≡ respell vowel_rules s.old }
{
    if let Some(at) = next_pair(s, 0) {
        if is_alone(s, at) {
            respell_one(s, at);
        } else {
            respell_each(s);
        }
    }
}

// The letters that nn may follow at the end of a text, in lower case.
#[tactic(auto, unfolding(ji::specs::Unicode::listed))]
fn takes_nasal(c: u16) -> bool
    ensures { result ≡ listed (marked "aeiouptkhm" 0x0358) c }
{
    matches!(c, A | E | H | I | K | M | O | P | T | U | DOT)
}

// Whether the text ends in such a letter and nn.
#[tactic(auto, unfolding(crate::specs::Syllable::ends_nasal, crate::specs::Syllable::is_nasal_end))]
fn ends_nasal(s: &[u16]) -> bool
    ensures { result ≡ ends_nasal s.now }
{
    let n = s.len();
    2 < n && lower(s[n - 1]) == N && lower(s[n - 2]) == N && takes_nasal(lower(s[n - 3]))
}

// Replaces each `a` `b` by `c`, in place, and returns how many code points are left. The walk goes on by one or by two, which no `for` does.
#[tactic(auto, unfolding(ji::specs::Text::replace_all, ji::specs::Text::replace_from))]
fn shrink_pair(s: &mut [u16], a: u16, b: u16, c: u16) -> usize
    ensures { Written s.old s.new result (replace_all (a ∷ b ∷ []) (c ∷ []) s.old) }
{
    let mut i: usize = 0;
    let mut n: usize = 0;
    while i < s.len() {
        if s[i..].starts_with(&[a, b]) {
            s[n] = c;
            n += 1;
            i += 2;
        } else {
            s[n] = s[i];
            n += 1;
            i += 1;
        }
    }
    n
}

// Takes each `c` out, in place, and returns how many code points are left: the places are counted, since those that are read and written are of one
// slice. One function for this and `shrink_pair`, of a pattern and what takes its place, would make two arrays at each call and copy a slice of one code
// point or none where the pattern stands.
fn take_out(s: &mut [u16], c: u16) -> usize
    ensures { Written s.old s.new result (replace_all (c ∷ []) [] s.old) }
{
    let mut n: usize = 0;
    for i in 0..s.len() {
        if s[i] != c {
            s[n] = s[i];
            n += 1;
        }
    }
    n
}

// The four nasal rules, in place.
#[tactic(auto, unfolding(ji::specs::Text::replace_all))]
fn respell_nasals(s: &mut [u16]) -> usize
    ensures { Front s.new result (respell nasal_rules s.old) }
{
    let n = shrink_pair(s, N, N, SMALL_SIGN);
    let m = shrink_pair(&mut s[..n], N, CAPITAL_N, SMALL_SIGN);
    let k = shrink_pair(&mut s[..m], CAPITAL_N, N, SMALL_SIGN);
    shrink_pair(&mut s[..k], CAPITAL_N, CAPITAL_N, CAPITAL_SIGN)
}

// Whether nn, case ignored, stands anywhere in `s` but at its end: with a code point behind it.
#[tactic(auto, using(crate::proofs::syllable::compose::Once::nasal_at))]
fn has_nasal(s: &[u16]) -> bool
    ensures { result ≡ false → NoNasalBefore s.now }
{
    s.windows(3).any(|w| lower(w[0]) == N && lower(w[1]) == N)
}

// The nasal rules where nn stands at the end only: the sign takes its place.
#[tactic(auto, unfolding(crate::specs::Syllable::ends_nasal, crate::specs::Syllable::is_nasal_end, crate::specs::Compose::is_nasal_pair, ji::specs::Text::lower, ji::specs::Text::begins, ji::specs::Text::replace_all, ji::specs::Text::replace_from))]
fn end_in_sign(s: &mut [u16]) -> usize
    requires { (ends_nasal s.old ≡ true) × NoNasalBefore s.old }
    ensures { Front s.new result (respell nasal_rules s.old) }
{
    let n = s.len();
    let sign = if s[n - 1] == CAPITAL_N && s[n - 2] == CAPITAL_N {
        CAPITAL_SIGN
    } else {
        SMALL_SIGN
    };
    s[n - 2] = sign;
    n - 1
}

// The nasal rules, where the text ends as they ask.
#[tactic(auto, unfolding(crate::specs::Syllable::nasalised))]
fn nasalise(s: &mut [u16]) -> usize
    ensures { Front s.new result (nasalised s.old) }
{
    if !ends_nasal(s) {
        s.len()
    } else if has_nasal(s) {
        respell_nasals(s)
    } else {
        end_in_sign(s)
    }
}

// Whether a sign, or what stands above the signs in the table, stands before the end of `s`.
fn has_sign(s: &[u16]) -> bool
    ensures { result ≡ false → NoSignBefore s.now }
{
    !s.is_empty() && s[..s.len() - 1].iter().any(|&x| CAPITAL_SIGN <= x)
}

// Moves a sign to the end, in place.
fn move_sign(s: &mut [u16], sign: u16) -> usize
    ensures { Front s.new result (moved sign s.old) }
{
    let len = s.len();
    if len == 0 || s[len - 1] == sign {
        return len;
    }
    let n = take_out(s, sign);
    if n < len {
        s[n] = sign;
        n + 1
    } else {
        n
    }
}

// A text at the front of a buffer: how many code points it has, and whether it is known that none before its end is a sign. The buffer is no field, since a struct
// with it would be taken apart in each function: one needs the text alone, the next the room behind it too.
#[derive(Clone, Copy)]
struct Settled {
    len: usize,
    lone: bool,
}

// The moves to the end. A text with no sign before its end has nothing to move.
#[tactic(auto, unfolding(crate::specs::Syllable::moved))]
fn move_signs(s: &mut [u16]) -> Settled
    ensures { SettledAs s.new (moved 0x1D3A (moved 0x207F s.old)) result }
{
    if has_sign(s) {
        let n = move_sign(s, SMALL_SIGN);
        let len = move_sign(&mut s[..n], CAPITAL_SIGN);
        Settled { len, lone: false }
    } else {
        Settled {
            len: s.len(),
            lone: true,
        }
    }
}

// The vowel rules, the nasal rules and the moves to the end.
#[tactic(auto, unfolding(crate::specs::Compose::settled_body))]
fn settle(s: &mut [u16]) -> Settled
    ensures { SettledAs s.new (settled_body s.old) result }
{
    respell_vowels(s);
    let n = nasalise(s);
    move_signs(&mut s[..n])
}

// Whether U+0358 goes behind the code point at `i`, by one of the O rules.
#[tactic(auto, unfolding(crate::specs::Compose::takes_dot, ji::specs::Text::begins))]
fn takes_dot(s: &[u16], i: usize) -> bool
    requires { i < length s.now }
    ensures { result ≡ takes_dot (drop i s.now) }
{
    match (s[i], at(s, i + 1)) {
        (CAPITAL_O, CAPITAL_SIGN | SMALL_SIGN) | (O, SMALL_SIGN) => true,
        (CAPITAL_O, CAPITAL_H) => at(s, i + 2) == CAPITAL_SIGN,
        (CAPITAL_O | O, H) => at(s, i + 2) == SMALL_SIGN,
        _ => false,
    }
}

// The O rules, in one walk from `s` to the front of `out`: none of them touches what another has done.
fn write_dotted(s: &[u16], out: &mut [u16]) -> usize
    requires { 2 * length s.now ≤ length out.old }
    ensures { Written out.old out.new result (respell o_rules s.now) × (result ≤ 2 * length s.now) }
{
    let mut n: usize = 0;
    for (i, &x) in s.iter().enumerate() {
        out[n] = x;
        n += 1;
        if takes_dot(s, i) {
            out[n] = DOT;
            n += 1;
        }
    }
    n
}

// What stands in front of a text with khin.
fn lead(khin: Khin, out: &mut [u16]) -> usize
    requires { 2 ≤ length out.old }
    ensures { Written out.old out.new result (khin_text khin) × (result ≤ 2) }
{
    match khin {
        Khin::No => 0,
        Khin::Yes => {
            out[0] = HYPHEN;
            out[1] = HYPHEN;
            2
        }
    }
}

// Where U+0358 goes by the O rules in a text with no sign before its end: behind its last letter but the sign, or but h and the sign.
fn dot_place(s: &[u16]) -> Option<usize>
    ensures { NoSignBefore s.now → DotAt result s.now }
{
    let n = s.len();
    if n < 2 || s[n - 1] < CAPITAL_SIGN {
        return None;
    }
    if takes_dot(s, n - 2) {
        return Some(n - 1);
    }
    if 2 < n && takes_dot(s, n - 3) {
        return Some(n - 2);
    }
    None
}

// The O rules in place, for the first `n` code points of `s`, which have no sign before their end.
fn put_dot(s: &mut [u16], n: usize) -> usize
    requires { (n < length s.old) × NoSignBefore (take n s.old) }
    ensures { Front s.new result (respell o_rules (take n s.old)) × (result ≤ n + 1) }
{
    match dot_place(&s[..n]) {
        None => n,
        Some(at) => {
            insert_mark(&mut s[..n + 1], at, DOT);
            n + 1
        }
    }
}

// Writes `s` by the O rules, behind what khin puts there, to the front of `out`.
#[tactic(auto, unfolding(ji::specs::Text::replace_all, crate::specs::Syllable::spelled))]
fn write_whole(khin: Khin, s: &[u16], out: &mut [u16]) -> usize
    requires { 2 * length s.now + 2 ≤ length out.old }
    ensures { Front out.new result (khin_text khin ++ respell o_rules s.now) × (result ≤ 2 * length s.now + 2) }
{
    let from = lead(khin, out);
    from + write_dotted(s, &mut out[from..])
}

// What a body is composed with: the bytes of the raw input, which is the answer where there is no letter for the tone mark, the tone, and khin.
#[derive(Clone, Copy)]
pub(crate) struct Composer<'a> {
    pub(crate) raw: &'a [u8],
    pub(crate) tone: Tone,
    pub(crate) khin: Khin,
    ghost input: { RawOf raw.now } by { one_raw raw.now },
}

impl Composer<'_> {
    // Writes the text that `s`, as it is spelled, has with the mark of the tone; or the raw input, where there is no letter for it.
    #[inline(always)]
    fn place_plain(self, s: &[u8], out: &mut [u8]) -> Option<Result<ByteLen, Refusal>>
        requires { all_ascii s.now ≡ true }
        ensures { QuickAs result out.old out.new (placed 0 (encode (composed_with unicode16 self.entry.input.points s.now (mark_of self.entry.tone))) out.old) }
    {
        let Some(mark) = mark_of(self.tone) else {
            return Some(reply::place_bytes(s, out));
        };
        match ascii_tone_position(s) {
            None => Some(reply::place_bytes(self.raw, out)),
            Some(place) => place_joined(s, place.0, mark, out),
        }
    }

    // Composes the body `s`, if it is plain and has no khin. None where it is not, and nothing is written. Like what it calls,
    // it is written into its callers: else the composer and the answer would go through memory.
    #[inline(always)]
    pub(crate) fn compose_plain(self, s: &[u8], out: &mut [u8]) -> Option<Result<ByteLen, Refusal>>
        ensures { (IsSome result → all_ascii s.now ≡ true) × QuickAs result out.old out.new (placed 0 (encode (compose unicode16 self.entry.input.points s.now self.entry.tone self.entry.khin)) out.old) }
    {
        match self.khin {
            Khin::No if is_plain(s) => self.place_plain(s, out),
            _ => None,
        }
    }

    // Writes the text that the first `n` code points of `s`, a spelled text, have with the mark of the tone; or the raw input, where there is no
    // letter for it.
    #[tactic(auto, unfolding(ji::specs::Utf8::encode, crate::specs::Syllable::encoded, ji::specs::Lomaji::ToneLetter::tone_letter, crate::specs::Syllable::compose, crate::specs::Syllable::mark_of))]
    fn place_spelled(self, s: &mut [u16], n: usize, out: &mut [u8]) -> Result<ByteLen, Refusal>
        requires { (n < length s.old) × (n ≤ 802) }
        ensures { text_reply result out.new ≡ placed 0 (encode (composed_with unicode16 self.entry.input.points (take n s.old) (mark_of self.entry.tone))) out.old }
    {
        let Some(mark) = mark_of(self.tone) else {
            return place_unmarked(&s[..n], out);
        };
        match tone_position(&s[..n]) {
            None => reply::place_bytes(self.raw, out),
            Some(place) => place_marked(s, n, place.0, mark, out),
        }
    }

    // Writes the text of a body that is spelled but for the O rules, from a buffer with room for these and for khin.
    fn place_dotted(self, s: &[u16], out: &mut [u8]) -> Result<ByteLen, Refusal>
        requires { length s.now ≤ 400 }
        ensures { (body : List ℕ) → settled_body body ≡ s.now → text_reply result out.new ≡ placed 0 (encode (compose unicode16 self.entry.input.points body self.entry.tone self.entry.khin)) out.old }
    {
        let mut b = [0u16; 803];
        let n = write_whole(self.khin, s, &mut b);
        self.place_spelled(&mut b, n, out)
    }

    // The same in the buffer `s`, of which the text takes the first `n` places, where it has no khin and no sign before its end.
    fn place_settled(
        self,
        s: &mut [u16],
        settled: Settled,
        out: &mut [u8],
    ) -> Result<ByteLen, Refusal>
        requires { (settled.len ≤ 400) × (settled.len + 1 < length s.old) × (settled.lone ≡ true → NoSignBefore (take settled.len s.old)) }
        ensures { (body : List ℕ) → settled_body body ≡ take settled.len s.old → text_reply result out.new ≡ placed 0 (encode (compose unicode16 self.entry.input.points body self.entry.tone self.entry.khin)) out.old }
    {
        let n = settled.len;
        match self.khin {
            Khin::No if settled.lone => {
                let m = put_dot(s, n);
                self.place_spelled(s, m, out)
            }
            _ => self.place_dotted(&s[..n], out),
        }
    }

    // Composes the body that stands in the first `n` places of `s`, which is used up.
    #[tactic(auto, unfolding(ji::specs::Utf8::encode, crate::specs::Syllable::compose))]
    pub(crate) fn compose_points(
        self,
        s: &mut [u16],
        n: usize,
        out: &mut [u8],
    ) -> Result<ByteLen, Refusal>
        requires { (n ≤ 400) × (n + 1 < length s.old) }
        ensures { text_reply result out.new ≡ placed 0 (encode (compose unicode16 self.entry.input.points (take n s.old) self.entry.tone self.entry.khin)) out.old }
    {
        let settled = settle(&mut s[..n]);
        self.place_settled(s, settled, out)
    }

    // Reads the body and composes it.
    #[inline(always)]
    fn compose_body(
        self,
        body: &[u8],
        points: &mut [u16],
        out: &mut [u8],
    ) -> Result<ByteLen, Refusal>
        requires { (length body.now ≤ 256) × (length body.now ≤ length points.old) × (length body.now + 1 < length points.old) }
        ensures { text_reply result out.new ≡ compose_of unicode16 self.entry.tone self.entry.khin (good self.entry.input.points) (check_text unicode16 body.now) out.old }
    {
        let len = unicode::code_points(body, points)?;
        self.compose_points(points, len.0, out)
    }

    // The same in a buffer of `N` places: clearing a small one is quicker.
    fn compose_in<const N: usize>(self, body: &[u8], out: &mut [u8]) -> Result<ByteLen, Refusal>
        requires { (length body.now ≤ 256) × (length body.now + 1 < N) × (N ≤ 65536) }
        ensures { text_reply result out.new ≡ compose_of unicode16 self.entry.tone self.entry.khin (good self.entry.input.points) (check_text unicode16 body.now) out.old }
    {
        let mut points = [0u16; N];
        self.compose_body(body, &mut points, out)
    }

    // A body of any length that is allowed.
    #[tactic(auto, unfolding(ji::specs::Utf8::encode, crate::specs::Syllable::compose, ji::specs::Reply::check_text))]
    fn compose_any(self, body: &[u8], out: &mut [u8]) -> Result<ByteLen, Refusal>
        requires { length body.now ≤ 256 }
        ensures { text_reply result out.new ≡ compose_of unicode16 self.entry.tone self.entry.khin (good self.entry.input.points) (check_text unicode16 body.now) out.old }
    {
        if let Some(answer) = self.compose_plain(body, out) {
            return answer;
        }
        if body.len() <= 16 {
            self.compose_in::<18>(body, out)
        } else {
            self.compose_in::<258>(body, out)
        }
    }
}

// `compose`: the text of the syllable with this raw input, body, tone and khin, in `out`.
pub fn compose(
    raw: &[u8],
    body: &[u8],
    tone: Tone,
    khin: Khin,
    out: &mut [u8],
) -> Result<ByteLen, Refusal>
    ensures { text_reply result out.new ≡ compose_call unicode16 raw.now body.now tone khin out.old }
{
    unicode::check(raw, 256)?;
    if 256 < body.len() {
        return Err(Refusal::TooLong);
    }
    Composer { raw, tone, khin }.compose_any(body, out)
}
