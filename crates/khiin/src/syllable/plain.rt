// The quick way of `compose`, for an ASCII body that no rule changes and that has no khin, as most have: its bytes are written as they stand, with one
// letter and its mark among them. A function here answers None, and writes nothing, where this way does not go.
ghost use Rattle.std.specs.Prelude.{◌≡◌, true, false, ◌&&◌, ◌∷◌, ◌++◌, ◌+◌, ◌<◌, length, take, drop};
ghost use Rattle.ji.specs.Unicode.{unicode16, listed};
ghost use Rattle.ji.specs.Text.{points as points_of, all_ascii};
ghost use Rattle.ji.specs.Utf8.{encode};
ghost use Rattle.ji.specs.Reply.{placed};
ghost use Rattle.khiin.specs.Syllable.{ends_nasal, encoded};
ghost use Rattle.khiin.specs.Compose.{Plain, QuickAs};

use crate::syllable::letters::{N, is_first, is_second};
use crate::syllable::marking::{Joined, join};
use ji::reply;
use ji::reply::Refusal;
use ji::text::lower;
use ji::unicode::ByteLen;

// Whether `s` ends in nn, case ignored, behind something. It asks less than `ends_nasal`, which looks at the letter before too and reads code points.
fn ends_in_nn(s: &[u8]) -> bool
    ensures { result ≡ false → ends_nasal s.now ≡ false }
{
    let n = s.len();
    2 < n && lower(u16::from(s[n - 1])) == N && lower(u16::from(s[n - 2])) == N
}

// Whether `before` and `x` are a pair of vowels that is replaced. It is one line over the two tests of code points, which `is_pair` asks too.
fn are_pair(before: u8, x: u8) -> bool
    ensures { result ≡ (listed (points_of "oOeE") before && listed (points_of "oOuU") x) }
{
    is_second(u16::from(x)) && is_first(u16::from(before))
}

// Whether `s` is ASCII, and no rule changes it. One walk asks both: with `is_ascii` and `windows(2)` there would be two.
pub(crate) fn is_plain(s: &[u8]) -> bool
    ensures { result ≡ true → Plain s.now }
{
    let mut before: u8 = 0;
    for &x in s {
        if !x.is_ascii() || are_pair(before, x) {
            return false;
        }
        before = x;
    }
    !ends_in_nn(s)
}

// Writes `s`, with `mark` behind its letter at `k`, in compose's encoding.
pub(crate) fn place_joined(
    s: &[u8],
    k: usize,
    mark: u16,
    out: &mut [u8],
) -> Option<Result<ByteLen, Refusal>>
    requires { (k < length s.now) × (all_ascii s.now ≡ true) }
    ensures { QuickAs result out.old out.new (placed 0 (encode (encoded unicode16 (take (k + 1) s.now ++ (mark ∷ drop (k + 1) s.now)))) out.old) }
{
    match join(u16::from(s[k]), mark) {
        Joined::Composite(c) => Some(reply::place_between(&s[..k], c, &s[k + 1..], out)),
        Joined::Apart => Some(reply::place_between(&s[..k + 1], mark, &s[k + 1..], out)),
        Joined::Unknown => None,
    }
}
