// The neutral-tone mark.
ghost use Rattle.std.specs.Prelude.{◌≡◌, ◌||◌};
ghost use Rattle.ji.specs.Text.{begins};
ghost use Rattle.ji.specs.Utf8.{bytes};
ghost use Rattle.ji.specs.Lomaji.Khin.{after_khin, khin_of, khin_number};

// Whether a text has the mark.
#[derive(Clone, Copy, PartialEq, Eq)]
pub enum Khin {
    No = 0,
    Yes = 1,
}

impl Khin {
    // Khin as a number: 0 no, 1 yes. Callers cite the clause by the method's name, which a From does not give.
    pub fn number(self) -> u64
        ensures { result ≡ khin_number self }
    {
        self as u64
    }
}

// Whether `text` begins with two hyphens, or with U+00B7, which is two bytes as well. `strip_khin` and `khin_of` each ask, since each is public with
// a clause of its own.
#[tactic(auto, unfolding(crate::specs::Text::begins, crate::specs::Utf8::encode, crate::specs::Utf8::bytes_of))]
fn has_mark(text: &[u8]) -> bool
    ensures { result ≡ (begins (bytes "--") text.now || begins (bytes "·") text.now) }
{
    text.starts_with(b"--") || text.starts_with(b"\xC2\xB7")
}

// The part of `text` behind its mark, and the whole of it where it has none. One mark is removed, though another may follow.
pub fn strip_khin(text: &[u8]) -> &[u8]
    ensures { result.now ≡ after_khin text.now }
{
    if has_mark(text) { &text[2..] } else { text }
}

// Whether `text` has the mark that `strip_khin` removes.
#[tactic(auto, unfolding(crate::specs::Lomaji::Khin::khin_of))]
pub fn khin_of(text: &[u8]) -> Khin
    ensures { result ≡ khin_of text.now }
{
    if has_mark(text) { Khin::Yes } else { Khin::No }
}
