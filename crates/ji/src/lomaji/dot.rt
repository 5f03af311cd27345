// Whether a text holds U+0358, the dot of o͘, from its bytes.
ghost use Rattle.std.specs.Prelude.{◌≡◌};
ghost use Rattle.ji.specs.Lomaji.Dot.{dot_in};

// Whether a text holds U+0358.
pub fn holds_dot(text: &[u8]) -> bool
    ensures { result ≡ dot_in text.now }
{
    text.windows(2).any(|pair| pair == b"\xCD\x98".as_slice())
}
