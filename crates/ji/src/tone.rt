// The tones of a syllable.
ghost use Rattle.std.specs.Prelude.{◌≡◌, ◌≤◌};
ghost use Rattle.ji.specs.Tone.{tone_number, is_tone};

// A tone, or None: no Option, since the definitions, the records and the numbers of the C interface speak of these ten values, of which None is 0.
#[derive(Clone, Copy, PartialEq, Eq)]
pub enum Tone {
    None = 0,
    T1 = 1,
    T2 = 2,
    T3 = 3,
    T4 = 4,
    T5 = 5,
    T6 = 6,
    T7 = 7,
    T8 = 8,
    T9 = 9,
}

impl Tone {
    // Whether it is a tone, and not None.
    pub fn is_tone(self) -> bool
        ensures { result ≡ is_tone self }
    {
        self != Tone::None
    }

    // A tone as a number, 0 to 9. Callers cite the clause by the method's name, which a From does not give.
    pub fn number(self) -> usize
        ensures { (result ≡ tone_number self) × (result ≤ 9) }
    {
        self as usize
    }
}
