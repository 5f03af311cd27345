// The layout of an entry. The forms of each part stand in one buffer, and arrays say of each part's choices where they stand and how long they
// are; a keying is put together from them by the digits of its position, whose radices are the numbers of choices.
ghost use Rattle.std.specs.Prelude.{◌≡◌, ℕ, ◌+◌, ◌-◌, ◌/◌, ◌%◌, ◌≤◌, length};
ghost use Rattle.std.proofs.Math.Seq.{paste};
ghost use Rattle.khiin_entries.specs.Choices.{Radix, Laid, count_in, length_in, keying_in};

// Of each part's choices `offsets` says where they stand, and `lengths` how many bytes they have; its radix says how many they are. By a rule of the
// project the places and lengths of each part and choice stand in arrays of arrays by value.
#[derive(Clone, Copy)]
pub(crate) struct Choices {
    pub offsets: [[u16; 4]; 16],
    pub lengths: [[u16; 4]; 16],
    pub radices: [u8; 16],
}

// The choices of no part.
pub(crate) const NO_CHOICES: Choices = Choices {
    offsets: [[0; 4]; 16],
    lengths: [[0; 4]; 16],
    radices: [0; 16],
};

// At most sixteen parts, whose choices stand in `forms`. They are borrowed: by value, which copies 272 bytes,
// a keying of two parts takes 7 % longer.
#[derive(Clone, Copy)]
pub(crate) struct Layout<'a> {
    pub forms: &'a [u8],
    pub choices: &'a Choices,
    pub parts: usize,
    ghost few: { parts ≤ 16 },
    ghost laid: { Laid choices.now.offsets choices.now.lengths choices.now.radices parts (length forms.now) },
}

// The lowest digit of a position, and what is left of the position.
#[derive(Clone, Copy)]
struct Digit {
    value: usize,
    rest: u64,
}

// A division by a known number is quick, and a part has one, two or four choices.
fn digit_of(position: u64, radix: u8) -> Digit
    requires { Radix radix }
    ensures { (result.value ≡ position % radix) × (result.rest ≡ position / radix) }
{
    match radix {
        1 => Digit {
            value: 0,
            rest: position,
        },
        2 => Digit {
            value: (position % 2) as usize,
            rest: position / 2,
        },
        _ => Digit {
            value: (position % 4) as usize,
            rest: position / 4,
        },
    }
}

// Writes `src` at `at`, a byte at a time. `copy_from_slice` reads several bytes at once, which waits for the store of each: with it keyings of two parts
// come to twice the hand-tuned time, and a listing of them takes a sixth longer.
fn put(src: &[u8], out: &mut [u8], at: usize)
    requires { at + length src.now ≤ length out.old }
    ensures { out.new ≡ paste out.old at src.now (length src.now) }
{
    for (i, &b) in src.iter().enumerate() {
        out[at + i] = b;
    }
}

impl<'a> Layout<'a> {
    // How many keyings there are. As a chain that ends in `product` it did not prove: the product of every run of the radices has to be shown to fit.
    pub(crate) fn count(&self) -> u64
        ensures { (result ≡ count_in self.now.choices.now.radices self.now.parts) × (result ≤ 4294967296) }
    {
        let mut count: u64 = 1;
        for radix in &self.choices.radices[..self.parts] {
            count *= u64::from(*radix);
        }
        count
    }

    // How many bytes the keying at a position has.
    #[tactic(auto, unfolding(crate::specs::Choices::length_in))]
    pub(crate) fn length_at(&self, position: u64) -> usize
        ensures { (result ≡ length_in self.now.choices.now.lengths self.now.choices.now.radices self.now.parts position) × (result ≤ 1048560) }
    {
        let mut left = position;
        let mut length: usize = 0;
        for i in (0..self.parts).rev() {
            let digit = digit_of(left, self.choices.radices[i]);
            length += usize::from(self.choices.lengths[i][digit.value]);
            left = digit.rest;
        }
        length
    }

    // Writes the keying at a position, so that it ends at `end`.
    pub(crate) fn write_at(&self, position: u64, out: &mut [u8], end: usize)
        requires { (length_in self.now.choices.now.lengths self.now.choices.now.radices self.now.parts position ≤ end) × (end ≤ length out.old) }
        ensures { out.new ≡ paste out.old (end - length_in self.now.choices.now.lengths self.now.choices.now.radices self.now.parts position) (keying_in self.now.forms.now self.now.choices.now.offsets self.now.choices.now.lengths self.now.choices.now.radices self.now.parts position) (length_in self.now.choices.now.lengths self.now.choices.now.radices self.now.parts position) }
    {
        let mut left = position;
        let mut at = end;
        for i in (0..self.parts).rev() {
            let digit = digit_of(left, self.choices.radices[i]);
            let from = usize::from(self.choices.offsets[i][digit.value]);
            let length = usize::from(self.choices.lengths[i][digit.value]);
            at -= length;
            put(&self.forms[from..from + length], out, at);
            left = digit.rest;
        }
    }
}
