// The table: which code points are in it, and of each its decomposition, its combining class and its composites.
#![tactic(auto)]

ghost use Rattle.std.specs.Prelude.{◌≡◌};
ghost use Rattle.ucd.specs.Table.{member, mapping, decomposition, combining_class, composite};
ghost use Rattle.ucd.specs.Unicode16.{unicode16};
ghost use Rattle.ucd.specs.Answer.{text_of, said, point_of};

mod table;

// c is a code point of the table. The ranges follow each other, and so do their tests: as one pattern, which is tested in another order, the reading of UTF-8 is
// slower.
#[tactic(auto, using(std::proofs::lemmas::Bool::Decides::nat_tests), unfolding(crate::specs::Table::member, crate::specs::Table::in_ranges, crate::specs::Unicode16::unicode16, crate::specs::Unicode16::ranges16))]
pub fn is_member(c: u32) -> bool
    ensures { result ≡ member unicode16 c }
{
    match c {
        0x0000..=0x007F => true,
        0x0080..=0x00BF => c == 0x00B7,
        0x00C0..=0x024F => true,
        0x0250..=0x02FF => c == 0x0292,
        0x0300..=0x036F => true,
        0x0370..=0x1DFF => c == 0x1D3A,
        0x1E00..=0x1EFF => true,
        0x1F00..=0x225F => c == 0x207F,
        _ => matches!(c, 0x2260 | 0x226E..=0x226F),
    }
}

// What a code point decomposes to: itself, where it has no mapping.
#[derive(Clone, Copy, PartialEq, Eq)]
pub enum Mapping {
    Itself,
    One(u16),
    Two(u16, u16),
}

// The decomposition of c: its mapping, if it has one. The rows hold numbers, since the table is a constant of numbers: here they are taken apart.
pub fn decomposition(c: u16) -> Mapping
    ensures text { text_of c result ≡ decomposition unicode16 c }
    ensures mapping { said result ≡ mapping unicode16 c }
{
    if c < 0x00C0 {
        return Mapping::Itself;
    }
    let number = table::mapping_number(c);
    let first = (number / 65536) as u16;
    let second = (number % 65536) as u16;
    if number == 0 {
        Mapping::Itself
    } else if second == 0 {
        Mapping::One(first)
    } else {
        Mapping::Two(first, second)
    }
}

// The combining class of c.
pub fn combining_class(c: u16) -> u8
    ensures { result ≡ combining_class unicode16 c }
{
    if c < 0x0300 {
        return 0;
    }
    table::class_number(c)
}

// The composite of a and b: the candidate for them, if its decomposition is a, b.
pub fn composite(a: u16, b: u16) -> Option<u16>
    ensures { point_of result ≡ composite unicode16 a b }
{
    if b < 0x0300 || 0x0338 < b {
        return None;
    }
    let p = table::candidate(a, b);
    if decomposition(p) == Mapping::Two(a, b) {
        Some(p)
    } else {
        None
    }
}
