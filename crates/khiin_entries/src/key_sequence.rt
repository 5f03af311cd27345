// Keyings of an entry.
ghost use Rattle.std.specs.Prelude.{◌≡◌, true, false, ◌+◌, ◌*◌, ◌≤◌, ◌<◌, length, MatchResult};
ghost use Rattle.std.proofs.Math.Seq.{paste};
ghost use Rattle.ji.specs.Unicode.{unicode16};
ghost use Rattle.ji.specs.Reply.{good, bad, check_text};
ghost use Rattle.khiin_entries.specs.Choices.{points_of, form_bytes, is_toned, part_count, row_one, row_two, RowOf, Room, Entry, laid_out, choices_in, count_in, keying_in, laid_reply};
ghost use Rattle.khiin_entries.specs.KeySequence.{check_entry, keying_call, keying_reply};

use crate::layout::{Choices, Layout, NO_CHOICES};
use ji::lomaji::dot::holds_dot;
use ji::lomaji::keys;
use ji::lomaji::keys::{Form, Kind};
use ji::reply::Refusal;
use ji::unicode;
use ji::unicode::ByteLen;

// The length of a keying, and how many the list has.
#[derive(Clone, Copy)]
pub struct KeyingResult {
    pub len: ByteLen,
    pub count: u64,
}

// How many parts an entry has, if they are at most sixteen and none has more than 256 bytes. The loop ends at the first part that is one too many or too
// long, where `count` of all parts and `all` would go through the entry twice.
fn count_parts(entry: &[u8]) -> Option<usize>
    ensures { result ≡ part_count entry.now }
{
    let mut parts: usize = 0;
    for part in entry.split(|b| *b == b' ') {
        if parts == 16 || 256 < part.len() {
            return None;
        }
        parts += 1;
    }
    Some(parts)
}

// An entry that has keyings, and how many parts it has.
#[derive(Clone, Copy)]
pub(crate) struct Parted<'a> {
    pub entry: &'a [u8],
    pub parts: usize,
    ghost good: { Entry entry.now parts },
}

// An entry with its parts, if it is one that has keyings.
pub(crate) fn parts_of(entry: &[u8]) -> Result<Parted, Refusal>
    ensures { MatchResult result (λ parted. parted.entry.now ≡ entry.now) (λ why. check_entry unicode16 entry.now ≡ bad why) }
{
    unicode::check(entry, 1024)?;
    let parts = count_parts(entry).ok_or(Refusal::Parts)?;
    Ok(Parted { entry, parts })
}

// Writes a form of a part at `at`, and returns the place behind it.
// A row is made of the places before, between and behind its forms, so a place is a value of its own, and no field beside the buffer that moves.
fn put_form(part: &[u8], form: Form, kind: Kind, forms: &mut [u8], at: usize) -> usize
    requires { (check_text unicode16 part.now ≡ good (points_of part.now)) × (at + length (form_bytes unicode16 form kind part.now) ≤ length forms.old) }
    ensures { (result ≡ at + length (form_bytes unicode16 form kind part.now)) × (forms.new ≡ paste forms.old at (form_bytes unicode16 form kind part.now) (length (form_bytes unicode16 form kind part.now))) }
{
    let written = keys::keys(part, form, kind, &mut forms[at..]).unwrap();
    at + written.0
}

// The choices of a part: where each stands, how long it is, how many there are, and the place behind them.
#[derive(Clone, Copy)]
pub(crate) struct Row {
    pub offsets: [u16; 4],
    pub lengths: [u16; 4],
    pub radix: u8,
    pub end: usize,
}

// One form, as it is and, if it is toned, without its last byte, the key of the tone. The definition too has a row of one form and one of two.
fn row_one(at: usize, mid: usize, toned: bool) -> Row
    requires { (at ≤ mid) × (mid ≤ 65535) }
    ensures { result ≡ row_one at mid toned }
{
    Row {
        offsets: [at as u16, at as u16, 0, 0],
        lengths: [(mid - at) as u16, (mid - at).saturating_sub(1) as u16, 0, 0],
        radix: if toned { 2 } else { 1 },
        end: mid,
    }
}

// Two forms, as they are and, if they are toned, without their last bytes.
fn row_two(at: usize, mid: usize, end: usize, toned: bool) -> Row
    requires { (at ≤ mid) × (mid ≤ end) × (end ≤ 65535) }
    ensures { result ≡ row_two at mid end toned }
{
    Row {
        offsets: [at as u16, mid as u16, at as u16, mid as u16],
        lengths: [
            (mid - at) as u16,
            (end - mid) as u16,
            (mid - at).saturating_sub(1) as u16,
            (end - mid).saturating_sub(1) as u16,
        ],
        radix: if toned { 4 } else { 2 },
        end,
    }
}

fn is_toned(kind: Kind) -> bool
    ensures { result ≡ is_toned kind }
{
    matches!(kind, Kind::Numeric | Kind::Telex)
}

// The forms of a part that is the only one.
fn lay_single(part: &[u8], kind: Kind, forms: &mut [u8], at: usize) -> Row
    requires { Room part.now forms.old at }
    ensures { RowOf unicode16 true kind part.now at forms.old forms.new result }
{
    let mid = put_form(part, Form::Plain, kind, forms, at);
    let end = put_form(part, Form::Oo, kind, forms, mid);
    if forms[at..mid] == forms[mid..end] {
        row_one(at, mid, false)
    } else {
        row_two(at, mid, end, false)
    }
}

// The forms of a part of several.
fn lay_part(part: &[u8], kind: Kind, forms: &mut [u8], at: usize) -> Row
    requires { Room part.now forms.old at }
    ensures { RowOf unicode16 false kind part.now at forms.old forms.new result }
{
    let mid = put_form(part, Form::Plain, kind, forms, at);
    if holds_dot(part) {
        let end = put_form(part, Form::Oo, kind, forms, mid);
        row_two(at, mid, end, is_toned(kind))
    } else {
        row_one(at, mid, is_toned(kind))
    }
}

// The forms of a part. `single` is the same for all parts and asked at each, as the definition of a row takes it: two loops would differ in this alone. The
// four that travel together make a row, and a struct of them would be made and taken apart at once.
#[tactic(auto, unfolding(ji::specs::Reply::check_text, crate::specs::Choices::points_of))]
fn lay_row(part: &[u8], single: bool, kind: Kind, forms: &mut [u8], at: usize) -> Row
    requires { Room part.now forms.old at }
    ensures { RowOf unicode16 single kind part.now at forms.old forms.new result }
{
    if single {
        lay_single(part, kind, forms, at)
    } else {
        lay_part(part, kind, forms, at)
    }
}

// Lays out the parts of an entry, with their forms in `forms`.
pub(crate) fn lay_out<'a>(
    parted: &Parted,
    kind: Kind,
    choices: &'a mut Choices,
    forms: &'a mut [u8],
) -> Layout<'a>
    requires { (5 * length parted.now.entry.now + 32 ≤ length forms.old) × (length forms.old ≤ 65535) × (length choices.old.offsets ≡ 16) × (length choices.old.lengths ≡ 16) × (length choices.old.radices ≡ 16) }
    ensures { (result.parts ≡ parted.now.parts) × (laid_out result.forms.now result.choices.now.offsets result.choices.now.lengths result.choices.now.radices result.parts ≡ choices_in unicode16 kind parted.now.entry.now) }
{
    let mut used: usize = 0;
    for (i, part) in parted.entry.split(|b| *b == b' ').enumerate() {
        let row = lay_row(part, parted.parts == 1, kind, forms, used);
        // The arrays go through variables, for so the borrow checker covers their stores.
        let (starts, sizes) = (row.offsets, row.lengths);
        choices.offsets[i] = starts;
        choices.lengths[i] = sizes;
        choices.radices[i] = row.radix;
        used = row.end;
    }
    Layout {
        forms,
        choices,
        parts: parted.parts,
    }
}

// The keying at a position, written to `out`, from the layout of an entry.
fn place(layout: &Layout, position: u64, out: &mut [u8]) -> Result<KeyingResult, Refusal>
    ensures { keying_reply result out.new ≡ laid_reply (count_in layout.now.choices.now.radices layout.now.parts) (keying_in layout.now.forms.now layout.now.choices.now.offsets layout.now.choices.now.lengths layout.now.choices.now.radices layout.now.parts position) position out.old }
{
    let count = layout.count();
    if count <= position {
        return Err(Refusal::Position);
    }
    let n = layout.length_at(position);
    if out.len() < n {
        return Err(Refusal::NoRoom);
    }
    layout.write_at(position, out, n);
    Ok(KeyingResult {
        len: ByteLen(n),
        count,
    })
}

// The keying at a position of a good entry, whose forms are laid out in N bytes.
fn keying_with<const N: usize>(
    parted: &Parted,
    kind: Kind,
    position: u64,
    out: &mut [u8],
) -> Result<KeyingResult, Refusal>
    requires { (5 * length parted.now.entry.now + 32 ≤ N) × (N ≤ 65535) }
    ensures { keying_reply result out.new ≡ keying_call unicode16 parted.now.entry.now kind position out.old }
{
    let mut choices = NO_CHOICES;
    let mut forms = [0u8; N];
    let layout = lay_out(parted, kind, &mut choices, &mut forms);
    place(&layout, position, out)
}

// A form has at most five bytes for each two of its part, and one more, and a part has two forms. Entries of at most 32 bytes, as most have, go in a
// small buffer: clearing it is quicker.
fn keying_of(
    parted: &Parted,
    kind: Kind,
    position: u64,
    out: &mut [u8],
) -> Result<KeyingResult, Refusal>
    ensures { keying_reply result out.new ≡ keying_call unicode16 parted.now.entry.now kind position out.old }
{
    if parted.entry.len() <= 32 {
        keying_with::<192>(parted, kind, position, out)
    } else {
        keying_with::<5152>(parted, kind, position, out)
    }
}

// The keying of an entry at a position of the list of a kind, in `out`.
pub fn keying_at(
    entry: &[u8],
    kind: Kind,
    position: u64,
    out: &mut [u8],
) -> Result<KeyingResult, Refusal>
    ensures { keying_reply result out.new ≡ keying_call unicode16 entry.now kind position out.old }
{
    let parted = parts_of(entry)?;
    keying_of(&parted, kind, position, out)
}
