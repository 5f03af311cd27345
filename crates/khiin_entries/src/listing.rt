// What the program `keylist` prints, block by block: of the lines of an entry as many, from a given one on, as go into the lent buffer.
ghost use Rattle.std.specs.Prelude.{◌≡◌, [], ◌∷◌, ◌+◌, ◌≤◌, ◌<◌, length};
ghost use Rattle.ji.specs.Unicode.{unicode16};
ghost use Rattle.ji.specs.Reply.{over};
ghost use Rattle.khiin_entries.specs.KeySequence.{split};
ghost use Rattle.khiin_entries.specs.Choices.{length_in};
ghost use Rattle.khiin_entries.specs.Listing.{decimal, listing, together, shown};
ghost use Rattle.khiin_entries.specs.Lines.{number_then, header_line, refusal_line, dotted_in, line_in, lines_in, Put, Shown, Following};

use crate::key_sequence::{Parted, lay_out, parts_of};
use crate::layout::{Layout, NO_CHOICES};
use ji::lomaji::dot::holds_dot;
use ji::lomaji::keys::Kind;
use ji::reply::Refusal;
use ji::unicode::ByteLen;

// How many bytes were written, and the number of the next line.
#[derive(Clone, Copy)]
pub struct Listed {
    pub len: ByteLen,
    pub next: u64,
}

// How many digits a number has.
fn digit_count(n: u64) -> usize
    ensures { (result ≡ length (decimal n)) × (result ≤ 20) }
{
    n.checked_ilog10().unwrap_or(0) as usize + 1
}

// Writes a number, from its last digit to its first, and a byte behind it. Returns the place behind both.
// The contract of the library's `write!` says nothing of the bytes that it writes into a slice, so the digits are written here.
fn put_number(n: u64, last: u8, out: &mut [u8], at: usize) -> usize
    requires { at + length (decimal n) < length out.old }
    ensures { Put out.old out.new at (number_then n last) result }
{
    let end = at + digit_count(n);
    let mut left = n;
    for i in (at..end).rev() {
        out[i] = b'0' + (left % 10) as u8;
        left /= 10;
    }
    out[end] = last;
    end + 1
}

// Writes the line of the keying at a position. The keying has n bytes.
// The layout and the letter are handed down as the definition of a kind's lines takes them; a struct of the two would be taken apart in every clause.
fn put_line(
    layout: &Layout,
    letter: u8,
    position: u64,
    n: usize,
    out: &mut [u8],
    at: usize,
) -> usize
    requires { (n ≡ length_in layout.now.choices.now.lengths layout.now.choices.now.radices layout.now.parts position) × (at + (length (decimal position) + n + 4) ≤ length out.old) }
    ensures { Put out.old out.new at (line_in letter layout.now position) result }
{
    out[at] = letter;
    out[at + 1] = b' ';
    let end = put_number(position, b' ', out, at + 2) + n;
    layout.write_at(position, out, end);
    out[end] = b'\n';
    end + 1
}

// Writes the lines of a kind from the position `from` on, at `at`, as many as go in.
fn put_lines(layout: &Layout, letter: u8, from: u64, out: &mut [u8], at: usize) -> Listed
    requires { at ≤ length out.old }
    ensures { Shown (lines_in letter layout.now) from at out.old out.new result.next result.len.0 }
{
    let count = layout.count();
    let mut end = at;
    for i in from..count {
        let n = layout.length_at(i);
        if out.len() - end < digit_count(i) + n + 4 {
            return Listed {
                len: ByteLen(end),
                next: i,
            };
        }
        end = put_line(layout, letter, i, n, out, end);
    }
    Listed {
        len: ByteLen(end),
        next: from.max(count),
    }
}

// Writes the lines of a kind, of which the first has the number `first` in the listing, behind what was written.
fn put_section(layout: &Layout, letter: u8, first: u64, written: Listed, out: &mut [u8]) -> Listed
    requires { (first ≤ 17179869184) × (written.len.0 ≤ length out.old) }
    ensures { Following (lines_in letter layout.now) first written.next written.len.0 out.old out.new result.next result.len.0 }
{
    if written.next < first {
        return written;
    }
    let lines = put_lines(layout, letter, written.next - first, out, written.len.0);
    Listed {
        next: first + lines.next,
        ..lines
    }
}

// How many parts hold U+0358.
fn count_dotted(entry: &[u8]) -> u64
    ensures { result ≡ dotted_in (split entry.now) }
{
    entry
        .split(|b| *b == b' ')
        .filter(|part| holds_dot(part))
        .count() as u64
}

// The first line of a listing, where the listing starts with it and it goes in.
fn put_first(line: &[u8], from: u64, out: &mut [u8]) -> Listed
    ensures { Shown (line.now ∷ []) from 0 out.old out.new result.next result.len.0 }
{
    if 0 < from || out.len() < line.len() {
        return Listed {
            len: ByteLen(0),
            next: from,
        };
    }
    out[..line.len()].copy_from_slice(line);
    Listed {
        len: ByteLen(line.len()),
        next: 1,
    }
}

// The header: the numbers of parts, of those with U+0358, and of keyings of each kind. A number has at most 20 digits.
fn put_header(counts: [u64; 5], from: u64, out: &mut [u8]) -> Listed
    ensures { Shown (header_line counts ∷ []) from 0 out.old out.new result.next result.len.0 }
{
    let mut line = [0u8; 105];
    let mut end: usize = 0;
    for count in counts {
        end = put_number(count, b' ', &mut line, end);
    }
    line[end - 1] = b'\n';
    put_first(&line[..end], from, out)
}

// The only line where the entry is refused.
fn list_refusal(why: Refusal, from: u64, out: &mut [u8]) -> Listed
    ensures { Shown (refusal_line why ∷ []) from 0 out.old out.new result.next result.len.0 }
{
    let mut line = [0u8; 29];
    line[..8].copy_from_slice(b"refused ");
    let end = put_number(why.number(), b'\n', &mut line, 8);
    put_first(&line[..end], from, out)
}

// All lines of a good entry. The three kinds stand side by side, because the header says how many keyings there are of each before the first line of one.
fn list_entry(parted: &Parted, from: u64, out: &mut [u8]) -> Listed
    ensures { Shown (listing unicode16 parted.now.entry.now) from 0 out.old out.new result.next result.len.0 }
{
    let mut numeric_forms = [0u8; 5152];
    let mut telex_forms = [0u8; 5152];
    let mut detoned_forms = [0u8; 5152];
    let mut numeric_choices = NO_CHOICES;
    let mut telex_choices = NO_CHOICES;
    let mut detoned_choices = NO_CHOICES;
    let numeric = lay_out(
        parted,
        Kind::Numeric,
        &mut numeric_choices,
        &mut numeric_forms,
    );
    let telex = lay_out(parted, Kind::Telex, &mut telex_choices, &mut telex_forms);
    let detoned = lay_out(
        parted,
        Kind::Detoned,
        &mut detoned_choices,
        &mut detoned_forms,
    );
    let dots = count_dotted(parted.entry);
    let numeric_count = numeric.count();
    let telex_count = telex.count();
    let detoned_count = detoned.count();
    let counts = [
        parted.parts as u64,
        dots,
        numeric_count,
        telex_count,
        detoned_count,
    ];
    let header = put_header(counts, from, out);
    let first = put_section(&numeric, b'N', 1, header, out);
    let second = put_section(&telex, b'T', 1 + numeric_count, first, out);
    put_section(&detoned, b'D', 1 + numeric_count + telex_count, second, out)
}

// Writes the lines of the listing from number `from` on, as many as go into `out` whole.
pub fn list(entry: &[u8], from: u64, out: &mut [u8]) -> Listed
    ensures { (result.next ≡ from + length (shown unicode16 entry.now from (length out.old))) × (result.len.0 ≡ length (together (shown unicode16 entry.now from (length out.old)))) × (out.new ≡ over (together (shown unicode16 entry.now from (length out.old))) out.old) }
{
    match parts_of(entry) {
        Ok(parted) => list_entry(&parted, from, out),
        Err(why) => list_refusal(why, from, out),
    }
}
