// Reads an entry from standard input and prints its listing: what the program `keylist` does, and others do on inputs of their own. No contract can
// say which bytes the system gives and takes. What becomes of them is said for any reader and writer of known bytes.
#![tactic(auto)]

#[cfg(test)]
mod tests;

ghost use Rattle.std.specs.Prelude.{◌≡◌, ◌+◌, ◌-◌, ◌<◌, ◌≤◌, length, take, unwrap_or, IfOk, IfSome, OnOk, OnErr};
ghost use Rattle.std.specs.Io.KnownBytes.{Appends};
ghost use Rattle.std.specs.Process.{exit_status};
ghost use Rattle.ji.specs.Unicode.{unicode16};
ghost use Rattle.khiin_entries.specs.Listing.{listing, shown, together};
ghost use Rattle.lister.specs.Text.{without_newline, entry_in, printed};

use khiin_entries::listing;
use std::io::{ErrorKind, Read, Write};
use std::process::ExitCode;
use std::{fmt, io};

// An entry has at most 1,024 bytes: one more byte than that, and a newline, is enough to see that it is too long.
const MOST: usize = 1026;

// What did not go through, and why.
#[derive(Debug, Drop)]
pub enum Failure {
    Unread(io::Error),
    Unwritten(io::Error),
}

impl fmt::Display for Failure {
    fn fmt<W: fmt::Write>(&self, f: &mut fmt::Formatter<W>) -> fmt::Result {
        match self {
            Failure::Unread(why) => write!(f, "the entry could not be read: {why}"),
            Failure::Unwritten(why) => write!(f, "the listing could not be written: {why}"),
        }
    }
}

// The text without one final newline.
#[tactic(auto, unfolding(crate::specs::Text::without_newline))]
fn without_newline(text: &[u8]) -> &[u8]
    ensures { result.now ≡ without_newline text.now }
{
    text.strip_suffix(b"\n").unwrap_or(text)
}

// Reads into `text` until it is full or the reader has no more, and says how many bytes it got.
fn fill<R: Read>(reader: &mut R, text: &mut [u8]) -> io::Result<usize>
    ensures size { length text.new ≡ length text.old }
    ensures room { IfOk result (λ n. n ≤ length text.new) }
    ensures bytes { IfOk result (λ n. IfSome (R.remaining reader.old) (λ input. take n text.new ≡ take (length text.new) input)) }
{
    let mut n: usize = 0;
    // A proved loop has to end, and nothing says that a reader that is interrupted goes on at some time.
    for _ in 0..u64::MAX {
        match reader.read(&mut text[n..]) {
            Ok(0) => return Ok(n),
            Ok(more) => n += more,
            Err(e) if e.kind() == ErrorKind::Interrupted => {}
            Err(e) => return Err(e),
        }
    }
    Err(io::Error::from(ErrorKind::Interrupted))
}

// Reads as much as an entry and a newline may have, and one byte more.
fn read_text<'a, R: Read>(reader: &mut R, text: &'a mut [u8; MOST]) -> io::Result<&'a [u8]>
    ensures { IfOk result (λ read. IfSome (R.remaining reader.old) (λ input. read.now ≡ take 1026 input)) }
{
    let n = fill(reader, text)?;
    Ok(&text[..n])
}

// Writes a block of lines from number `from` on, and returns the number of the next line, where there was a line to write.
fn print_block<W: Write>(
    writer: &mut W,
    entry: &[u8],
    from: u64,
    block: &mut [u8],
) -> io::Result<Option<u64>>
    ensures range { IfOk result (λ next. IfSome next (λ n. (from < n) × (n ≤ from + (length (listing unicode16 entry.now) - from)))) }
    ensures next { IfOk result (λ next. from + length (shown unicode16 entry.now from (length block.old)) ≡ unwrap_or next from) }
    ensures written { OnOk result (Appends (W.contents writer.old) (W.contents writer.new) (together (shown unicode16 entry.now from (length block.old)))) }
{
    let listed = listing::list(entry, from, block);
    writer.write_all(&block[..listed.len.0])?;
    Ok((from < listed.next).then_some(listed.next))
}

// Writes the whole listing. A line is shorter than a block, so each block but the last has some.
fn print_listing<W: Write>(writer: &mut W, entry: &[u8]) -> io::Result<()>
    ensures { OnOk result (Appends (W.contents writer.old) (W.contents writer.new) (printed entry.now)) }
{
    let mut block = [0u8; 65536];
    let mut next: u64 = 0;
    while let Some(after) = print_block(writer, entry, next, &mut block)? {
        next = after;
    }
    Ok(())
}

// Reads an entry and writes its listing.
pub fn list_entry<R: Read, W: Write>(reader: &mut R, writer: &mut W) -> Result<(), Failure>
    ensures { OnOk result (IfSome (R.remaining reader.old) (λ input. Appends (W.contents writer.old) (W.contents writer.new) (printed (entry_in input)))) }
{
    let mut text = [0u8; MOST];
    let read = read_text(reader, &mut text).map_err(Failure::Unread)?;
    print_listing(writer, without_newline(read)).map_err(Failure::Unwritten)
}

// Says on standard error what failed, and gives the program's status.
fn report(rt: &impl Eprint, listed: Result<(), Failure>) -> ExitCode
    ensures done { OnOk listed (exit_status result ≡ 0) }
    ensures failed { OnErr listed (exit_status result ≡ 1) }
{
    match listed {
        Ok(()) => ExitCode::SUCCESS,
        Err(failure) => {
            // Where that line cannot be written either, the status alone is left to tell.
            let _ = eprintln!(rt; "keylist: {failure}");
            ExitCode::FAILURE
        }
    }
}

// Reads an entry from standard input and prints its listing.
pub fn run(rt: &(impl Input + Print + Eprint)) -> ExitCode
    ensures { exit_status result ≤ 1 }
{
    let listed = list_entry(&mut rt.reader(), &mut io::writer(rt));
    report(rt, listed)
}
