// The program: reads a list from standard input, one record after the other, and replays each. Then it writes how many records there were
// of each call, and how many differed. No contract can say what standard input holds, so they speak of what was read.
ghost use Rattle.std.specs.Prelude.{◌≡◌, true, ◌+◌, length, IfOk};
ghost use Rattle.std.specs.Bool.{OnTrue};
ghost use Rattle.std.specs.Io.KnownBytes.{Consumes};
ghost use Rattle.replay.specs.Record.{replayable};
ghost use Rattle.replay.specs.Replay.{Judges};

use crate::record::Header;
use crate::{agrees, record};
use std::io;
use std::io::{ErrorKind, Read};

// The calls by their numbers.
const NAMES: [&str; 13] = [
    "strip",
    "tone_letter",
    "nfd",
    "nfc",
    "strip_khin",
    "has_tone_letter",
    "keys",
    "from_raw",
    "compose",
    "candidate",
    "keying",
    "telex",
    "align",
];

// What one record of the list came to: the call and whether it replied as the record says. The four cases stand beside each other, since the list's end and a
// record that cannot be replayed are no errors of the reader, of which the Result tells.
#[derive(Clone, Copy)]
enum Outcome {
    Same(u8),
    Different(u8),
    // The list is cut off, or has a record that cannot be replayed.
    Malformed,
    End,
}

// How many records there were of a call, and how many of them differed.
#[derive(Clone, Copy)]
struct Count {
    records: u64,
    different: u64,
}

// The counts by the call's number, and whether the list did not come to its end.
#[derive(Clone, Copy)]
struct Tally {
    counts: [Count; 13],
    malformed: bool,
}

impl Tally {
    // Counts a record, and a difference.
    fn count(&mut self, call: u8, difference: bool) {
        if let Some(count) = self.counts.get_mut(usize::from(call)) {
            count.records = count.records.saturating_add(1);
            count.different = count.different.saturating_add(u64::from(difference));
        } else {
            self.malformed = true;
        }
    }
}

// Fills the buffer, and says whether the input had that much.
fn fill<R: Read>(reader: &mut R, buffer: &mut [u8]) -> io::Result<bool>
    ensures { IfOk result (λ full. OnTrue full (Consumes (R.remaining reader.old) (R.remaining reader.new) buffer.new)) }
{
    match reader.read_exact(buffer) {
        Ok(()) => Ok(true),
        Err(e) if e.kind() == ErrorKind::UnexpectedEof => Ok(false),
        Err(e) => Err(e),
    }
}

// Reads what stands behind a header, and replays the record.
fn replay_body<R: Read>(reader: &mut R, h: Header, body: &mut [u8]) -> io::Result<Outcome>
    requires { (replayable h ≡ true) × (h.input + h.other + h.wanted ≡ length body.old) }
    ensures { IfOk result (Judges h body.new) }
{
    if !fill(reader, body)? {
        return Ok(Outcome::Malformed);
    }
    if agrees(h, body) {
        Ok(Outcome::Same(h.call))
    } else {
        Ok(Outcome::Different(h.call))
    }
}

// Reads one record, and replays it.
fn replay_one<R: Read>(reader: &mut R) -> io::Result<Outcome> {
    let mut header = [0u8; 36];
    // The list may end where a record would begin, and nowhere else.
    if !fill(reader, &mut header[..1])? {
        return Ok(Outcome::End);
    }
    if !fill(reader, &mut header[1..])? {
        return Ok(Outcome::Malformed);
    }
    let h = record::read(&header);
    if !record::is_replayable(h) {
        return Ok(Outcome::Malformed);
    }
    let size = h.input + h.other + h.wanted;
    let mut body = [0u8; 9216];
    replay_body(reader, h, &mut body[..size])
}

fn replay_all<R: Read>(reader: &mut R) -> io::Result<Tally> {
    let none = Count {
        records: 0,
        different: 0,
    };
    let mut t = Tally {
        counts: [none; 13],
        malformed: false,
    };
    // A proved loop has to end, and nothing says that the input does. So the loop counts its turns, to a number that no run comes to.
    for _ in 0..u64::MAX {
        match replay_one(reader)? {
            Outcome::Same(call) => t.count(call, false),
            Outcome::Different(call) => t.count(call, true),
            Outcome::Malformed => break,
            Outcome::End => return Ok(t),
        }
    }
    t.malformed = true;
    Ok(t)
}

pub(crate) fn run(rt: &(impl Input + Print)) -> io::Result<()> {
    let t = replay_all(&mut rt.reader())?;
    for (name, count) in NAMES.iter().zip(&t.counts) {
        let Count { records, different } = *count;
        println!(rt; "{name} {records} {different}")?;
    }
    let malformed = u64::from(t.malformed);
    println!(rt; "malformed {malformed}")
}
