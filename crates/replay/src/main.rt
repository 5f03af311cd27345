// Replays fixed lists, which standard input holds: the Rust's answers to the calls, then the rows of NormalizationTest.txt. Each record of a
// list is a call and the reply to it. Prints a line for each call: how many records there were, and how many replies differed.
#![tactic(auto)]

mod calls;
mod expected;
mod program;
mod record;

ghost use Rattle.std.specs.Prelude.{◌≡◌, true, ◌+◌, ◌≤◌, length};
ghost use Rattle.replay.specs.Record.{replayable};
ghost use Rattle.std.specs.Bool.{Decides};
ghost use Rattle.replay.specs.Replay.{Agrees};

use crate::calls::answer;
use crate::expected::{fresh_buffer, is_as_said};
use crate::record::Header;
use std::io;

// Whether the call of a record replies as the record says. `body` is the record behind its header.
fn agrees(h: Header, body: &[u8]) -> bool
    requires { (replayable h ≡ true) × (h.input + h.other + h.wanted ≤ length body.now) }
    ensures { Decides result (Agrees h body.now) }
{
    let input = h.input;
    let middle = input + h.other;
    let end = middle + h.wanted;
    let mut buffer = fresh_buffer();
    let reply = answer(h, &body[..input], &body[input..middle], &mut buffer);
    is_as_said(h, &body[middle..end], reply, &buffer)
}

fn main(rt: HostRuntime) -> io::Result<()> {
    program::run(&rt)
}
