// Reads one entry from standard input and prints its keyings. `keylist_empty`, `keylist_four` and `keylist_refused` are the same program: one
// stands beside one input that it is run on.
#![tactic(auto)]

use std::process::ExitCode;

fn main(rt: HostRuntime) -> ExitCode {
    lister::run(&rt)
}
