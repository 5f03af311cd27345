// `keylist` on a text of 1,025 bytes, one more than an entry has.
#![tactic(auto)]

use std::process::ExitCode;

fn main(rt: HostRuntime) -> ExitCode {
    lister::run(&rt)
}
