// `keylist` on an empty line: an entry of one empty part.
#![tactic(auto)]

use std::process::ExitCode;

fn main(rt: HostRuntime) -> ExitCode {
    lister::run(&rt)
}
