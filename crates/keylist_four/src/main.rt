// `keylist` on four parts that hold U+0358, so that each part has four choices.
#![tactic(auto)]

use std::process::ExitCode;

fn main(rt: HostRuntime) -> ExitCode {
    lister::run(&rt)
}
