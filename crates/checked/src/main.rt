//! The program once more, with files that are all accepted: the run in the gate ends with status 0.
#![tactic(auto)]

use std::process::ExitCode;

fn main(rt: HostRuntime) -> ExitCode {
    program::run(&rt)
}
