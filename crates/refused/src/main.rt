//! The program once more, with a file that is refused between two that are accepted: the run in the gate ends with status 1.
#![tactic(auto)]

use std::process::ExitCode;

fn main(rt: HostRuntime) -> ExitCode {
    program::run(&rt)
}
