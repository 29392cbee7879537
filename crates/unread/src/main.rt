//! The program once more, with a malformed file before one that is refused: the run in the gate ends with status 2.
#![tactic(auto)]

use std::process::ExitCode;

fn main(rt: HostRuntime) -> ExitCode {
    program::run(&rt)
}
