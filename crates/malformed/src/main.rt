//! Reads routine files that are malformed, one for each thing that can be wrong with a file, and prints what is said of each.
//!
//! The program `dulkyamo` says the same on standard error, which a run in the gate does not compare: so the texts
//! are tested here. It stands on `routine` alone, and carries nothing out.
#![tactic(auto)]

use std::{env, fs, io};

fn main(rt: HostRuntime) -> io::Result<()> {
    for name in env::args(&rt)?.skip(1) {
        report(&rt, name.as_str())?;
    }
    Ok(())
}

/// Prints what is wrong with a file, and at which line.
fn report(rt: &HostRuntime, name: &str) -> io::Result<()> {
    let file = fs::read(rt, name)?;
    match routine::read(rt.alloc(), file.as_slice()) {
        Ok(_) => println!(rt; "{name}: well formed"),
        Err(fault) => println!(rt; "{name}:{fault}"),
    }
}
