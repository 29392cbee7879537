//! How fast board and judge are.
//!
//! Without arguments one short run of a board and one judgement of each shape of routine are made and printed, always the same
//! lines. `bench board N` makes N long runs of a board and prints how fast they went, and `bench judge N` judges routines of
//! each shape, of three lengths, N times and prints how long that took.
#![tactic(auto)]

mod judging;
mod running;

use anyhow::anyhow;
use std::env;

/// What is to be measured.
#[derive(Clone, Copy)]
enum Measured {
    /// So many long runs of a board.
    Runs(u32),
    /// So many judgements of each routine.
    Judgements(u32),
}

/// What the arguments ask for, if there are any.
fn asked(rt: &HostRuntime) -> anyhow::Result<Option<Measured>> {
    let mut words = env::args(rt)?.skip(1);
    let Some(part) = words.next() else {
        return Ok(None);
    };
    let times = words.next().ok_or_else(|| anyhow!("how many times?"))?;
    let times = times.as_str().parse()?;
    match part.as_str() {
        "board" => Ok(Some(Measured::Runs(times))),
        "judge" => Ok(Some(Measured::Judgements(times))),
        _ => Err(anyhow!("measure what: board or judge?")),
    }
}

/// Measures what is asked for, or shows one of each.
fn bench(rt: &HostRuntime) -> anyhow::Result<()> {
    match asked(rt)? {
        Some(Measured::Runs(runs)) => running::measure(rt, runs),
        Some(Measured::Judgements(times)) => judging::measure(rt, times),
        None => {
            running::show(rt)?;
            judging::show(rt)
        }
    }
}

fn main(rt: HostRuntime) -> anyhow::Result<()> {
    bench(&rt)
}
