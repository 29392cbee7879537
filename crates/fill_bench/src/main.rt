//! How fast levels are filled in, beside how fast the rows that come of it are judged.
//!
//! Without arguments each routine is filled in once under each order, and how many levels came to lie above 0 is printed, always the same
//! lines. `fill_bench N` fills each in and judges it N times in turn, and prints the shortest time of both, and their ratio.
//! `fill_bench N WORDS` takes routines of so many words instead of 1,024.
#![tactic(auto)]

mod case;
mod setting;

use crate::case::Case;
use crate::setting::Setting;
use anyhow::anyhow;
use levels::chain::Chain;
use levels::compartments::Compartments;
use levels::ranked::Ranked;
use shapes::Shape;
use std::env;

/// The length of the longest routine.
const LONGEST: u16 = 1024;

/// The shapes, in the order in which they are filled in.
const SHAPES: [Shape; 8] = [
    Shape::Spreads,
    Shape::Forks,
    Shape::Loops,
    Shape::Backward,
    Shape::Calls,
    Shape::Nested,
    Shape::Rotations,
    Shape::RotatedCalls,
];

/// How much is to be measured.
#[derive(Clone, Copy)]
struct Measure {
    times: u32,
    len: u16,
}

/// What the arguments ask for, if there are any.
fn asked(rt: &HostRuntime) -> anyhow::Result<Option<Measure>> {
    let mut words = env::args(rt)?.skip(1);
    let Some(times) = words.next() else {
        return Ok(None);
    };
    let len = match words.next() {
        Some(len) => len.as_str().parse()?,
        None => LONGEST,
    };
    Ok(Some(Measure {
        times: times.as_str().parse()?,
        len,
    }))
}

/// Fills in and judges a routine as often as is asked for, or shows what comes of it.
fn run<O: Ranked>(
    rt: &HostRuntime,
    order: &O,
    setting: Setting,
    shape: Shape,
    measure: Option<Measure>,
) -> anyhow::Result<()> {
    let len = measure.map_or(LONGEST, |measure| measure.len);
    let mut case = Case::new(rt.alloc(), order, setting, shape, len)?;
    match measure {
        Some(measure) => {
            let times = case.measure(rt, measure.times)?;
            println!(rt; "{shape}, {setting}: {times}")?;
        }
        None => {
            let outcome = case.outcome();
            println!(rt; "{shape}, {setting}: {outcome}")?;
        }
    }
    Ok(())
}

/// Goes through all shapes, each under each order.
fn bench(rt: &HostRuntime) -> anyhow::Result<()> {
    let measure = asked(rt)?;
    let short = Chain::new(2).map_err(|_| anyhow!("no chain of 2"))?;
    let long = Chain::new(256).map_err(|_| anyhow!("no chain of 256"))?;
    let sets = Compartments::new(16).map_err(|_| anyhow!("no 16 compartments"))?;
    for shape in SHAPES {
        run(rt, &short, Setting::Short, shape, measure)?;
        run(rt, &long, Setting::Long, shape, measure)?;
        run(rt, &sets, Setting::Sets, shape, measure)?;
    }
    Ok(())
}

fn main(rt: HostRuntime) -> anyhow::Result<()> {
    bench(&rt)
}
