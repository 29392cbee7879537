//! The judge's part: routines of shapes that cost it most.
use anyhow::anyhow;
use judge::judge;
use levels::chain::Chain;
use shapes::Shape;
use std::time::Instant;

/// The shapes, in the order in which they are judged.
const SHAPES: [Shape; 3] = [Shape::Straight, Shape::Branches, Shape::Returns];

/// The length of the longest routine.
const LONGEST: u16 = 1024;

/// Judges a routine so many times, and answers whether it was accepted each time.
fn judge_often(words: &[u16], rows: &[u16], order: &Chain, times: u32) -> bool {
    (0..times).fold(true, |all, _| judge(words, rows, order).is_ok() && all)
}

/// The order that every routine is judged with.
fn order() -> anyhow::Result<Chain> {
    Chain::new(2).map_err(|_| anyhow!("no chain of 2"))
}

/// Judges one routine of each shape, and prints the verdicts: always the same lines.
pub(crate) fn show(rt: &HostRuntime) -> anyhow::Result<()> {
    let order = order()?;
    for shape in SHAPES {
        let words = shape.words(rt.alloc(), LONGEST)?;
        let rows = shape.rows(rt.alloc(), LONGEST)?;
        let verdict = if judge_often(words.as_slice(), rows.as_slice(), &order, 1) {
            "accepted"
        } else {
            "refused"
        };
        println!(rt; "{shape} {LONGEST} words: {verdict}")?;
    }
    Ok(())
}

/// Judges a routine of a shape and a length so many times, and prints how long one judgement took.
fn measure_one(
    rt: &HostRuntime,
    order: &Chain,
    shape: Shape,
    len: u16,
    times: u32,
) -> anyhow::Result<()> {
    let words = shape.words(rt.alloc(), len)?;
    let rows = shape.rows(rt.alloc(), len)?;
    let start = Instant::now(rt)?;
    let accepted = judge_often(words.as_slice(), rows.as_slice(), order, times);
    let nanos = start.elapsed(rt)?.as_nanos() / u128::from(times.max(1));
    println!(rt; "{shape} {len} words: {nanos} nanoseconds a judgement, accepted {accepted}")?;
    Ok(())
}

/// Judges a routine of each shape and of three lengths so many times, and prints how long one judgement took.
pub(crate) fn measure(rt: &HostRuntime, times: u32) -> anyhow::Result<()> {
    let order = order()?;
    for shape in SHAPES {
        for len in [LONGEST / 4, LONGEST / 2, LONGEST] {
            measure_one(rt, &order, shape, len, times)?;
        }
    }
    Ok(())
}
