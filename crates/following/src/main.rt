//! Makes balanced routines at random, gives the rows inside their region numbers at random, follows one hint after another, and sees
//! that the judge accepts each routine in no more steps than there are edges inside.
//!
//! A test and no proof: that one hint makes its way right is proved in `explanations`, and here is tried that hints do not go in a circle.
#![tactic(auto)]

mod made;

use crate::made::{Made, Random};
use anyhow::anyhow;
use explanations::{Hint, Refusal};
use judge::judge;
use levels::chain::Chain;
use row_layout::{Column, RoutineView};

/// How many routines are made.
const ROUTINES: u32 = 300;

fn main(rt: HostRuntime) -> anyhow::Result<()> {
    let mut random = Random::new();
    let order = Chain::new(2).map_err(|_| anyhow!("no chain"))?;
    let mut mended = 0u32;
    for _ in 0..ROUTINES {
        let mut made = Made::at_random(rt.alloc(), &mut random)?;
        mended = mended.saturating_add(u32::from(is_mended(&mut made, &order)));
    }
    println!(rt;
        "{mended} of {ROUTINES} routines mended in no more steps than they have edges inside"
    )?;
    Ok(())
}

/// Follows one hint after another, and answers whether the routine is accepted after as many as it has edges inside, or fewer.
fn is_mended(made: &mut Made, order: &Chain) -> bool {
    for _ in 0..=made.edges {
        match next_hint(made, order) {
            Ok(()) => return true,
            Err(Some(hint)) => obey(made, hint),
            Err(None) => return false,
        }
    }
    false
}

/// The hint of the first refusal, if there is one; nothing, where the routine is accepted.
fn next_hint(made: &Made, order: &Chain) -> Result<(), Option<Hint>> {
    let words = made.words.as_slice();
    let rows = made.rows.as_slice();
    judge(words, rows, order).map_err(|fault| {
        let routine = RoutineView::new(words, rows);
        Refusal { fault, routine }.hint()
    })
}

/// Changes a row as a hint says, and puts it into the region.
fn obey(made: &mut Made, hint: Hint) {
    let row = hint.row as usize;
    made.set(row, Column::Join, hint.join);
    made.set(row, Column::Remaining, hint.remaining);
    made.set(row, Column::Region, 1);
}
