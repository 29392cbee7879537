//! The largest remaining number.
ghost use Rattle.std.specs.Prelude.{◌≡◌, ◌≤◌, length, IfOk};
ghost use Rattle.verdicts.specs.Verdict.{says};
ghost use Rattle.secrecy.specs.Rows.{rows_of};
ghost use Rattle.row_layout.specs.Views.{rows_in};
ghost use Rattle.pooling.specs.Faults.{count_refusal};
ghost use Rattle.pooling.specs.Largest.{LargestRemaining, count_verdict};

use crate::checking::is_whole;
use crate::fault::CountFault;
use joins::{Larger, fold};
use row_layout::RowsView;
use std::array;
use words::listing::Listing;

/// The most rows that a routine can have: those of 1,024 words, and the finish row.
const MOST_ROWS: usize = 1025;

/// The largest remaining number of rows of at most 1,024 words, the finish row among them.
fn largest(rows: &RowsView<'_>) -> u16
    requires { rows.now.words ≤ 1024 }
    ensures { LargestRemaining rows.now.words (rows_in rows.now) result }
{
    let remaining: [u16; MOST_ROWS] = array::from_fn(|row| rows.remaining(row as u32));
    fold(&Larger, &remaining)
}

/// The largest remaining number in the rows of some words, the finish row among them, in cycles. Anything may be passed. Refused are words that are no
/// listing, and then rows that are not as many numbers as the words call for; nothing else is asked of the rows.
pub fn largest_remaining(words: &[u16], rows: &[u16]) -> Result<u16, CountFault>
    ensures refuses { says count_refusal result ≡ count_verdict words.now rows.now }
    ensures largest { IfOk result (LargestRemaining (length words.now) (rows_of (length words.now) rows.now)) }
{
    Listing::check(words)?;
    if !is_whole(words, rows) {
        return Err(CountFault::Count);
    }
    Ok(largest(&RowsView {
        rows,
        words: words.len(),
    }))
}
