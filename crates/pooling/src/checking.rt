//! What is refused before two sets of rows are pooled.
ghost use Rattle.std.specs.Prelude.{◌≡◌, ◌+◌, ◌*◌, ◌≤◌, ◌==◌, length};
ghost use Rattle.verdicts.specs.Verdict.{fine, says};
ghost use Rattle.words.specs.Legal.{legal_of};
ghost use Rattle.secrecy.specs.Rows.{columns};
ghost use Rattle.row_layout.specs.Views.{rows_in};
ghost use Rattle.judge.specs.Faults.{row_refusal};
ghost use Rattle.pooled.specs.Pools.{set_verdict, same_given, given_rules};
ghost use Rattle.pooling.specs.Faults.{pool_refusal};
ghost use Rattle.pooling.specs.Pooled.{pool_verdict};

use crate::fault::PoolFault;
use judge::check_rows;
use judge::faults::{JudgeFault, RowFault};
use levels::order::Order;
use row_layout::{COLUMNS, RowsView};
use words::listing::Listing;

/// Whether there are as many numbers as the rows of so many words and the finish row take.
pub(crate) fn is_whole(words: &[u16], rows: &[u16]) -> bool
    requires { length words.now ≤ 1024 }
    ensures { result ≡ (length rows.now == (length words.now + 1) * columns) }
{
    rows.len() == (words.len() + 1) * COLUMNS
}

/// What is wrong with one set of rows on its own, for words that are a listing.
fn check_set<O: Order>(words: &[u16], rows: &[u16], order: &O) -> Result<(), RowFault>
    requires { legal_of words.now ≡ fine }
    ensures { says row_refusal result ≡ set_verdict (O.Order.meaning order.now) (length words.now) rows.now }
{
    match check_rows(words, rows, order) {
        Ok(()) => Ok(()),
        Err(JudgeFault::Rows(fault)) => Err(fault),
        // No other fault is left: the words are a listing, and where they lead is not asked.
        Err(JudgeFault::Words(_)) => Ok(()),
        Err(JudgeFault::Flow(_)) => Ok(()),
    }
}

/// Two sets of rows for the same words.
#[derive(Drop)]
struct Sets<'s> {
    first: RowsView<'s>,
    second: RowsView<'s>,
    ghost same: { second.words ≡ first.words },
    ghost few: { first.words ≤ 1024 },
}

impl Sets<'_> {
    /// Whether they have the same join address, remaining cycles and function in a row.
    fn agree(&self, row: u16) -> bool
        ensures { result ≡ same_given (rows_in self.now.first) (rows_in self.now.second) row }
    {
        let row = u32::from(row);
        self.first.join_address(row) == self.second.join_address(row)
            && self.first.remaining(row) == self.second.remaining(row)
            && self.first.function(row) == self.second.function(row)
    }

    /// The first row, the finish row among them, in which they do not.
    #[tactic(auto, using(verdicts::proofs::Firsts::first_none, verdicts::proofs::Firsts::first_more))]
    fn check_given(&self) -> Result<(), PoolFault>
        ensures { says pool_refusal result ≡ given_rules self.now.first.words self.now.first.rows.now self.now.second.rows.now }
    {
        for row in 0..=self.first.words as u16 {
            if !self.agree(row) {
                return Err(PoolFault::Differ { row });
            }
        }
        Ok(())
    }
}

/// What is refused before two sets of rows are pooled.
pub(crate) fn check<O: Order>(
    words: &[u16],
    first: &[u16],
    second: &[u16],
    order: &O,
    receiving: &[u16],
) -> Result<(), PoolFault>
    ensures { says pool_refusal result ≡ pool_verdict (O.Order.meaning order.now) words.now first.now second.now receiving.now }
{
    Listing::check(words)?;
    if !is_whole(words, receiving) {
        return Err(PoolFault::Receiving);
    }
    check_set(words, first, order).map_err(PoolFault::First)?;
    check_set(words, second, order).map_err(PoolFault::Second)?;
    let sets = Sets {
        first: RowsView {
            rows: first,
            words: words.len(),
        },
        second: RowsView {
            rows: second,
            words: words.len(),
        },
    };
    sets.check_given()
}
