//! Two sets of rows pooled.
ghost use Rattle.std.specs.Prelude.{◌≡◌, ℕ, ◌<◌, cond, true, length, slice_index, Ok};
ghost use Rattle.verdicts.specs.Verdict.{says};
ghost use Rattle.pooled.specs.Pools.{is_level as is_level_at, pool_of};
ghost use Rattle.pooled.specs.Sequences.{AnySequence};
ghost use Rattle.pooling.specs.Faults.{pool_refusal};
ghost use Rattle.pooling.specs.Pooled.{pool_verdict, left_by, Pooled};

use crate::checking::check;
use crate::fault::PoolFault;
use joins::{Levels, fold};
use levels::order::Order;
use row_layout::{COLUMNS, LEVELS};

/// Whether the number at an index of a list of rows is the code of a level.
#[tactic(auto, using(pooled::proofs::Sets::level_at))]
fn is_level(index: usize) -> bool
    ensures { result ≡ is_level_at index }
{
    index % COLUMNS < LEVELS
}

/// The number at an index of two sets of rows pooled: of two levels, which are held, the join, and else the first one.
fn combine_at<O: Order>(order: &O, index: usize, first: u16, second: u16) -> u16
    requires first { is_level_at index ≡ true → (O.Order.meaning order.now).held first ≡ true }
    requires second { is_level_at index ≡ true → (O.Order.meaning order.now).held second ≡ true }
    ensures { result ≡ cond (is_level_at index) ((O.Order.meaning order.now).join first second) first }
{
    if is_level(index) {
        fold(&Levels { order }, &[first, second])
    } else {
        first
    }
}

/// Writes two sets of rows, pooled, to receiving ones.
fn combine<O: Order>(first: &[u16], second: &[u16], order: &O, receiving: &mut [u16])
    requires long { length second.now ≡ length first.now }
    requires room { length receiving.old ≡ length first.now }
    requires first { (i : ℕ) → i < length first.now → is_level_at i ≡ true → (O.Order.meaning order.now).held (slice_index first.now i) ≡ true }
    requires second { (i : ℕ) → i < length first.now → is_level_at i ≡ true → (O.Order.meaning order.now).held (slice_index second.now i) ≡ true }
    ensures { receiving.new ≡ pool_of (O.Order.meaning order.now) first.now second.now }
{
    for (index, number) in first.iter().enumerate() {
        receiving[index] = combine_at(order, index, *number, second[index]);
    }
}

/// Pools two sets of rows of one routine: each level, columns 0 to 35 of every row and of the finish row, becomes the join of the two, and
/// the join addresses, remaining cycles and functions are those that both have. Anything may be passed.
///
/// Refused, with the receiving rows as they were: words that are no listing; receiving rows that are not as many numbers as the words call
/// for; what the judge refuses of the first set by itself, its length, and row by row a code that is not held and a wrong shape; the
/// same of the second set; and the first row in which the sets differ in join address, remaining cycles or function. Whether the sets
/// are accepted is not asked.
///
/// If the judge accepts both, it accepts the pool. The pool is the least set that lies at or above both. Several sets are pooled to the same
/// rows in whatever sequence and bracketing.
pub fn pool<O: Order>(
    words: &[u16],
    first: &[u16],
    second: &[u16],
    order: &O,
    receiving: &mut [u16],
) -> Result<(), PoolFault>
    ensures answer { says pool_refusal result ≡ pool_verdict (O.Order.meaning order.now) words.now first.now second.now receiving.old }
    ensures rows { receiving.new ≡ left_by (O.Order.meaning order.now) words.now first.now second.now (says pool_refusal result) receiving.old }
    ensures pooled { result ≡ Ok tt → Pooled (O.Order.meaning order.now) words.now first.now second.now receiving.new }
    ensures sequences { AnySequence (O.Order.meaning order.now) (length words.now) }
{
    check(words, first, second, order, receiving)?;
    combine(first, second, order, receiving);
    Ok(())
}
