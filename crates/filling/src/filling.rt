//! Levels filled in.
ghost use Rattle.std.specs.Prelude.{◌≡◌, ℕ, ◌%◌, ◌≤◌, ◌&&◌, ◌==◌, List, true, false, cond, nat_le, nat_lt, length, slice_index, Ok, Err};
ghost use Rattle.filling.specs.declared.fault.FillingFault.TheVariants.{Unfillable};
ghost use Rattle.verdicts.specs.Verdict.{fine, says};
ghost use Rattle.words.specs.Legal.{legal_of};
ghost use Rattle.avr.specs.Chip.{avr};
ghost use Rattle.secrecy.specs.Rows.{rows_of, columns, join_column};
ghost use Rattle.secrecy.specs.Rules.{length_rule};
ghost use Rattle.secrecy.specs.Hiding.{Hides};
ghost use Rattle.secrecy.specs.Filling.{FillsIn, LeastIn};
ghost use Rattle.judge.specs.Faults.{row_refusal};
ghost use Rattle.filling.specs.Seeds.{is_read as is_read_at, seed_of, FirstAlone, given_verdict};
ghost use Rattle.filling.specs.Between.{Between};
ghost use Rattle.filling.specs.Answers.{filling_refusal, zeros_of, Answered, LeastIsOne, SettlingAnswered, LeastSettledIsOne};

use crate::fault::FillingFault;
use crate::reading::{Reading, is_given};
use crate::settling::{Job, callees, decode};
use judge::faults::RowFault;
use judge::judge;
use levels::order::Order;
use levels::ranked::Ranked;
use row_layout::{COLUMNS, JOIN, RowsView};
use words::listing::Listing;

/// Whether there are as many numbers as the rows of so many words and the finish row take.
fn check_length(words: &[u16], rows: &[u16]) -> Result<(), RowFault>
    requires { legal_of words.now ≡ fine }
    ensures { says row_refusal result ≡ length_rule (length words.now) rows.now }
{
    if rows.len() != (words.len() + 1) * COLUMNS {
        return Err(RowFault::Count);
    }
    Ok(())
}

/// What is refused before any level is filled in.
fn check<O: Order>(
    words: &[u16],
    given: &[u16],
    order: &O,
    receiving: &[u16],
) -> Result<(), FillingFault>
    ensures answer { says filling_refusal result ≡ given_verdict (O.Order.meaning order.now) words.now given.now receiving.now }
    ensures early { result ≡ Err Unfillable → ⊥ }
{
    Listing::check(words)?;
    check_length(words, given)?;
    check_length(words, receiving)?;
    let rows = RowsView {
        rows: given,
        words: words.len(),
    };
    let reading = Reading { rows, order };
    reading.check_rows()?;
    Ok(())
}

/// The first column that is read of a row, with all behind it: of the first row everything is read, and of any other no level.
fn first_read(row: usize) -> usize
    ensures { result ≡ cond (row == 0) 0 join_column }
{
    if row == 0 { 0 } else { usize::from(JOIN) }
}

/// Writes the numbers of given rows from one index up to another to receiving ones.
#[tactic(auto, using(crate::proofs::Seeding::copied))]
fn copy(given: &[u16], receiving: &mut [u16], from: usize, to: usize)
    requires length { length receiving.old ≡ length given.now }
    requires order { from ≤ to }
    requires within { to ≤ length given.now }
    ensures { (k : ℕ) → slice_index receiving.new k ≡ cond (nat_le from k && nat_lt k to) (slice_index given.now k) (slice_index receiving.old k) }
{
    receiving[from..to].copy_from_slice(&given[from..to]);
}

/// Writes what is read of given rows to receiving ones, and 0 elsewhere.
fn seed(given: &[u16], receiving: &mut [u16])
    requires length { length receiving.old ≡ length given.now }
    requires whole { length given.now % columns ≡ 0 }
    ensures { receiving.new ≡ seed_of given.now }
{
    receiving.fill(0);
    for row in 0..given.len() / COLUMNS {
        copy(
            given,
            receiving,
            row * COLUMNS + first_read(row),
            (row + 1) * COLUMNS,
        );
    }
}

/// Whether the number at an index of a list of rows is read.
fn is_read(index: usize) -> bool
    ensures { result ≡ is_read_at index }
{
    index < COLUMNS || is_given((index % COLUMNS) as u16)
}

/// The number at an index of given rows, as filling in reads it: 0 where it is not read.
pub fn read(index: usize, number: u16) -> u16
    ensures { result ≡ cond (is_read_at index) number 0 }
{
    if is_read(index) { number } else { 0 }
}

/// Writes 0 to every number of some rows.
fn zero_out(rows: &mut [u16])
    ensures { rows.new ≡ zeros_of rows.old }
{
    rows.fill(0);
}

/// Raises levels until they settle: the receiving rows become the least rows that have the given join addresses, remaining cycles and
/// functions, in whose first row no level lies below the given one, and in which every level flows on along every way. The same is read
/// and refused as by `fill_in`, but for its last refusal: where the judge refuses the settled rows, no accepted rows have what is given,
/// and the rule that it names is the first that the least levels break. Two least sets of settled rows are the same.
pub fn settle_levels<O: Ranked>(
    words: &[u16],
    given: &[u16],
    order: &O,
    receiving: &mut [u16],
) -> Result<(), FillingFault>
    ensures answer { SettlingAnswered (O.Order.meaning order.now) words.now given.now receiving.old receiving.new result }
    ensures one { LeastSettledIsOne (O.Order.meaning order.now) words.now given.now }
{
    if let Err(fault) = check(words, given, order, receiving) {
        return Err(fault);
    }
    seed(given, receiving);
    let instructions = decode(words);
    let job = Job {
        words,
        given,
        order,
        instructions,
        callees: callees(&instructions),
    };
    job.settle(receiving);
    Ok(())
}

/// Fills levels in: the receiving rows become the least rows that the judge accepts with these words and this order, among those that
/// have the given join addresses, remaining cycles and functions and in whose first row no level lies below the given one. Of the given rows
/// the levels of the first row are read, and of all rows these three columns; other levels are not. Anything may be passed.
///
/// Refused, with the receiving rows as they were: words that are no listing; given rows, and then receiving rows, that are not as
/// many numbers as the words call for; and, row by row, a code that is read and not held, and a wrong shape by what is read. If no
/// accepted rows have what is given, that is refused too, and the receiving rows become zeros.
///
/// What is promised of accepted rows holds of the rows filled in. Two least sets of rows are the same.
pub fn fill_in<O: Ranked>(
    words: &[u16],
    given: &[u16],
    order: &O,
    receiving: &mut [u16],
) -> Result<(), FillingFault>
    ensures answer { Answered (O.Order.meaning order.now) words.now given.now receiving.old receiving.new result }
    ensures hides { result ≡ Ok tt → Hides (O.Order.meaning order.now) (avr words.now) (rows_of (length words.now) receiving.new) }
    ensures one { LeastIsOne (O.Order.meaning order.now) words.now given.now }
{
    settle_levels(words, given, order, receiving)?;
    if judge(words, receiving, order).is_err() {
        zero_out(receiving);
        return Err(FillingFault::Unfillable);
    }
    Ok(())
}
