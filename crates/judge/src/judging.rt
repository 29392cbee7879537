//! The judgement itself.
ghost use Rattle.std.specs.Prelude.{◌≡◌, length, Ok};
ghost use Rattle.verdicts.specs.Verdict.{says};
ghost use Rattle.avr.specs.Chip.{avr};
ghost use Rattle.secrecy.specs.Rows.{rows_of};
ghost use Rattle.secrecy.specs.Hiding.{Hides};
ghost use Rattle.judge.specs.Faults.{judge_refusal};
ghost use Rattle.judge.specs.Judgement.{judgement_of, alone_of, Exactly};
ghost use Rattle.judge.specs.Refused.{RefusesExactly};

use crate::faults::JudgeFault;
use crate::judgement::Judgement;
use levels::order::Order;
use words::listing::Listing;

/// The first rule that words or rows break: the words' own, then the rows', row by row, address by address, edge by edge.
fn find_fault<O: Order>(words: &[u16], rows: &[u16], order: &O) -> Result<(), JudgeFault>
    ensures { says judge_refusal result ≡ judgement_of (O.Order.meaning order.now) words.now rows.now }
{
    Listing::check(words)?;
    let judgement = Judgement::try_new(words, rows, order)?;
    judgement.check_rows()?;
    judgement.check_addresses()?;
    judgement.check_edges()?;
    Ok(())
}

/// Judges a routine: its words, the numbers of its rows, and the order that their levels are of. Anything may be passed.
///
/// The answer is the first rule that is broken, or acceptance: where words and rows keep all rules, and only there. A rule is
/// named where it is broken and everything that comes before it is right. What is accepted hides every secret: to an observer of
/// any level, two boards that differ only in what the observer may not see answer all calls alike, cycle counts among them, and
/// all ways through a region take the cycles that its rows say.
pub fn judge<O: Order>(words: &[u16], rows: &[u16], order: &O) -> Result<(), JudgeFault>
    ensures answer { says judge_refusal result ≡ judgement_of (O.Order.meaning order.now) words.now rows.now }
    ensures accepts { Exactly (O.Order.meaning order.now) words.now rows.now result }
    ensures refuses { RefusesExactly (O.Order.meaning order.now) words.now rows.now result }
    ensures hides { result ≡ Ok tt → Hides (O.Order.meaning order.now) (avr words.now) (rows_of (length words.now) rows.now) }
{
    find_fault(words, rows, order)
}

/// Checks words, and then rows on their own: that there are as many numbers as the words call for, and, row by row, that its codes are held
/// and that it has its shape. What it refuses for, 1 to 5, the judge refuses for alike. Where words lead, and what they do to levels, is
/// not asked. Anything may be passed.
pub fn check_rows<O: Order>(words: &[u16], rows: &[u16], order: &O) -> Result<(), JudgeFault>
    ensures { says judge_refusal result ≡ alone_of (O.Order.meaning order.now) words.now rows.now }
{
    Listing::check(words)?;
    Judgement::try_new(words, rows, order)?.check_rows()?;
    Ok(())
}
