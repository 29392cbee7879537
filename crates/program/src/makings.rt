//! What comes of steps that make rows: that fill levels in, or pool two sets.
ghost use Rattle.std.specs.Prelude.{◌≡◌, ◌≤◌, IfOk, length};
ghost use Rattle.std.specs.Option.{option_map};
ghost use Rattle.orders.specs.Making.{made_meaning};
ghost use Rattle.routine.specs.Routines.{draft_of};
ghost use Rattle.program.specs.Makings.{row_step_of, first_row_step, first_making, before_making, from_making, numbers_of, FillsTo, PoolsTo, MakingOf, is_made};
ghost use Rattle.program.specs.Standings.{JudgedOf, AcceptedBy, Tells, comes_out};

use crate::judging::{Judged, asks, judge_by};
use crate::standing::Standing;
use crate::working::Job;
use filling::fault::FillingFault;
use filling::filling::fill_in;
use judge::faults::JudgeFault;
use orders::making::Made;
use pooling::fault::PoolFault;
use pooling::pool;
use routine::Step;
use row_layout::COLUMNS;
use std::alloc::{AllocError, Global};
use words::listing::Listing;

/// How a step makes rows.
#[derive(Clone, Copy)]
pub(crate) enum RowStep {
    /// It fills levels in.
    Fill,
    /// It pools two sets of rows.
    Pool,
}

/// What comes of the first step that makes rows.
#[derive(Drop)]
pub(crate) enum Making {
    /// No step does.
    Unasked,
    /// There is no order to make rows by.
    Orderless,
    /// Levels are not filled in.
    Unfilled(FillingFault),
    /// Two sets are not pooled.
    Unpooled(PoolFault),
    /// The rows that were made, and what the judge says of them.
    Rows(Vec<u16>, Result<(), JudgeFault>),
}

impl Making {
    /// What the judge says of the rows that were made; nothing is asked of it where there are none.
    pub(crate) fn judged(&self) -> Judged {
        match self {
            Making::Rows(_, Ok(())) => Judged::Accepted,
            Making::Rows(_, Err(fault)) => Judged::Refused(*fault),
            Making::Orderless => Judged::Orderless,
            Making::Unasked | Making::Unfilled(_) | Making::Unpooled(_) => Judged::Unasked,
        }
    }
}

/// How a step makes rows, if it does.
fn row_step_of(step: Step) -> Option<RowStep>
    ensures { result ≡ row_step_of step }
{
    match step {
        Step::Fill => Some(RowStep::Fill),
        Step::Pool => Some(RowStep::Pool),
        Step::Judge | Step::Remaining | Step::Join { .. } | Step::Call(_) => None,
    }
}

/// How many of some steps come before the first that makes rows.
fn first_making(steps: &[Step]) -> usize
    ensures value { result ≡ first_making steps.now }
    ensures within { result ≤ length steps.now }
{
    for (at, step) in steps.iter().enumerate() {
        if row_step_of(*step).is_some() {
            return at;
        }
    }
    steps.len()
}

/// The steps before the first that makes rows.
pub(crate) fn before_making(steps: &[Step]) -> &[Step]
    ensures { result.now ≡ before_making steps.now }
{
    &steps[..first_making(steps)]
}

/// The steps from the first that makes rows on.
fn from_making(steps: &[Step]) -> &[Step]
    ensures { result.now ≡ from_making steps.now }
{
    &steps[first_making(steps)..]
}

/// How the first step makes rows that makes any.
fn first_row_step(steps: &[Step]) -> Option<RowStep>
    ensures { result ≡ first_row_step steps.now }
{
    for step in steps {
        if let Some(found) = row_step_of(*step) {
            return Some(found);
        }
    }
    None
}

/// Fills levels in, as many numbers as are given.
fn fill_by(heap: Global, words: &[u16], given: &[u16], order: &Made) -> Result<Making, AllocError>
    ensures { IfOk result (λ making. FillsTo (made_meaning order.now) words.now given.now making) }
{
    let mut rows = vec![in heap; 0u16; given.len()]?;
    match fill_in(words, given, order, rows.as_mut_slice()) {
        Ok(()) => Ok(Making::Rows(rows, Ok(()))),
        Err(fault) => Ok(Making::Unfilled(fault)),
    }
}

/// Pools two sets of rows, and judges the pool.
fn pool_by(
    heap: Global,
    words: &[u16],
    first: &[u16],
    second: &[u16],
    order: &Made,
) -> Result<Making, AllocError>
    ensures { IfOk result (λ making. PoolsTo (made_meaning order.now) words.now first.now second.now making) }
{
    // The rows of a listing are not too many.
    if let Err(fault) = Listing::check(words) {
        return Ok(Making::Unpooled(PoolFault::Words(fault)));
    }
    let mut rows = vec![in heap; 0u16; (words.len() + 1) * COLUMNS]?;
    if let Err(fault) = pool(words, first, second, order, rows.as_mut_slice()) {
        return Ok(Making::Unpooled(fault));
    }
    let verdict = judge_by(words, rows.as_slice(), order);
    Ok(Making::Rows(rows, verdict))
}

/// Whether each judgement that is asked for is acceptance: of the given rows by what came of that, and of rows that are made where there
/// are such that are accepted.
fn comes_out(judged: Judged, asks_made: bool, is_made: bool) -> bool
    ensures { result ≡ comes_out judged asks_made is_made }
{
    match judged {
        Judged::Accepted => !asks_made || is_made,
        Judged::Unasked => asks_made && is_made,
        Judged::Orderless | Judged::Refused(_) => false,
    }
}

impl Making {
    /// Whether there are rows that were made, and they are accepted.
    fn is_made(&self) -> bool
        ensures { result ≡ is_made self.now }
    {
        matches!(self, Making::Rows(_, Ok(())))
    }
}

impl<'r, 'o> Job<'r, 'o> {
    /// The numbers of the second set of rows; none where there is no such set.
    pub(crate) fn second(self) -> &'r [u16]
        ensures { result.now ≡ numbers_of (draft_of self.entry.routine.now).second }
    {
        match &self.routine.second {
            Some(set) => set.numbers.as_slice(),
            None => &[],
        }
    }

    /// Makes rows, if a step asks for it.
    pub(crate) fn make(self, heap: Global) -> Result<Making, AllocError>
        ensures { IfOk result (λ making. MakingOf (option_map (λ o. made_meaning o.now) self.entry.order) (draft_of self.entry.routine.now) making) }
    {
        let Some(step) = first_row_step(self.routine.steps.as_slice()) else {
            return Ok(Making::Unasked);
        };
        let Some(order) = self.order else {
            return Ok(Making::Orderless);
        };
        let words = self.routine.words.as_slice();
        let first = self.routine.rows.numbers.as_slice();
        match step {
            RowStep::Fill => fill_by(heap, words, first, order),
            RowStep::Pool => pool_by(heap, words, first, self.second(), order),
        }
    }

    /// How the routine comes out, by what came of judging the given rows and of making rows.
    pub(crate) fn standing(self, judged: Judged, making: &Making) -> Standing
        requires judged { JudgedOf (option_map (λ o. made_meaning o.now) self.order) (draft_of self.routine.now) judged }
        requires making { MakingOf (option_map (λ o. made_meaning o.now) self.order) (draft_of self.routine.now) making.now }
        ensures { Tells (AcceptedBy (option_map (λ o. made_meaning o.now) self.entry.order) (draft_of self.entry.routine.now)) result }
    {
        let asks_made = asks(from_making(self.routine.steps.as_slice()));
        if comes_out(judged, asks_made, making.is_made()) {
            Standing::Accepted
        } else {
            Standing::Unaccepted
        }
    }
}
