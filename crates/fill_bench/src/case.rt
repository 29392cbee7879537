//! One routine under one order.
use crate::setting::Setting;
use filling::filling::fill_in;
use judge::judge;
use levels::ranked::Ranked;
use row_layout::{COLUMNS, LEVELS};
use shapes::Shape;
use std::alloc::{AllocError, Global};
use std::time::Instant;
use std::{fmt, io};

/// A routine, what is given of its rows, and the rows that are filled in.
#[derive(Drop)]
pub(crate) struct Case<'c, O> {
    words: Vec<u16>,
    given: Vec<u16>,
    rows: Vec<u16>,
    order: &'c O,
}

/// What came of filling a routine in.
#[derive(Clone, Copy)]
pub(crate) struct Outcome {
    filled_in: bool,
    accepted: bool,
    above: usize,
}

/// The shortest times in nanoseconds, and what came of it.
#[derive(Clone, Copy)]
pub(crate) struct Times {
    filling: u128,
    judging: u128,
    outcome: Outcome,
}

impl<'c, O: Ranked> Case<'c, O> {
    /// A routine of a shape and a length, with the levels of a setting in its first row.
    pub(crate) fn new(
        heap: Global,
        order: &'c O,
        setting: Setting,
        shape: Shape,
        len: u16,
    ) -> Result<Self, AllocError> {
        let mut given = shape.rows(heap, len)?;
        for (register, level) in (0..32).zip(&mut given) {
            *level = setting.level(register);
        }
        Ok(Case {
            words: shape.words(heap, len)?,
            given,
            rows: shape.rows(heap, len)?,
            order,
        })
    }

    /// Fills the rows in, and answers whether that was refused by nothing.
    fn fill_in(&mut self) -> bool {
        let Case {
            words,
            given,
            rows,
            order,
        } = self;
        fill_in(
            words.as_slice(),
            given.as_slice(),
            *order,
            rows.as_mut_slice(),
        )
        .is_ok()
    }

    /// Whether the judge accepts the rows.
    fn is_accepted(&self) -> bool {
        judge(self.words.as_slice(), self.rows.as_slice(), self.order).is_ok()
    }

    /// How many levels of the rows lie above 0.
    fn above(&self) -> usize {
        let is_level = |index: usize| index % COLUMNS < LEVELS;
        let numbers = self.rows.iter().enumerate();
        numbers
            .filter(|(index, number)| is_level(*index) && **number > 0)
            .count()
    }

    /// Fills the rows in once.
    pub(crate) fn outcome(&mut self) -> Outcome {
        Outcome {
            filled_in: self.fill_in(),
            accepted: self.is_accepted(),
            above: self.above(),
        }
    }

    /// Fills the rows in and judges them so many times in turn.
    pub(crate) fn measure(&mut self, rt: &HostRuntime, times: u32) -> io::Result<Times> {
        let mut shortest = Times {
            filling: u128::MAX,
            judging: u128::MAX,
            outcome: self.outcome(),
        };
        for _ in 0..times {
            let start = Instant::now(rt)?;
            shortest.outcome.filled_in &= self.fill_in();
            shortest.filling = shortest.filling.min(start.elapsed(rt)?.as_nanos());
            let start = Instant::now(rt)?;
            shortest.outcome.accepted &= self.is_accepted();
            shortest.judging = shortest.judging.min(start.elapsed(rt)?.as_nanos());
        }
        Ok(shortest)
    }
}

impl fmt::Display for Outcome {
    fn fmt<W: fmt::Write>(&self, f: &mut fmt::Formatter<W>) -> fmt::Result {
        let verdict = match (self.filled_in, self.accepted) {
            (true, true) => "filled in and accepted",
            (true, false) => "filled in, and not accepted",
            (false, _) => "not filled in",
        };
        write!(f, "{verdict}, {} levels above 0", self.above)
    }
}

impl fmt::Display for Times {
    fn fmt<W: fmt::Write>(&self, f: &mut fmt::Formatter<W>) -> fmt::Result {
        let Times {
            filling,
            judging,
            outcome,
        } = self;
        let tenths = filling.saturating_mul(10) / (*judging).max(1);
        write!(
            f,
            "{filling} nanoseconds to fill in, {judging} to judge, {}.{} times as long; {outcome}",
            tenths / 10,
            tenths % 10
        )
    }
}
