//! Routines, as a file makes them.
ghost use Rattle.std.specs.Prelude.{◌≡◌};
ghost use Rattle.orders.specs.Written.{written_of};
ghost use Rattle.routine.specs.Statements.{stated_of, words as said_words, rows as said_rows, row as said_row};
ghost use Rattle.routine.specs.Routines.{draft_of, nothing, started, rows_begun, word_line, row_line, second_row_line, ordered, second_begun, excluded_above, lacks_second, above, with_next, accepted};
ghost use Rattle.routine.specs.Answers.{Makes};

use crate::faults::{Expected, Fault, Malformed};
use crate::keywords::Keyword;
use crate::rows::{Entry, RowName};
use crate::sets::RowSet;
use crate::statements::Statement;
use crate::steps::Step;
use crate::stretches::{Stretch, line_of};
use orders::written::OrderText;
use std::alloc::Global;

/// What a file says of a routine.
#[derive(Drop)]
pub struct Routine {
    /// Its words.
    pub words: Vec<u16>,
    /// The lines on which its words stand.
    pub word_lines: Vec<Stretch>,
    /// The order of its levels, if the file names one.
    pub order: Option<OrderText>,
    /// Its rows.
    pub rows: RowSet,
    /// The second set of its rows, if the file begins one.
    pub second: Option<RowSet>,
    /// What is to be done with it, in order.
    pub steps: Vec<Step>,
}

impl Routine {
    /// A routine of which nothing was said yet.
    pub(crate) fn new(heap: Global) -> Routine
        ensures { draft_of result ≡ nothing }
    {
        Routine {
            words: Vec::new(heap),
            word_lines: Vec::new(heap),
            order: None,
            rows: RowSet::new(heap),
            second: None,
            steps: Vec::new(heap),
        }
    }

    /// Whether something is to be done already.
    fn has_started(&self) -> bool
        ensures { result ≡ started (draft_of self.now) }
    {
        !self.steps.is_empty()
    }

    /// Whether rows are written already, or the second set of them has begun.
    fn has_rows(&self) -> bool
        ensures { result ≡ rows_begun (draft_of self.now) }
    {
        self.rows.form.is_some() || self.second.is_some()
    }

    /// The line of a file on which the word at an address stands.
    pub fn word_line(&self, at: u16) -> Option<usize>
        ensures { result ≡ word_line (draft_of self.now) at }
    {
        line_of(self.word_lines.as_slice(), usize::from(at))
    }

    /// The line of a file on which a row was written last.
    pub fn row_line(&self, row: u32) -> Option<usize>
        ensures { result ≡ row_line (draft_of self.now) row }
    {
        self.rows.row_line(row)
    }

    /// The line of a file on which a row of the second set was written last; none where there is no second set.
    pub fn second_row_line(&self, row: u32) -> Option<usize>
        ensures { result ≡ second_row_line (draft_of self.now) row }
    {
        self.second.as_ref()?.row_line(row)
    }

    /// Takes one statement more, which stands on a line.
    pub(crate) fn accept(
        &mut self,
        heap: Global,
        line: usize,
        statement: Statement,
    ) -> Result<(), Fault>
        ensures { Makes draft_of result self.old self.new (λ d. accepted line d (stated_of statement)) }
    {
        match statement {
            Statement::Words(words) => self.add_words(line, words),
            Statement::Order(order) => self.set_order(order),
            Statement::Rows(numbers) => self.add_rows(line, numbers),
            Statement::Row { name, entries } => self.add_row(line, name, entries),
            Statement::Second => self.begin_second(heap),
            Statement::Step(step) => self.add_step(step),
        }
    }

    /// Appends words, which come before all else.
    fn add_words(&mut self, line: usize, words: Vec<u16>) -> Result<(), Fault>
        ensures { Makes draft_of result self.old self.new (λ d. accepted line d (said_words words.items)) }
    {
        if self.order.is_some() || self.has_rows() || self.has_started() {
            return Err(Malformed::misplaced(Expected::Sequence, Keyword::Words).into());
        }
        let stretch = Stretch {
            first: self.words.len(),
            count: words.len(),
            line,
        };
        self.words.extend_from_slice(words.as_slice())?;
        self.word_lines.push(stretch)?;
        Ok(())
    }

    /// Sets the order, which comes before the steps.
    fn set_order(&mut self, order: OrderText) -> Result<(), Fault>
        ensures { Makes draft_of result self.old self.new (λ d. ordered d (written_of order)) }
    {
        if self.has_started() {
            return Err(Malformed::misplaced(Expected::Sequence, Keyword::Order).into());
        }
        if self.order.is_some() {
            return Err(Malformed::misplaced(Expected::OneOrder, Keyword::Order).into());
        }
        self.order = Some(order);
        Ok(())
    }

    /// Begins the second set of rows, which comes before the steps.
    fn begin_second(&mut self, heap: Global) -> Result<(), Fault>
        ensures { Makes draft_of result self.old self.new second_begun }
    {
        if self.has_started() {
            return Err(Malformed::misplaced(Expected::Sequence, Keyword::Second).into());
        }
        if self.second.is_some() {
            return Err(Malformed::misplaced(Expected::OneSecond, Keyword::Second).into());
        }
        self.second = Some(RowSet::new(heap));
        Ok(())
    }

    /// Appends plain numbers of rows, which come before the steps, to the set that has begun last.
    fn add_rows(&mut self, line: usize, numbers: Vec<u16>) -> Result<(), Fault>
        ensures { Makes draft_of result self.old self.new (λ d. accepted line d (said_rows numbers.items)) }
    {
        if self.has_started() {
            return Err(Malformed::misplaced(Expected::Sequence, Keyword::Rows).into());
        }
        let numbers = numbers.as_slice();
        match &mut self.second {
            Some(second) => second.add_numbers(line, numbers),
            None => self.rows.add_numbers(line, numbers),
        }
    }

    /// Writes values of a row, which come before the steps, in the set that has begun last.
    fn add_row(&mut self, line: usize, name: RowName, entries: Vec<Entry>) -> Result<(), Fault>
        ensures { Makes draft_of result self.old self.new (λ d. accepted line d (said_row name entries.items)) }
    {
        if self.has_started() {
            return Err(Malformed::misplaced(Expected::Sequence, Keyword::Row).into());
        }
        let words = self.words.len();
        let entries = entries.as_slice();
        match &mut self.second {
            Some(second) => second.add_row(line, words, name, entries),
            None => self.rows.add_row(line, words, name, entries),
        }
    }

    /// Whether a step stands above that another one excludes.
    fn has_excluded(&self, step: Step) -> bool
        ensures { result ≡ excluded_above (draft_of self.now) step }
    {
        self.steps.iter().any(|earlier| step.excludes(*earlier))
    }

    /// Whether a step asks a second set of rows, and none has begun.
    fn lacks_second(&self, step: Step) -> bool
        ensures { result ≡ lacks_second (draft_of self.now) step }
    {
        step.needs_second() && self.second.is_none()
    }

    /// What a step that asks the order finds amiss above it.
    fn check_above(&self, step: Step) -> Result<(), Expected>
        ensures { result ≡ above (draft_of self.now) step }
    {
        if self.order.is_none() {
            return Err(Expected::OrderAbove);
        }
        if self.has_excluded(step) {
            return Err(Expected::FillOrPool);
        }
        if self.lacks_second(step) {
            return Err(Expected::SecondAbove);
        }
        Ok(())
    }

    /// Appends a step; one that asks the order comes behind it.
    fn add_step(&mut self, step: Step) -> Result<(), Fault>
        ensures { Makes draft_of result self.old self.new (λ d. with_next d step) }
    {
        if let Some(keyword) = step.keyword_needing_order() {
            self.check_above(step)
                .map_err(|expected| Malformed::misplaced(expected, keyword))?;
        }
        self.steps.push(step)?;
        Ok(())
    }
}
