//! Sets of rows, as a file writes them.
ghost use Rattle.std.specs.Prelude.{◌≡◌, Ok};
ghost use Rattle.routine.specs.Sets.{set_of, no_rows, line_of_row, keeps_form, plain_rows, with_row, named_row};
ghost use Rattle.routine.specs.Answers.{Makes};

use crate::faults::{Expected, Fault, Malformed};
use crate::keywords::Keyword;
use crate::rows::{Entry, ROW_WIDTH, RowName, row_number, write_entries};
use crate::stretches::{Stretch, line_of};
use std::alloc::Global;

/// How the rows of a set are written.
#[derive(Clone, Copy)]
pub enum RowForm {
    /// As plain numbers.
    Plain,
    /// By name, row by row.
    Sparse,
}

/// One set of rows of a routine.
#[derive(Drop)]
pub struct RowSet {
    /// The numbers of its rows.
    pub numbers: Vec<u16>,
    /// The lines on which they stand.
    pub lines: Vec<Stretch>,
    /// How they are written, once some are.
    pub form: Option<RowForm>,
}

impl RowSet {
    /// A set of which nothing is written yet.
    pub(crate) fn new(heap: Global) -> RowSet
        ensures { set_of result ≡ no_rows }
    {
        RowSet {
            numbers: Vec::new(heap),
            lines: Vec::new(heap),
            form: None,
        }
    }

    /// The line of a file on which a row was written last.
    pub(crate) fn row_line(&self, row: u32) -> Option<usize>
        ensures { result ≡ line_of_row (set_of self.now) row }
    {
        line_of(self.lines.as_slice(), row as usize * ROW_WIDTH)
    }

    /// Whether rows of a form may be written to it: they are all of one form.
    fn keeps_form(&self, form: RowForm) -> bool
        ensures { result ≡ keeps_form form self.now.form }
    {
        match self.form {
            None => true,
            Some(RowForm::Plain) => matches!(form, RowForm::Plain),
            Some(RowForm::Sparse) => matches!(form, RowForm::Sparse),
        }
    }

    /// Appends plain numbers, which stand on a line.
    pub(crate) fn add_numbers(&mut self, line: usize, numbers: &[u16]) -> Result<(), Fault>
        ensures { Makes set_of result self.old self.new (λ s. plain_rows line numbers.now s) }
    {
        if !self.keeps_form(RowForm::Plain) {
            return Err(Malformed::misplaced(Expected::SameForm, Keyword::Rows).into());
        }
        let stretch = Stretch {
            first: self.numbers.len(),
            count: numbers.len(),
            line,
        };
        self.numbers.extend_from_slice(numbers)?;
        self.lines.push(stretch)?;
        self.form = Some(RowForm::Plain);
        Ok(())
    }

    /// Writes values of a row by its name, on a line, for so many words.
    pub(crate) fn add_row(
        &mut self,
        line: usize,
        words: usize,
        name: RowName,
        entries: &[Entry],
    ) -> Result<(), Fault>
        ensures { Makes set_of result self.old self.new (λ s. named_row line words name entries.now s) }
    {
        if !self.keeps_form(RowForm::Sparse) {
            return Err(Malformed::misplaced(Expected::SameForm, Keyword::Row).into());
        }
        let row = row_number(words, name)?;
        self.write_row(line, words, row, entries)
    }

    /// Writes values of a row that there is. Rows that are not written yet are 0.
    fn write_row(
        &mut self,
        line: usize,
        words: usize,
        row: usize,
        entries: &[Entry],
    ) -> Result<(), Fault>
        ensures { Makes set_of result self.old self.new (λ s. Ok (with_row line words row entries.now s)) }
    {
        let count = words.checked_add(1).ok_or(Fault::NoMemory)?;
        let size = count.checked_mul(ROW_WIDTH).ok_or(Fault::NoMemory)?;
        let start = row.checked_mul(ROW_WIDTH).ok_or(Fault::NoMemory)?;
        self.numbers.resize(size, 0)?;
        write_entries(&mut self.numbers, start, entries);
        self.lines.push(Stretch {
            first: start,
            count: ROW_WIDTH,
            line,
        })?;
        self.form = Some(RowForm::Sparse);
        Ok(())
    }
}
