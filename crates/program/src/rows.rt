//! Rows, printed as routine files write them by name.
use explanations::{ColumnName, RowLabel};
use row_layout::{COLUMNS, RowsView};
use std::fmt;

/// One row of a routine as a statement of a routine file, which leaves out what is 0.
#[derive(Clone, Copy)]
struct NamedRow<'r> {
    rows: RowsView<'r>,
    row: u32,
}

impl fmt::Display for NamedRow<'_> {
    fn fmt<W: fmt::Write>(&self, f: &mut fmt::Formatter<W>) -> fmt::Result {
        let label = RowLabel::new(self.row, self.rows.words);
        write!(f, "{label}")?;
        for column in 0..COLUMNS as u16 {
            let value = self.rows.cell(self.row, column);
            if value != 0 {
                let name = ColumnName(column);
                write!(f, " {name}={value}")?;
            }
        }
        Ok(())
    }
}

/// All rows of a routine, the finish row too, a statement on each line.
#[derive(Clone, Copy)]
pub(crate) struct NamedRows<'r>(RowsView<'r>);

impl<'r> NamedRows<'r> {
    /// The rows of some words.
    pub(crate) fn new(words: &[u16], rows: &'r [u16]) -> NamedRows<'r> {
        NamedRows(RowsView {
            rows,
            words: words.len(),
        })
    }
}

impl fmt::Display for NamedRows<'_> {
    fn fmt<W: fmt::Write>(&self, f: &mut fmt::Formatter<W>) -> fmt::Result {
        let rows = self.0;
        let finish = u32::try_from(rows.words).map_err(|_| fmt::Error)?;
        for row in 0..finish {
            let named = NamedRow { rows, row };
            writeln!(f, "{named}")?;
        }
        let named = NamedRow { rows, row: finish };
        write!(f, "{named}")
    }
}
