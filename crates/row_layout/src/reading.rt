//! Reading rows.
ghost use Rattle.std.specs.Prelude.{◌≡◌};
ghost use Rattle.secrecy.specs.Rows.{cell as cell_of};
ghost use Rattle.secrecy.specs.Rules.{leaves as leaves_of, stays as stays_of};
ghost use Rattle.row_layout.specs.Views.{rows_in};

use crate::layout::{COLUMNS, FUNCTION, JOIN, REGION, REMAINING, is_place};

/// The rows of a routine as they are lent: their numbers, and how many words there are. There is one row for each word, and after
/// them the finish row. Any numbers may be read: past the finish row, where there is no place and where numbers are missing, there
/// is 0.
// One slice and not a slice of rows: a file, and whoever calls the judge, may give any count of numbers.
#[derive(Clone, Copy)]
pub struct RowsView<'a> {
    pub rows: &'a [u16],
    pub words: usize,
}

impl RowsView<'_> {
    /// The number in one column of one row.
    pub fn cell(&self, row: u32, column: u16) -> u16
        ensures { result ≡ cell_of self.now.words self.now.rows.now row column }
    {
        if row as usize > self.words {
            return 0;
        }
        let index = row as usize * COLUMNS + usize::from(column);
        self.rows.get(index).copied().unwrap_or(0)
    }

    /// The level of a place in a row.
    pub fn level(&self, row: u32, place: u16) -> u16
        ensures { result ≡ (rows_in self.now).level row place }
    {
        if is_place(place) {
            self.cell(row, place)
        } else {
            0
        }
    }

    /// The region level of a row.
    pub fn region(&self, row: u32) -> u16
        ensures { result ≡ (rows_in self.now).region row }
    {
        self.cell(row, REGION)
    }

    /// The join address of a row.
    pub fn join_address(&self, row: u32) -> u16
        ensures { result ≡ (rows_in self.now).join_address row }
    {
        self.cell(row, JOIN)
    }

    /// The cycles that remain from a row to its join address: none outside every region.
    pub fn remaining(&self, row: u32) -> u16
        ensures { result ≡ (rows_in self.now).remaining row }
    {
        self.cell(row, REMAINING)
    }

    /// The function that a row belongs to.
    pub fn function(&self, row: u32) -> u16
        ensures { result ≡ (rows_in self.now).function row }
    {
        self.cell(row, FUNCTION)
    }

    /// Whether a way of so many cycles ends the region that it comes from, just in time.
    pub fn leaves(&self, at: u16, next: u32, cycles: u8) -> bool
        ensures { result ≡ leaves_of (rows_in self.now) at next cycles }
    {
        let row = u32::from(at);
        next == u32::from(self.join_address(row))
            && (self.remaining(next) == 0 && self.remaining(row) == u16::from(cycles))
    }

    /// Whether a way of so many cycles stays in the region that it comes from, with so much less remaining.
    pub fn stays(&self, at: u16, next: u32, cycles: u8) -> bool
        ensures { result ≡ stays_of (rows_in self.now) at next cycles }
    {
        let row = u32::from(at);
        self.join_address(next) == self.join_address(row)
            && (self.remaining(next) > 0
                && u32::from(self.remaining(row))
                    == u32::from(cycles) + u32::from(self.remaining(next)))
    }
}
