//! Rows with the same codes.
ghost use Rattle.std.specs.Prelude.{◌≡◌, ℕ, ◌≤◌, ◌*◌, true, length, take, drop};
ghost use Rattle.secrecy.specs.Rows.{cell, is_among, level_columns, columns};

use crate::judgement::Judgement;
use row_layout::{COLUMNS, LEVELS};

impl<O> Judgement<'_, O> {
    /// The codes of a row. They are its first numbers, so that two rows are compared at once.
    pub(crate) fn codes(&self, row: u32) -> &[u16]
        requires { row ≤ length self.now.routine.words.now }
        ensures codes { result.now ≡ take 36 (drop (row * columns) self.now.routine.rows.rows.now) }
        ensures count { length result.now ≡ 36 }
    {
        let start = row as usize * COLUMNS;
        &self.routine.rows.rows[start..start + LEVELS]
    }

    /// Whether two rows have the same codes; no where one is past the finish row.
    pub(crate) fn same_codes(&self, a: u32, b: u32) -> bool
        ensures { result ≡ true → (column : ℕ) → is_among level_columns column ≡ true → cell self.now.routine.rows.words self.now.routine.rows.rows.now a column ≡ cell self.now.routine.rows.words self.now.routine.rows.rows.now b column }
    {
        let last = u32::from(self.len());
        if a > last || b > last {
            return false;
        }
        self.codes(a) == self.codes(b)
    }
}
