//! Reading what is given: the first row, and of every other row its join address, remaining cycles and function.
ghost use Rattle.std.specs.Prelude.{◌≡◌, ◌≤◌, ◌<◌, ◌&&◌, ◌==◌};
ghost use Rattle.verdicts.specs.Verdict.{says, first_of};
ghost use Rattle.secrecy.specs.Rows.{rows_of, cell as cell_of, columns, is_among, given_columns, level_columns as columns_of_levels};
ghost use Rattle.secrecy.specs.Rules.{held_rule, shaped, row_rule, row_rules};
ghost use Rattle.judge.specs.Faults.{row_refusal};
ghost use Rattle.filling.specs.Seeds.{seed_of};

use judge::faults::RowFault;
use levels::order::Order;
use row_layout::{FUNCTION, JOIN, REGION, REMAINING, RowsView, level_columns};

/// Given rows as they are read: what is not read counts as 0.
#[derive(Drop)]
pub(crate) struct Reading<'g, O> {
    pub rows: RowsView<'g>,
    pub order: &'g O,
    ghost few: { rows.words ≤ 1024 },
}

/// Whether a column is given of every row.
#[tactic(auto, using(crate::proofs::Seeding::given_at))]
pub(crate) fn is_given(column: u16) -> bool
    ensures { result ≡ is_among given_columns column }
{
    matches!(column, JOIN | REMAINING | FUNCTION)
}

impl<O: Order> Reading<'_, O> {
    /// The number in one column of one row, as it is read: of the first row all are, and of every other those of given columns.
    #[tactic(auto, using(crate::proofs::Seeding::seed_cell, crate::proofs::Seeding::read_at))]
    fn cell(&self, row: u16, column: u16) -> u16
        requires { column < columns }
        ensures { result ≡ cell_of self.now.rows.words (seed_of self.now.rows.rows.now) row column }
    {
        if row == 0 || is_given(column) {
            self.rows.cell(u32::from(row), column)
        } else {
            0
        }
    }

    /// Whether every code of a row that is read is held, column by column.
    #[tactic(auto, unfolding(verdicts::specs::Verdict::first_of))]
    fn check_codes(&self, row: u16) -> Result<(), RowFault>
        ensures { says row_refusal result ≡ first_of (held_rule (O.Order.meaning self.now.order.now) self.now.rows.words (seed_of self.now.rows.rows.now) row) columns_of_levels }
    {
        // Only the first row's are read, and level 0 is held.
        if row > 0 {
            return Ok(());
        }
        for column in level_columns() {
            if !self.order.holds(self.cell(row, *column)) {
                return Err(RowFault::NotHeld {
                    row,
                    column: *column,
                });
            }
        }
        Ok(())
    }

    /// Whether a row has its shape, by what is read of it.
    fn is_shaped(&self, row: u16) -> bool
        ensures { result ≡ shaped self.now.rows.words (rows_of self.now.rows.words (seed_of self.now.rows.rows.now)) row }
    {
        let words = self.rows.words as u16;
        let join = self.cell(row, JOIN);
        let function = self.cell(row, FUNCTION);
        let bare = self.cell(row, REGION) == 0 && join == 0;
        let outside = self.cell(row, REMAINING) == 0;
        (!outside || bare)
            && (outside || join < words)
            && function < words
            && (row > 0 || function == 0)
            && (row < words || (bare && (outside && function == 0)))
    }

    /// The rules of one row: its codes, then its shape.
    fn check_row(&self, row: u16) -> Result<(), RowFault>
        ensures { says row_refusal result ≡ row_rule (O.Order.meaning self.now.order.now) self.now.rows.words (seed_of self.now.rows.rows.now) row }
    {
        self.check_codes(row)?;
        if self.is_shaped(row) {
            Ok(())
        } else {
            Err(RowFault::Shape { row })
        }
    }

    /// All rows in turn, the finish row too.
    #[tactic(auto, using(verdicts::proofs::Firsts::first_none, verdicts::proofs::Firsts::first_more))]
    pub(crate) fn check_rows(&self) -> Result<(), RowFault>
        ensures { says row_refusal result ≡ row_rules (O.Order.meaning self.now.order.now) self.now.rows.words (seed_of self.now.rows.rows.now) }
    {
        for row in 0..=self.rows.words as u16 {
            self.check_row(row)?;
        }
        Ok(())
    }
}
