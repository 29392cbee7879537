//! Rows on their own: their codes and their shape.
ghost use Rattle.std.specs.Prelude.{◌≡◌, ◌<◌, ◌-◌, ◌&&◌, true, ◌==◌};
ghost use Rattle.verdicts.specs.Verdict.{says, fine};
ghost use Rattle.secrecy.specs.Rules.{bare_outside, joins_in_listing, function_in_listing, begins_at_zero, bare_finish, shaped};
ghost use Rattle.judge.specs.Faults.{row_refusal};
ghost use Rattle.judge.specs.Verdicts.{codes_verdict, row_verdict};
ghost use Rattle.row_layout.specs.Views.{rows_in};

use crate::faults::RowFault;
use crate::judgement::Judgement;
use levels::order::Order;
use row_layout::level_columns;

impl<O: Order> Judgement<'_, O> {
    /// Whether every code of a row is held, column by column.
    #[tactic(auto, unfolding(verdicts::specs::Verdict::first_of))]
    fn check_codes(&self, row: u16) -> Result<(), RowFault>
        ensures { says row_refusal result ≡ codes_verdict (O.Order.meaning self.now.order.now) self.now.routine row }
    {
        for column in level_columns() {
            if !self
                .order
                .holds(self.routine.rows.cell(u32::from(row), *column))
            {
                return Err(RowFault::NotHeld {
                    row,
                    column: *column,
                });
            }
        }
        Ok(())
    }

    /// Whether a row has the codes of the row before it, which is right: then they are all held.
    fn repeats_codes(&self, row: u16) -> bool
        requires { 0 < row → row_verdict (O.Order.meaning self.now.order.now) self.now.routine (row - 1) ≡ fine }
        ensures { result ≡ true → codes_verdict (O.Order.meaning self.now.order.now) self.now.routine row ≡ fine }
    {
        row > 0 && self.same_codes(u32::from(row) - 1, u32::from(row))
    }

    /// Whether a row has neither a region level nor a join address.
    fn is_bare(&self, row: u32) -> bool
        ensures { result ≡ ((rows_in self.now.routine.rows).region row == 0 && (rows_in self.now.routine.rows).join_address row == 0) }
    {
        self.routine.rows.region(row) == 0 && self.routine.rows.join_address(row) == 0
    }

    /// Whether a row, if it is outside every region, is bare.
    fn is_bare_outside(&self, row: u32) -> bool
        ensures { result ≡ bare_outside self.now.routine.rows.words (rows_in self.now.routine.rows) row }
    {
        self.is_inside(row) || self.is_bare(row)
    }

    /// Whether the join address of a row, if it is inside a region, is in the listing.
    fn joins_listed(&self, row: u32) -> bool
        ensures { result ≡ joins_in_listing self.now.routine.rows.words (rows_in self.now.routine.rows) row }
    {
        self.is_outside(row) || self.routine.rows.join_address(row) < self.len()
    }

    /// Whether the function of a row is an address of the listing.
    fn function_listed(&self, row: u32) -> bool
        ensures { result ≡ function_in_listing self.now.routine.rows.words (rows_in self.now.routine.rows) row }
    {
        self.routine.rows.function(row) < self.len()
    }

    /// Whether a row, if it is the first, is of function 0.
    fn begins_in_zero(&self, row: u32) -> bool
        ensures { result ≡ begins_at_zero self.now.routine.rows.words (rows_in self.now.routine.rows) row }
    {
        row > 0 || self.routine.rows.function(row) == 0
    }

    /// Whether a row, if it is the finish row, has nothing but levels.
    fn is_bare_finish(&self, row: u32) -> bool
        ensures { result ≡ bare_finish self.now.routine.rows.words (rows_in self.now.routine.rows) row }
    {
        row < u32::from(self.len())
            || (self.is_bare(row) && (self.is_outside(row) && self.routine.rows.function(row) == 0))
    }

    /// Whether a row has its shape.
    fn is_shaped(&self, row: u32) -> bool
        ensures { result ≡ shaped self.now.routine.rows.words (rows_in self.now.routine.rows) row }
    {
        self.is_bare_outside(row)
            && self.joins_listed(row)
            && self.function_listed(row)
            && self.begins_in_zero(row)
            && self.is_bare_finish(row)
    }

    /// The rules of one row: its codes, then its shape.
    pub(crate) fn check_row(&self, row: u16) -> Result<(), RowFault>
        requires { 0 < row → row_verdict (O.Order.meaning self.now.order.now) self.now.routine (row - 1) ≡ fine }
        ensures { says row_refusal result ≡ row_verdict (O.Order.meaning self.now.order.now) self.now.routine row }
    {
        if !self.repeats_codes(row) {
            self.check_codes(row)?;
        }
        if self.is_shaped(u32::from(row)) {
            Ok(())
        } else {
            Err(RowFault::Shape { row })
        }
    }
}
