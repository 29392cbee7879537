//! Levels joined: the level of a place after an instruction, and of what decides where one leads.
ghost use Rattle.std.specs.Prelude.{◌≡◌};
ghost use Rattle.avr.specs.Chip.{kind_of};
ghost use Rattle.secrecy.specs.Flow.{joined as joined_of, join_of_all, deciding_of};
ghost use Rattle.row_layout.specs.Views.{rows_in};
ghost use Rattle.judge.specs.Views.{level_by};

use crate::judgement::Judgement;
use avr::table::{comes_from, deciders};
use levels::order::Order;
use words::instruction::Instruction;
use words::route::Route;

// An instruction is passed along with its address, so that each check decodes a word only once.
impl<O: Order> Judgement<'_, O> {
    /// The join of a level and the levels of some places in a row.
    fn joined(&self, row: u32, base: u16, sources: &[u16]) -> u16
        ensures { result ≡ joined_of (O.Order.meaning self.now.order.now) base ((rows_in self.now.routine.rows).level row) sources.now }
    {
        sources.iter().rev().fold(
            base,
            |level, place| self.order.join(self.routine.rows.level(row, *place), level),
        )
    }

    /// The join of the levels of some places in a row; 0 of none.
    fn joined_all(&self, row: u32, sources: &[u16]) -> u16
        ensures { result ≡ join_of_all (O.Order.meaning self.now.order.now) ((rows_in self.now.routine.rows).level row) sources.now }
    {
        match sources.split_last() {
            Some((last, others)) => self.joined(row, self.routine.rows.level(row, *last), others),
            None => 0,
        }
    }

    /// The level of what decides where an instruction leads: 0 unless it forks.
    pub(crate) fn deciding(&self, at: u16, instruction: Instruction) -> u16
        ensures { result ≡ deciding_of (O.Order.meaning self.now.order.now) ((rows_in self.now.routine.rows).level at) (kind_of at instruction) }
    {
        match instruction.route(at) {
            Route::Fork(_, _) => self.joined_all(u32::from(at), deciders(instruction).as_slice()),
            Route::To(_) | Route::Jump(_) | Route::Call(_) | Route::Return => 0,
        }
    }

    /// The level of a place after an instruction: where it is written, the region level joined with what its value comes from.
    pub(crate) fn level_after(&self, at: u16, instruction: Instruction, place: u16) -> u16
        ensures { result ≡ level_by (O.Order.meaning self.now.order.now) (rows_in self.now.routine.rows) at instruction place }
    {
        let row = u32::from(at);
        match comes_from(instruction, place) {
            Some(sources) => self.joined(row, self.routine.rows.region(row), sources.as_slice()),
            None => self.routine.rows.level(row, place),
        }
    }
}
