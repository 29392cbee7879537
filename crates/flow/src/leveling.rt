//! Levels after a word.
ghost use Rattle.std.specs.Prelude.{◌≡◌};
ghost use Rattle.avr.specs.Chip.{kind_of};
ghost use Rattle.secrecy.specs.Flow.{joined as joined_of, join_of_all, deciding_of, pc_level as pc_level_of};
ghost use Rattle.row_layout.specs.Views.{rows_in, chip};
ghost use Rattle.flow.specs.Levels.{level_by};

use avr::table::{comes_from, deciders};
use levels::order::Order;
use row_layout::RoutineView;
use words::instruction::Instruction;
use words::route::Route;

/// A routine with rows, and the order that their levels are of.
#[derive(Clone, Copy)]
pub struct Leveling<'a, O> {
    pub routine: RoutineView<'a>,
    pub order: &'a O,
}

// An instruction is passed along with its address, so that a word is decoded once.
impl<O: Order> Leveling<'_, O> {
    /// The join of a level and the levels of some places in a row.
    fn joined(&self, row: u32, base: u16, sources: &[u16]) -> u16
        ensures { result ≡ joined_of (O.Order.meaning self.now.order.now) base ((rows_in self.now.routine.rows).level row) sources.now }
    {
        sources.iter().rev().fold(
            base,
            |level, place| self.order.join(self.routine.rows.level(row, *place), level),
        )
    }

    /// The join of the levels of some places in a row; 0 of none.
    fn joined_all(&self, row: u32, sources: &[u16]) -> u16
        ensures { result ≡ join_of_all (O.Order.meaning self.now.order.now) ((rows_in self.now.routine.rows).level row) sources.now }
    {
        match sources.split_last() {
            Some((last, others)) => self.joined(row, self.routine.rows.level(row, *last), others),
            None => 0,
        }
    }

    /// The level of what decides where an instruction leads: 0 unless it forks.
    pub fn deciding(&self, at: u16, instruction: Instruction) -> u16
        ensures { result ≡ deciding_of (O.Order.meaning self.now.order.now) ((rows_in self.now.routine.rows).level at) (kind_of at instruction) }
    {
        match instruction.route(at) {
            Route::Fork(_, _) => self.joined_all(u32::from(at), deciders(instruction).as_slice()),
            Route::To(_) | Route::Jump(_) | Route::Call(_) | Route::Return => 0,
        }
    }

    /// The level of a place after an instruction: where it is written, the region level joined with what its value comes from.
    pub fn level_after(&self, at: u16, instruction: Instruction, place: u16) -> u16
        ensures { result ≡ level_by (O.Order.meaning self.now.order.now) (rows_in self.now.routine.rows) at instruction place }
    {
        let row = u32::from(at);
        match comes_from(instruction, place) {
            Some(sources) => self.joined(row, self.routine.rows.region(row), sources.as_slice()),
            None => self.routine.rows.level(row, place),
        }
    }

    /// The level of knowing which way is taken from the word at an address: its region level joined with its deciding level.
    pub fn pc_level(&self, at: u16) -> u16
        ensures { result ≡ pc_level_of (O.Order.meaning self.now.order.now) (chip self.now.routine) (rows_in self.now.routine.rows) at }
    {
        let instruction = self.routine.instruction(at);
        self.order.join(
            self.routine.rows.region(u32::from(at)),
            self.deciding(at, instruction),
        )
    }
}
