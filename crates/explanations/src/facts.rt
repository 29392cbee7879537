//! What the words and rows of a refusal say.
ghost use Rattle.std.specs.Prelude.{◌≡◌};
ghost use Rattle.avr.specs.Chip.{instruction_of};
ghost use Rattle.row_layout.specs.Views.{rows_in};
ghost use Rattle.explanations.specs.Views.{cycles_to, due_cycles, due_join};

use crate::refusal::Refusal;
use words::route::Route;

impl Refusal<'_> {
    /// The join address of a row.
    pub(crate) fn join(&self, row: u32) -> u16
        ensures { result ≡ (rows_in self.now.routine.rows).join_address row }
    {
        self.routine.rows.join_address(row)
    }

    /// The cycles of the way from a word to a next address. Where both ways of a fork lead there, the first that is not in time is the
    /// one that was refused.
    pub(crate) fn cycles(&self, at: u16, next: u32) -> u8
        ensures { result ≡ cycles_to (rows_in self.now.routine.rows) at next (instruction_of self.now.routine.words.now at) }
    {
        let instruction = self.routine.instruction(at);
        match instruction.route(at) {
            Route::To(_) => instruction.cycles(false),
            Route::Fork(on, aside) => {
                let straight = instruction.cycles(false);
                let in_time = self.routine.rows.leaves(at, next, straight)
                    || self.routine.rows.stays(at, next, straight);
                instruction.cycles(aside == next && (on != next || in_time))
            }
            Route::Jump(_) | Route::Call(_) | Route::Return => instruction.cycles(true),
        }
    }

    /// The join address that the row of a word would have to say for its way to a next address to be in time.
    pub(crate) fn due_join(&self, next: u32) -> u32
        ensures { result ≡ due_join (rows_in self.now.routine.rows) next }
    {
        if self.routine.rows.remaining(next) == 0 {
            next
        } else {
            u32::from(self.join(next))
        }
    }

    /// The remaining cycles that the row of a word would have to say for its way to a next address to be in time.
    pub(crate) fn due_cycles(&self, at: u16, next: u32) -> u32
        ensures { result ≡ due_cycles (rows_in self.now.routine.rows) at next (instruction_of self.now.routine.words.now at) }
    {
        u32::from(self.cycles(at, next)) + u32::from(self.routine.rows.remaining(next))
    }
}
