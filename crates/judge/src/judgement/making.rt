//! How a judgement is begun.
ghost use Rattle.std.specs.Prelude.{◌≡◌, ◌<◌, ◌≤◌, length, IfOk};
ghost use Rattle.verdicts.specs.Verdict.{says};
ghost use Rattle.avr.specs.Chip.{instruction_of};
ghost use Rattle.secrecy.specs.Rules.{length_rule, inside, outside};
ghost use Rattle.row_layout.specs.Views.{rows_in};
ghost use Rattle.judge.specs.Faults.{row_refusal};

use crate::faults::RowFault;
use crate::judgement::Judgement;
use crate::judgement::callers::{callees, decode};
use row_layout::{COLUMNS, RoutineView};
use words::instruction::Instruction;

impl<'j, O> Judgement<'j, O> {
    /// The judgement of the words of a listing and of rows, if the numbers of the rows are as many as the words call for.
    pub(crate) fn try_new(words: &'j [u16], rows: &'j [u16], order: &'j O) -> Result<Self, RowFault>
        requires { length words.now ≤ 1024 }
        ensures answer { says row_refusal result ≡ length_rule (length words.now) rows.now }
        ensures routine { IfOk result (λ made. (made.routine.words.now ≡ words.now) × (made.routine.rows.rows.now ≡ rows.now)) }
        ensures order { IfOk result (λ made. made.order.now ≡ order.now) }
    {
        if rows.len() != (words.len() + 1) * COLUMNS {
            return Err(RowFault::Count);
        }
        let routine = RoutineView::new(words, rows);
        let instructions = decode(&routine);
        Ok(Judgement {
            routine,
            order,
            instructions,
            callees: callees(&routine, &instructions),
        })
    }

    /// How many words there are, which is also the finish row's own number.
    pub(crate) fn len(&self) -> u16
        ensures value { result ≡ length self.now.routine.words.now }
        ensures rows { result ≡ self.now.routine.rows.words }
        ensures few { result ≤ 1024 }
    {
        self.routine.words.len() as u16
    }

    /// The instruction at an address.
    pub(crate) fn instruction(&self, at: u16) -> Instruction
        requires { at < 1024 }
        ensures { result ≡ instruction_of self.now.routine.words.now at }
    {
        self.instructions[usize::from(at)]
    }

    /// Whether a row is inside a region.
    pub(crate) fn is_inside(&self, row: u32) -> bool
        ensures { result ≡ inside (rows_in self.now.routine.rows) row }
    {
        self.routine.rows.remaining(row) > 0
    }

    /// Whether a row is outside every region.
    pub(crate) fn is_outside(&self, row: u32) -> bool
        ensures { result ≡ outside (rows_in self.now.routine.rows) row }
    {
        self.routine.rows.remaining(row) == 0
    }
}
