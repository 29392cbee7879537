//! What a row should say instead, for a way that is not in time.
ghost use Rattle.std.specs.Prelude.{◌≡◌, ◌==◌, false};
ghost use Rattle.row_layout.specs.Views.{rows_in};
ghost use Rattle.verdicts.specs.Verdict.{fine};
ghost use Rattle.secrecy.specs.Rules.{time_rule};
ghost use Rattle.explanations.specs.Hints.{hint_of, changed, hint_for, Mends, way};

use crate::refusal::Refusal;
use judge::faults::{FlowFault, JudgeFault};

/// A row, and the join address and the remaining cycles that it should say.
#[derive(Clone, Copy)]
pub struct Hint {
    pub row: u32,
    pub join: u32,
    pub remaining: u32,
}

impl Refusal<'_> {
    /// What one row should say, so that the way that was refused for its time is in time. None where the word leads to itself, which no
    /// row can mend, and none of other refusals.
    pub fn hint(&self) -> Option<Hint>
        ensures value { result ≡ hint_for self.now.routine self.now.fault }
        ensures mends { Mends self.now.routine self.now.fault result }
    {
        match self.fault {
            JudgeFault::Flow(FlowFault::Time { at, next }) if u32::from(at) != next => Some(
                self.hint_between(at, next),
            ),
            _ => None,
        }
    }

    /// What one row should say, so that a way from a word to another is in time.
    #[tactic(auto, using(crate::proofs::Mending::hint_right))]
    fn hint_between(&self, at: u16, next: u32) -> Hint
        ensures value { result ≡ hint_of (rows_in self.now.routine.rows) at next (way self.now.routine at next) }
        ensures mends { (at == next) ≡ false → time_rule (changed (rows_in self.now.routine.rows) result) at next (way self.now.routine at next) ≡ fine }
    {
        let row = u32::from(at);
        let cycles = self.cycles(at, next);
        let join = u32::from(self.join(row));
        let remaining = self.routine.rows.remaining(row);
        let left = self.routine.rows.remaining(next);
        if next == join && left == 0 {
            return Hint {
                row,
                join: next,
                remaining: u32::from(cycles),
            };
        }
        if u16::from(cycles) < remaining {
            return Hint {
                row: next,
                join,
                remaining: u32::from(remaining - u16::from(cycles)),
            };
        }
        Hint {
            row,
            join: self.due_join(next),
            remaining: self.due_cycles(at, next),
        }
    }
}
