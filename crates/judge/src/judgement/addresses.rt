//! Words on their own: where each leads, and what decides it.
ghost use Rattle.std.specs.Prelude.{◌≡◌, ◌<◌, ◌&&◌, length, ◌==◌, nat_lt};
ghost use Rattle.verdicts.specs.Verdict.{says};
ghost use Rattle.avr.specs.Chip.{kind_of};
ghost use Rattle.secrecy.specs.Rules.{local, keeps_function, bounded};
ghost use Rattle.judge.specs.Faults.{flow_refusal};
ghost use Rattle.judge.specs.Verdicts.{address_verdict};
ghost use Rattle.row_layout.specs.Views.{rows_in};

use crate::faults::FlowFault;
use crate::judgement::Judgement;
use levels::order::Order;
use words::instruction::Instruction;
use words::route::Route;

/// Whether an instruction stays in its function: it neither calls nor returns.
// An instruction is passed along with its address, so that each check decodes a word only once.
fn is_local(at: u16, instruction: Instruction) -> bool
    ensures { result ≡ local (kind_of at instruction) }
{
    matches!(
        instruction.route(at),
        Route::To(_) | Route::Jump(_) | Route::Fork(_, _)
    )
}

impl<O: Order> Judgement<'_, O> {
    /// Whether an edge stays in the listing and in its function.
    fn keeps_in(&self, at: u16, next: u32) -> bool
        ensures { result ≡ keeps_function (length self.now.routine.words.now) (rows_in self.now.routine.rows) at next }
    {
        next < u32::from(self.len())
            && self.routine.rows.function(next) == self.routine.rows.function(u32::from(at))
    }

    /// Whether an address is the first word of a function.
    fn is_entry(&self, target: u32) -> bool
        ensures { result ≡ (nat_lt target (length self.now.routine.words.now) && (rows_in self.now.routine.rows).function target == target) }
    {
        target < u32::from(self.len()) && u32::from(self.routine.rows.function(target)) == target
    }

    /// Whether every edge of an instruction keeps in, and a call goes to the first word of a function.
    fn is_bounded(&self, at: u16, instruction: Instruction) -> bool
        ensures { result ≡ bounded (length self.now.routine.words.now) (rows_in self.now.routine.rows) at (kind_of at instruction) }
    {
        match instruction.route(at) {
            Route::To(next) | Route::Jump(next) => self.keeps_in(at, next),
            Route::Fork(on, aside) => self.keeps_in(at, on) && self.keeps_in(at, aside),
            Route::Call(target) => self.is_entry(target) && self.keeps_in(at, u32::from(at) + 1),
            Route::Return => true,
        }
    }

    /// The rules of one address: no call or return inside a region, every edge keeps in, and nothing above level 0 decides
    /// outside.
    pub(crate) fn check_address(&self, at: u16) -> Result<(), FlowFault>
        requires { at < 1024 }
        ensures { says flow_refusal result ≡ address_verdict (O.Order.meaning self.now.order.now) self.now.routine at }
    {
        let instruction = self.instruction(at);
        if !self.is_outside(u32::from(at)) && !is_local(at, instruction) {
            return Err(FlowFault::Inside { at });
        }
        if !self.is_bounded(at, instruction) {
            return Err(FlowFault::Bounds { at });
        }
        if !self.is_inside(u32::from(at)) && self.deciding(at, instruction) != 0 {
            return Err(FlowFault::Deciding { at });
        }
        Ok(())
    }
}
