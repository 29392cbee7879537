//! Callers: which functions the words call, and so where a return may lead.
ghost use Rattle.std.specs.Prelude.{◌≡◌};
ghost use Rattle.verdicts.specs.Verdict.{says};
ghost use Rattle.avr.specs.Chip.{instruction_of, kind_of};
ghost use Rattle.row_layout.specs.Views.{chip};
ghost use Rattle.judge.specs.Faults.{flow_refusal};
ghost use Rattle.judge.specs.Verdicts.{return_verdict, callers_verdict, returns_verdict};
ghost use Rattle.judge.specs.Worked.{callee_of, Callees, Decoded};

use crate::faults::FlowFault;
use crate::judgement::departure::Departure;
use crate::judgement::{CAPACITY, Judgement};
use levels::order::Order;
use row_layout::RoutineView;
use std::array;
use words::instruction::Instruction;
use words::route::Route;

/// The function that an instruction calls, if it calls one.
fn callee(at: u16, instruction: Instruction) -> Option<u32>
    ensures { result ≡ callee_of (kind_of at instruction) }
{
    match instruction.route(at) {
        Route::Call(target) => Some(target),
        Route::To(_) | Route::Jump(_) | Route::Fork(_, _) | Route::Return => None,
    }
}

/// The instruction at an address. Past the last word there are nops, for which nothing is decoded.
fn decode_at(routine: &RoutineView, at: u16) -> Instruction
    ensures { result ≡ instruction_of routine.now.words.now at }
{
    if usize::from(at) < routine.words.len() {
        routine.instruction(at)
    } else {
        Instruction::Nop
    }
}

/// The instruction at each address.
pub(crate) fn decode(routine: &RoutineView) -> [Instruction; CAPACITY]
    ensures { Decoded routine.now result }
{
    array::from_fn(|at| decode_at(routine, at as u16))
}

/// The function that each word calls.
pub(crate) fn callees(
    routine: &RoutineView,
    instructions: &[Instruction; CAPACITY],
) -> [Option<u32>; CAPACITY]
    requires { Decoded routine.now instructions.now }
    ensures { Callees routine.now result }
{
    array::from_fn(|at| {
        let instruction = instructions.get(at).copied().unwrap_or(Instruction::Nop);
        callee(at as u16, instruction)
    })
}

impl<O: Order> Departure<'_, O> {
    /// The edge of a return to the word after one address, if what is called there is its function.
    fn check_caller(&self, caller: u16, callee: Option<u32>, cycles: u8) -> Result<(), FlowFault>
        requires { callee ≡ callee_of ((chip self.now.judgement.now.routine).kind caller) }
        ensures { says flow_refusal result ≡ return_verdict (O.Order.meaning self.now.judgement.now.order.now) self.now.judgement.now.routine self.now.at cycles caller }
    {
        let function = self.judgement.routine.rows.function(u32::from(self.at));
        if callee == Some(u32::from(function)) {
            self.check_edge(u32::from(caller) + 1, cycles)
        } else {
            Ok(())
        }
    }

    /// The edges of a return to the words after all calls of its function.
    #[tactic(auto, using(verdicts::proofs::Firsts::first_none, verdicts::proofs::Firsts::first_more))]
    fn check_callers(&self, cycles: u8) -> Result<(), FlowFault>
        ensures { says flow_refusal result ≡ callers_verdict (O.Order.meaning self.now.judgement.now.order.now) self.now.judgement.now.routine self.now.at cycles }
    {
        let Judgement { callees, .. } = self.judgement;
        for (caller, callee) in (0..self.judgement.len()).zip(callees) {
            self.check_caller(caller, *callee, cycles)?;
        }
        Ok(())
    }

    /// The edges of a return: to its callers, and from function 0 to the finish row.
    pub(crate) fn check_returns(&self, cycles: u8) -> Result<(), FlowFault>
        ensures { says flow_refusal result ≡ returns_verdict (O.Order.meaning self.now.judgement.now.order.now) self.now.judgement.now.routine self.now.at cycles }
    {
        self.check_callers(cycles)?;
        if self.judgement.routine.rows.function(u32::from(self.at)) == 0 {
            self.check_edge(u32::from(self.judgement.len()), cycles)
        } else {
            Ok(())
        }
    }
}
