//! The passes over a routine: all rows, all addresses, all edges.
ghost use Rattle.std.specs.Prelude.{◌≡◌, ◌<◌};
ghost use Rattle.verdicts.specs.Verdict.{says, fine};
ghost use Rattle.avr.specs.Chip.{instruction_of};
ghost use Rattle.judge.specs.Faults.{row_refusal, flow_refusal};
ghost use Rattle.judge.specs.Verdicts.{rows_verdict, addresses_verdict, word_verdict, edges_verdict};

use crate::faults::{FlowFault, RowFault};
use crate::judgement::Judgement;
use crate::judgement::departure::Departure;
use avr::table::written;
use levels::order::Order;
use words::instruction::Instruction;
use words::route::Route;

impl<O: Order> Judgement<'_, O> {
    /// All rows in turn, the finish row too.
    #[tactic(auto, using(verdicts::proofs::Firsts::first_none, verdicts::proofs::Firsts::first_more))]
    pub(crate) fn check_rows(&self) -> Result<(), RowFault>
        ensures { says row_refusal result ≡ rows_verdict (O.Order.meaning self.now.order.now) self.now.routine }
    {
        for row in 0..=self.len() {
            self.check_row(row)?;
        }
        Ok(())
    }

    /// All addresses in turn.
    #[tactic(auto, using(verdicts::proofs::Firsts::first_none, verdicts::proofs::Firsts::first_more))]
    pub(crate) fn check_addresses(&self) -> Result<(), FlowFault>
        ensures { says flow_refusal result ≡ addresses_verdict (O.Order.meaning self.now.order.now) self.now.routine }
    {
        for at in 0..self.len() {
            self.check_address(at)?;
        }
        Ok(())
    }

    /// What the word at an address leaves behind.
    fn depart(&self, at: u16, instruction: Instruction) -> Departure<'_, O>
        requires right { rows_verdict (O.Order.meaning self.now.order.now) self.now.routine ≡ fine }
        requires is { instruction ≡ instruction_of self.now.routine.words.now at }
        ensures at { result.at ≡ at }
        ensures judgement { result.judgement.now ≡ self.now }
    {
        Departure {
            judgement: self,
            at,
            instruction,
            written: written(instruction),
            pc_level: self.order.join(
                self.routine.rows.region(u32::from(at)),
                self.deciding(at, instruction),
            ),
        }
    }

    /// The edges of the word at an address, in their order.
    fn check_edges_from(&self, at: u16) -> Result<(), FlowFault>
        requires few { at < 1024 }
        requires right { rows_verdict (O.Order.meaning self.now.order.now) self.now.routine ≡ fine }
        ensures { says flow_refusal result ≡ word_verdict (O.Order.meaning self.now.order.now) self.now.routine at }
    {
        let instruction = self.instruction(at);
        let departure = self.depart(at, instruction);
        match instruction.route(at) {
            Route::To(next) => departure.check_edge(next, instruction.cycles(false)),
            Route::Jump(target) => departure.check_edge(target, instruction.cycles(true)),
            Route::Fork(on, aside) => {
                departure.check_edge(on, instruction.cycles(false))?;
                departure.check_edge(aside, instruction.cycles(true))
            }
            Route::Call(target) => departure.check_edge(target, instruction.cycles(true)),
            Route::Return => departure.check_returns(instruction.cycles(true)),
        }
    }

    /// All edges in turn, by the address that they leave.
    #[tactic(auto, using(verdicts::proofs::Firsts::first_none, verdicts::proofs::Firsts::first_more))]
    pub(crate) fn check_edges(&self) -> Result<(), FlowFault>
        requires { rows_verdict (O.Order.meaning self.now.order.now) self.now.routine ≡ fine }
        ensures { says flow_refusal result ≡ edges_verdict (O.Order.meaning self.now.order.now) self.now.routine }
    {
        for at in 0..self.len() {
            self.check_edges_from(at)?;
        }
        Ok(())
    }
}
