//! What a word leaves behind.
ghost use Rattle.std.specs.Prelude.{◌≡◌};
ghost use Rattle.verdicts.specs.Verdict.{fine};
ghost use Rattle.avr.specs.Table.{written_of};
ghost use Rattle.avr.specs.Lists.{list_of};
ghost use Rattle.judge.specs.Verdicts.{rows_verdict};
ghost use Rattle.judge.specs.Worked.{Departs};

use crate::judgement::Judgement;
use avr::sources::Sources;
use levels::order::Order;
use words::instruction::Instruction;

/// The word at an address of a routine whose rows are right, with what is worked out once for all its edges: the instruction, the
/// places that it writes, and its pc_level, the level of knowing which way is taken from there.
#[derive(Drop)]
pub struct Departure<'j, O: Order> {
    pub judgement: &'j Judgement<'j, O>,
    pub at: u16,
    pub instruction: Instruction,
    pub written: Sources,
    pub pc_level: u16,
    ghost right: { rows_verdict (O.Order.meaning judgement.now.order.now) judgement.now.routine ≡ fine },
    ghost departs: { Departs (O.Order.meaning judgement.now.order.now) judgement.now.routine at instruction pc_level },
    ghost writes: { list_of written ≡ written_of instruction },
}
