//! Cycles of instructions.
ghost use Rattle.std.specs.Prelude.{◌≡◌, ℕ, ◌<◌, ◌≤◌};
ghost use Rattle.words.specs.Cycles.{cycles_of, binary_cycles};

use crate::codes::Coded;
use crate::instruction::{BinaryOp, Instruction};

impl Instruction {
    /// The cycles of the instruction where it diverts (a branch that is taken, a cpse that skips), or where it goes on.
    pub fn cycles(self, diverts: bool) -> u8
        ensures { result ≡ cycles_of self diverts }
    {
        match self {
            // The low two bits of a mode's number say how the pointer steps: 0 not at all, 1 up, 2 down.
            Instruction::Load { mode, .. } => 1 + (mode.code() % 4) as u8,
            Instruction::Binary {
                op: BinaryOp::Cpse,
                ..
            }
            | Instruction::Branch { .. }
                if diverts => 2,
            Instruction::Binary {
                op: BinaryOp::Mul,
                ..
            }
            | Instruction::Wide { .. }
            | Instruction::Rjmp { .. } => 2,
            Instruction::Store { .. } | Instruction::StoreDisplaced { .. } => 2,
            Instruction::LoadDisplaced { q, .. } if q > 0 => 2,
            Instruction::Rcall { .. } => 3,
            Instruction::Ret => 4,
            _ => 1,
        }
    }
}
