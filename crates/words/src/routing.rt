//! Routes of instructions.
ghost use Rattle.std.specs.Prelude.{◌≡◌, ℕ, ◌+◌, ◌<◌, ◌≤◌};
ghost use Rattle.words.specs.Routes.{route_of, binary_route, target as target_of};

use crate::instruction::{BinaryOp, Instruction};
use crate::route::Route;

/// What stands for an address below 0: no listing has it.
// Past the end of every listing, so that one comparison with the length refuses all targets outside.
pub const NOWHERE: u32 = 0xFFFF_FFFF;

/// The target of a jump by `k` words, counted from the address after `at`.
fn target(at: u16, k: i16) -> u32
    ensures { result ≡ target_of at k }
{
    u32::try_from(i32::from(at) + 1 + i32::from(k)).unwrap_or(NOWHERE)
}

impl Instruction {
    /// Where the instruction leads from the address `at`.
    pub fn route(self, at: u16) -> Route
        ensures { result ≡ route_of at self }
    {
        let next = u32::from(at) + 1;
        match self {
            Instruction::Binary {
                op: BinaryOp::Cpse,
                ..
            } => Route::Fork(next, next + 1),
            Instruction::Rjmp { k } => Route::Jump(target(at, k)),
            Instruction::Rcall { k } => Route::Call(target(at, k)),
            Instruction::Branch { k, .. } => Route::Fork(next, target(at, k)),
            Instruction::Ret => Route::Return,
            _ => Route::To(next),
        }
    }
}
