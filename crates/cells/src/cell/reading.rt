//! Making cells.
ghost use Rattle.std.specs.Prelude.{◌≡◌, ℕ, ◌+◌, ◌≤◌, ◌<◌};
ghost use Rattle.words.specs.Operands.{Operands};
ghost use Rattle.cells.specs.Cells.{test_in, way_by, cell_of, Shows};

use crate::cell::{Cell, Leave, Test, Way};
use words::instruction::{Flag, Instruction};
use words::route::Route;

/// What an instruction that forks asks.
fn test(instruction: Instruction) -> Test
    ensures { result ≡ test_in instruction }
{
    match instruction {
        Instruction::Branch {
            flag: Flag::Carry,
            set,
            ..
        } => Test::Carry(set),
        Instruction::Branch {
            flag: Flag::Zero,
            set,
            ..
        } => Test::Zero(set),
        Instruction::Binary { d, r, .. } => Test::Equal(d, r),
        // Not reached: only a branch and a cpse fork, and a conversion is total.
        _ => Test::Equal(0, 0),
    }
}

/// The way of an instruction that leads there.
fn way(route: Route, instruction: Instruction) -> Way
    ensures { result ≡ way_by route instruction }
{
    match route {
        Route::To(_) => Way::On(instruction.into()),
        Route::Jump(to) => Way::Leave(Leave::Jump(to)),
        Route::Fork(_, target) => Way::Fork(test(instruction), target),
        Route::Call(to) => Way::Leave(Leave::Call(to)),
        Route::Return => Way::Leave(Leave::Return),
    }
}

impl Cell {
    /// The cell of an instruction at an address.
    pub fn new(at: u16, instruction: Instruction) -> Cell
        ensures value { result ≡ cell_of at instruction }
        ensures shows { Operands instruction → Shows at instruction result }
    {
        let way = way(instruction.route(at), instruction);
        Cell {
            way,
            on: instruction.cycles(false),
            aside: instruction.cycles(true),
        }
    }
}
