//! A routine under judgement.
ghost use Rattle.std.specs.Prelude.{◌≡◌, ◌+◌, ◌*◌, ◌≤◌, length};
ghost use Rattle.secrecy.specs.Rows.{columns};
ghost use Rattle.judge.specs.Worked.{Callees, Decoded};

use row_layout::RoutineView;
use words::instruction::Instruction;

/// How many words a routine can have.
const CAPACITY: usize = 1024;

/// A routine of at most 1,024 words and of as many numbers as their rows and the finish row take, the order that its levels are of, and
/// the instruction at each address and the function that each word calls, worked out once.
#[derive(Drop)]
pub struct Judgement<'j, O> {
    routine: RoutineView<'j>,
    order: &'j O,
    // Room for the longest listing, since the judge has no heap: past the last word there are nops, and nobody is called.
    instructions: [Instruction; CAPACITY],
    callees: [Option<u32>; CAPACITY],
    ghost few: { length routine.words.now ≤ 1024 },
    ghost whole: { length routine.rows.rows.now ≡ (length routine.words.now + 1) * columns },
    ghost decoded: { Decoded routine instructions },
    ghost calls: { Callees routine callees },
}

mod addresses;
mod callers;
mod departure;
mod edges;
mod joins;
mod making;
mod passes;
mod sameness;
mod shapes;
