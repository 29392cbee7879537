//! Reading routines: the words, and their rows.
ghost use Rattle.std.specs.Prelude.{◌≡◌, length};
ghost use Rattle.avr.specs.Chip.{instruction_of};

use crate::reading::RowsView;
use words::instruction::Instruction;

/// A routine as it is lent: its words and their rows. Any words may be read: past the last word there is a nop.
#[derive(Clone, Copy)]
pub struct RoutineView<'a> {
    pub words: &'a [u16],
    pub rows: RowsView<'a>,
    ghost counted: { rows.words ≡ length words.now },
}

impl<'a> RoutineView<'a> {
    /// The view of some words, and of numbers as those of their rows.
    pub fn new(words: &'a [u16], rows: &'a [u16]) -> RoutineView<'a>
        ensures words { result.words.now ≡ words.now }
        ensures rows { result.rows.rows.now ≡ rows.now }
    {
        RoutineView {
            words,
            rows: RowsView {
                rows,
                words: words.len(),
            },
        }
    }

    /// The instruction at an address.
    pub fn instruction(&self, at: u16) -> Instruction
        ensures { result ≡ instruction_of self.now.words.now at }
    {
        let word = self.words.get(usize::from(at)).copied().unwrap_or(0);
        Instruction::decode(word).unwrap_or(Instruction::Nop)
    }
}
