//! What a board needs of a word, worked out once: its work, the way that it goes, and its cycles.
//!
//! `Work::from` sorts the instructions that go on to the next address by how they are done, and `Cell::new` makes the cell of any
//! instruction at an address. It may use the words with their cycles and routes, the names of the arithmetic, and the chip's
//! definitions, which say what a cell owes to its instruction. It knows nothing of boards, of lent memory or of levels: it
//! carries nothing out.
#![tactic(auto)]

pub mod cell;
pub mod work;
