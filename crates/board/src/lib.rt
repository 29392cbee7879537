//! The board: carries the words of a listing out, on lent bytes, and counts cycles.
//!
//! It may use the words, their cells, the arithmetic, the chip's definitions, and what any machine of its kind does; it knows
//! nothing of levels. Outside, there is `board::Board` with its calls, and `fault` with what they refuse. Inside, a board has each
//! word worked out once, into a cell, whose work the chip performs.
#![tactic(auto)]

mod chip;
pub mod fault;
pub mod memory;
mod simulation;

pub use simulation::Board;
