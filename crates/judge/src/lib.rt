//! The judge: whether an unlock routine keeps its secrets, by its words, its rows of levels and an order of levels.
//!
//! It may use the words, the chip's table of sources, the layout of rows, and of an order its interface. The rules and the theorem are
//! those of `secrecy`, and the code finds the first broken rule. It knows nothing of boards: what a board does comes in by the
//! theorem, in the contract of `judge` and nowhere else.
#![tactic(auto)]

pub mod faults;
mod judgement;
mod judging;

pub use judging::{check_rows, judge};
