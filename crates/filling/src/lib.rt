//! Levels filled in: from the first row's levels and, of every row, join address, remaining cycles and function, the least rows that
//! the judge accepts.
//!
//! It may use the words, the chip's table of sources, the layout of rows, the levels after a word, the judge, and of an order its
//! interface with ranks. The rules are those of `secrecy`, and the last word is the judge's.
#![tactic(auto)]

pub mod fault;
pub mod filling;
mod raising;
mod reading;
mod settling;
mod worklist;
