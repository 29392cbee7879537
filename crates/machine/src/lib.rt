//! Machines that carry out words one after another, count cycles and stop at a limit.
//!
//! The definitions in specs/ are of any machine that is given by its words: where each leads, what it writes and what that
//! comes from. The board's contracts and the secrecy theorem both speak through them. Of the chip itself this crate knows
//! nothing.
#![tactic(auto)]

ghost use Rattle.machine.specs.Laws.{CountsStand};

pub mod call;
pub mod phase;

/// A run is a chain of words, its count is the sum of the cycles along the chain, and its ending carries that count, or the
/// limit where it is spent. The law stands in the contract; the call itself answers nothing.
pub fn counts_stand()
    ensures { CountsStand }
{}
