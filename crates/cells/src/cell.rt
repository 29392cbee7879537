//! Cells: what a board needs of a word, worked out once.

use crate::work::Work;

pub mod reading;

/// What a fork asks: whether a flag is so, or whether two registers are equal.
#[derive(Clone, Copy)]
pub enum Test {
    Carry(bool),
    Zero(bool),
    Equal(u8, u8),
}

/// How a word leaves for another address, and does nothing else.
// At most three variants: the board is slower with a choice among more (docs/SPEED.md).
#[derive(Clone, Copy)]
pub enum Leave {
    /// Always to this address.
    Jump(u32),
    /// Into the function at this address.
    Call(u32),
    /// Back to where the function was called from.
    Return,
}

/// What a word does, and where it leads.
#[derive(Clone, Copy)]
pub enum Way {
    /// It does its work and goes on to the next address.
    On(Work),
    /// It goes on to the next address or, if its test is passed, aside to this one.
    Fork(Test, u32),
    /// It leaves.
    Leave(Leave),
}

/// A word, decoded: its way, and its cycles where it goes on and where it goes aside.
#[derive(Clone, Copy)]
pub struct Cell {
    pub way: Way,
    pub on: u8,
    pub aside: u8,
}
