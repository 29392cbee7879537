//! Works: what the words that go on to the next address do, sorted by how it is done.
//!
//! A board chooses by the work at each step. So no choice among works has more than three ways: a processor foresees a few short
//! choices far better than one jump to any of forty places.

use words::instruction::WideOp;

pub mod sorting;

/// The second byte of an operation: that of a register, or a constant.
#[derive(Clone, Copy)]
pub enum Operand {
    Register(u8),
    Constant(u8),
}

/// A logic operation on two bytes.
#[derive(Clone, Copy)]
pub enum Logic {
    And,
    Eor,
    Or,
}

/// An operation on a register and a second byte: a sum, a difference that is kept or else only compared, each with the carry
/// or without, or a logic operation.
#[derive(Clone, Copy)]
pub enum Binary {
    Sum { with_carry: bool },
    Difference { with_carry: bool, kept: bool },
    Logic(Logic),
}

/// An operation on one register: a byte is added that keeps the carry, a shift down by one, in which the carry may come
/// through, or the negative.
#[derive(Clone, Copy)]
pub enum Unary {
    Count(u8),
    Shift { through: bool },
    Negate,
}

/// What is done to one register.
#[derive(Clone, Copy)]
pub enum ByteWork {
    Binary(Binary, Operand),
    Unary(Unary),
    Copied(Operand),
}

/// A pointer that is used and then increased by 1, or decreased by 1 and then used.
#[derive(Clone, Copy)]
pub enum Step {
    Up,
    Down,
}

/// How an access finds its address from a pointer.
#[derive(Clone, Copy)]
pub enum Reach {
    Plain,
    Displaced(u8),
    Stepped(Step),
}

/// A load of a register, or a store of it, by the pointer whose low byte is in the register `pointer`.
#[derive(Clone, Copy)]
pub struct Access {
    pub store: bool,
    pub register: u8,
    pub pointer: u8,
    pub reach: Reach,
}

/// What sets no flag but the carry, and takes no second byte.
#[derive(Clone, Copy)]
pub enum Nullary {
    Movw { d: u8, r: u8 },
    Clc,
    Nop,
}

/// What works on pairs, and the few words that are left.
#[derive(Clone, Copy)]
pub enum PairWork {
    Wide { op: WideOp, d: u8, k: u8 },
    Mul { d: u8, r: u8 },
    Nullary(Nullary),
}

/// What a word does to registers, flags and memory.
#[derive(Clone, Copy)]
pub enum Work {
    Byte { d: u8, work: ByteWork },
    Access(Access),
    Pair(PairWork),
}
