//! The instructions of a routine, with named operands.
//!
//! `d` is the register that an instruction works on, `r` the one it reads besides, `k` a constant or a jump distance in
//! words, `q` a displacement in bytes. The number of an operation, mode, pointer or flag is the one that a word names it by.

/// An operation on the registers d and r.
#[derive(Clone, Copy)]
pub enum BinaryOp {
    Cpc = 0b000001,
    Sbc = 0b000010,
    Add = 0b000011,
    Cpse = 0b000100,
    Cp = 0b000101,
    Sub = 0b000110,
    Adc = 0b000111,
    And = 0b001000,
    Eor = 0b001001,
    Or = 0b001010,
    Mov = 0b001011,
    Mul = 0b100111,
}

/// An operation on the register d and the byte k.
#[derive(Clone, Copy)]
pub enum ImmediateOp {
    Cpi = 0b0011,
    Sbci = 0b0100,
    Subi = 0b0101,
    Andi = 0b0111,
    Ldi = 0b1110,
}

/// An operation on the register pair at d and a small constant.
#[derive(Clone, Copy)]
pub enum WideOp {
    Adiw = 0,
    Sbiw = 1,
}

/// An operation on one register.
#[derive(Clone, Copy)]
pub enum UnaryOp {
    Neg = 0b0001,
    Inc = 0b0011,
    Lsr = 0b0110,
    Ror = 0b0111,
    Dec = 0b1010,
}

/// How a pointer load or store finds its address: the pointer as it is (X), used and then increased by 1 (Inc), or
/// decreased by 1 and then used (Dec).
#[derive(Clone, Copy)]
pub enum Mode {
    X = 0b1100,
    XInc = 0b1101,
    XDec = 0b1110,
    YInc = 0b1001,
    YDec = 0b1010,
    ZInc = 0b0001,
    ZDec = 0b0010,
}

/// The pointer that a displaced load or store starts from.
#[derive(Clone, Copy)]
pub enum Base {
    Y = 1,
    Z = 0,
}

/// The flag that a branch asks.
#[derive(Clone, Copy)]
pub enum Flag {
    Carry = 0b000,
    Zero = 0b001,
}

/// An instruction. A distance `k` is in words and signed, counted from the address after the instruction; a branch is
/// taken if its flag is `set`.
#[derive(Clone, Copy)]
pub enum Instruction {
    Binary { op: BinaryOp, d: u8, r: u8 },
    Immediate { op: ImmediateOp, d: u8, k: u8 },
    Wide { op: WideOp, d: u8, k: u8 },
    Movw { d: u8, r: u8 },
    Unary { op: UnaryOp, d: u8 },
    Load { mode: Mode, d: u8 },
    Store { mode: Mode, r: u8 },
    LoadDisplaced { base: Base, q: u8, d: u8 },
    StoreDisplaced { base: Base, q: u8, r: u8 },
    Rjmp { k: i16 },
    Rcall { k: i16 },
    Branch { flag: Flag, set: bool, k: i16 },
    Ret,
    Clc,
    Nop,
}
