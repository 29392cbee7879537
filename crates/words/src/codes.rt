//! The numbers by which a word names one operation, mode, pointer or flag: both ways.
ghost use Rattle.std.specs.Prelude.{◌≡◌, ℕ, ◌^◌, ◌+◌, ◌<◌, ◌≤◌, Some, Option};
ghost use Rattle.std.proofs.Common.{rules};
ghost use Rattle.words.specs.Codes.{binary_code, binary_named, immediate_code, immediate_named, wide_code, wide_named, unary_code, unary_named, mode_code, mode_named, base_code, base_named, flag_code, flag_named};

use crate::instruction::{Base, BinaryOp, Flag, ImmediateOp, Mode, UnaryOp, WideOp};

/// What a field of a word names by its number: each thing has a number of its own, which the field has room for.
pub trait Coded: Copy {
    ghost size: { ℕ };

    ghost code_of: { Self → ℕ };

    ghost named_by: { ℕ → Option Self };

    /// Its number in a word.
    fn code(self) -> u16
        ensures value { result ≡ code_of self }
        ensures small { result < size };

    /// The one with that number, if there is one.
    fn from_code(code: u16) -> Option<Self>
        ensures { result ≡ named_by code };

    ghost fits: { (x : Self) → code_of x < size };

    ghost back: { (x : Self) → named_by (code_of x) ≡ Some x };
}

/// Bits 15 to 10 of a word on two registers.
impl Coded for BinaryOp {
    ghost size = { 64 };

    ghost code_of = { binary_code };

    ghost named_by = { binary_named };

    ghost fits = { Prim.search rules };

    ghost back = { Prim.search rules };

    fn code(self) -> u16 {
        self as u16
    }

    fn from_code(code: u16) -> Option<BinaryOp> {
        match code {
            0b000001 => Some(BinaryOp::Cpc),
            0b000010 => Some(BinaryOp::Sbc),
            0b000011 => Some(BinaryOp::Add),
            0b000100 => Some(BinaryOp::Cpse),
            0b000101 => Some(BinaryOp::Cp),
            0b000110 => Some(BinaryOp::Sub),
            0b000111 => Some(BinaryOp::Adc),
            0b001000 => Some(BinaryOp::And),
            0b001001 => Some(BinaryOp::Eor),
            0b001010 => Some(BinaryOp::Or),
            0b001011 => Some(BinaryOp::Mov),
            0b100111 => Some(BinaryOp::Mul),
            _ => None,
        }
    }
}

/// Bits 15 to 12 of a word on a register and a byte.
impl Coded for ImmediateOp {
    ghost size = { 16 };

    ghost code_of = { immediate_code };

    ghost named_by = { immediate_named };

    ghost fits = { Prim.search rules };

    ghost back = { Prim.search rules };

    fn code(self) -> u16 {
        self as u16
    }

    fn from_code(code: u16) -> Option<ImmediateOp> {
        match code {
            0b0011 => Some(ImmediateOp::Cpi),
            0b0100 => Some(ImmediateOp::Sbci),
            0b0101 => Some(ImmediateOp::Subi),
            0b0111 => Some(ImmediateOp::Andi),
            0b1110 => Some(ImmediateOp::Ldi),
            _ => None,
        }
    }
}

/// Bit 8 of a word on a pair and a constant.
impl Coded for WideOp {
    ghost size = { 2 };

    ghost code_of = { wide_code };

    ghost named_by = { wide_named };

    ghost fits = { Prim.search rules };

    ghost back = { Prim.search rules };

    fn code(self) -> u16 {
        self as u16
    }

    fn from_code(code: u16) -> Option<WideOp> {
        match code {
            0 => Some(WideOp::Adiw),
            1 => Some(WideOp::Sbiw),
            _ => None,
        }
    }
}

/// Bits 3 to 0 of a word on one register.
impl Coded for UnaryOp {
    ghost size = { 16 };

    ghost code_of = { unary_code };

    ghost named_by = { unary_named };

    ghost fits = { Prim.search rules };

    ghost back = { Prim.search rules };

    fn code(self) -> u16 {
        self as u16
    }

    fn from_code(code: u16) -> Option<UnaryOp> {
        match code {
            0b0001 => Some(UnaryOp::Neg),
            0b0011 => Some(UnaryOp::Inc),
            0b0110 => Some(UnaryOp::Lsr),
            0b0111 => Some(UnaryOp::Ror),
            0b1010 => Some(UnaryOp::Dec),
            _ => None,
        }
    }
}

/// Bits 3 to 0 of a load or a store by a pointer.
impl Coded for Mode {
    ghost size = { 16 };

    ghost code_of = { mode_code };

    ghost named_by = { mode_named };

    ghost fits = { Prim.search rules };

    ghost back = { Prim.search rules };

    fn code(self) -> u16 {
        self as u16
    }

    fn from_code(code: u16) -> Option<Mode> {
        match code {
            0b1100 => Some(Mode::X),
            0b1101 => Some(Mode::XInc),
            0b1110 => Some(Mode::XDec),
            0b1001 => Some(Mode::YInc),
            0b1010 => Some(Mode::YDec),
            0b0001 => Some(Mode::ZInc),
            0b0010 => Some(Mode::ZDec),
            _ => None,
        }
    }
}

/// Bit 3 of a displaced load or store.
impl Coded for Base {
    ghost size = { 2 };

    ghost code_of = { base_code };

    ghost named_by = { base_named };

    ghost fits = { Prim.search rules };

    ghost back = { Prim.search rules };

    fn code(self) -> u16 {
        self as u16
    }

    fn from_code(code: u16) -> Option<Base> {
        match code {
            0 => Some(Base::Z),
            1 => Some(Base::Y),
            _ => None,
        }
    }
}

/// Bits 2 to 0 of a branch.
impl Coded for Flag {
    ghost size = { 8 };

    ghost code_of = { flag_code };

    ghost named_by = { flag_named };

    ghost fits = { Prim.search rules };

    ghost back = { Prim.search rules };

    fn code(self) -> u16 {
        self as u16
    }

    fn from_code(code: u16) -> Option<Flag> {
        match code {
            0b000 => Some(Flag::Carry),
            0b001 => Some(Flag::Zero),
            _ => None,
        }
    }
}
