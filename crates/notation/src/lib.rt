//! Instructions in the assembler's notation, as a disassembler prints them.
//!
//! It may use the words alone. What is printed is tested, by the vectors, and not proved: a contract cannot speak of a width.
#![tactic(auto)]

mod foreign;

pub use foreign::{Foreign, Mnemonic};
use std::fmt;
use words::instruction::{Base, BinaryOp, Flag, ImmediateOp, Instruction, Mode, UnaryOp, WideOp};

/// What the notation has a name for: a mnemonic, or a pointer with its step.
trait Named: Copy {
    fn name(self) -> &'static str;
}

impl Named for BinaryOp {
    fn name(self) -> &'static str {
        match self {
            BinaryOp::Cpc => "cpc",
            BinaryOp::Sbc => "sbc",
            BinaryOp::Add => "add",
            BinaryOp::Cpse => "cpse",
            BinaryOp::Cp => "cp",
            BinaryOp::Sub => "sub",
            BinaryOp::Adc => "adc",
            BinaryOp::And => "and",
            BinaryOp::Eor => "eor",
            BinaryOp::Or => "or",
            BinaryOp::Mov => "mov",
            BinaryOp::Mul => "mul",
        }
    }
}

impl Named for ImmediateOp {
    fn name(self) -> &'static str {
        match self {
            ImmediateOp::Cpi => "cpi",
            ImmediateOp::Sbci => "sbci",
            ImmediateOp::Subi => "subi",
            ImmediateOp::Andi => "andi",
            ImmediateOp::Ldi => "ldi",
        }
    }
}

impl Named for WideOp {
    fn name(self) -> &'static str {
        match self {
            WideOp::Adiw => "adiw",
            WideOp::Sbiw => "sbiw",
        }
    }
}

impl Named for UnaryOp {
    fn name(self) -> &'static str {
        match self {
            UnaryOp::Neg => "neg",
            UnaryOp::Inc => "inc",
            UnaryOp::Lsr => "lsr",
            UnaryOp::Ror => "ror",
            UnaryOp::Dec => "dec",
        }
    }
}

impl Named for Mode {
    fn name(self) -> &'static str {
        match self {
            Mode::X => "X",
            Mode::XInc => "X+",
            Mode::XDec => "-X",
            Mode::YInc => "Y+",
            Mode::YDec => "-Y",
            Mode::ZInc => "Z+",
            Mode::ZDec => "-Z",
        }
    }
}

impl Named for Base {
    fn name(self) -> &'static str {
        match self {
            Base::Y => "Y",
            Base::Z => "Z",
        }
    }
}

/// The mnemonic of a branch.
fn branch(flag: Flag, set: bool) -> &'static str {
    match (flag, set) {
        (Flag::Carry, true) => "brcs",
        (Flag::Carry, false) => "brcc",
        (Flag::Zero, true) => "breq",
        (Flag::Zero, false) => "brne",
    }
}

/// A register.
#[derive(Clone, Copy)]
struct Register(u8);

impl fmt::Display for Register {
    fn fmt<W: fmt::Write>(&self, f: &mut fmt::Formatter<W>) -> fmt::Result {
        write!(f, "r{}", self.0)
    }
}

/// A constant byte.
#[derive(Clone, Copy)]
struct Byte(u8);

impl fmt::Display for Byte {
    fn fmt<W: fmt::Write>(&self, f: &mut fmt::Formatter<W>) -> fmt::Result {
        write!(f, "0x{:02X}", self.0)
    }
}

/// A pointer, and what is added to it unless that is 0.
#[derive(Clone, Copy)]
struct Displaced(Base, u8);

impl fmt::Display for Displaced {
    fn fmt<W: fmt::Write>(&self, f: &mut fmt::Formatter<W>) -> fmt::Result {
        let base = self.0.name();
        match self.1 {
            0 => f.write_str(base),
            q => write!(f, "{base}+{q}"),
        }
    }
}

/// A distance in bytes from the next address, with its sign.
#[derive(Clone, Copy)]
struct Distance(i16);

impl fmt::Display for Distance {
    fn fmt<W: fmt::Write>(&self, f: &mut fmt::Formatter<W>) -> fmt::Result {
        write!(f, ".{:+}", i32::from(self.0) * 2)
    }
}

/// An instruction, to be shown in the assembler's notation.
#[derive(Clone, Copy)]
pub struct Assembly(pub Instruction);

impl fmt::Display for Assembly {
    fn fmt<W: fmt::Write>(&self, f: &mut fmt::Formatter<W>) -> fmt::Result {
        match self.0 {
            Instruction::Binary { op, d, r } => {
                write!(f, "{} {}, {}", op.name(), Register(d), Register(r))
            }
            Instruction::Immediate { op, d, k } => {
                write!(f, "{} {}, {}", op.name(), Register(d), Byte(k))
            }
            Instruction::Wide { op, d, k } => {
                write!(f, "{} {}, {}", op.name(), Register(d), Byte(k))
            }
            Instruction::Movw { d, r } => write!(f, "movw {}, {}", Register(d), Register(r)),
            Instruction::Unary { op, d } => write!(f, "{} {}", op.name(), Register(d)),
            Instruction::Load { mode, d } => write!(f, "ld {}, {}", Register(d), mode.name()),
            Instruction::Store { mode, r } => write!(f, "st {}, {}", mode.name(), Register(r)),
            Instruction::LoadDisplaced { base, q, d } => {
                let mnemonic = if q == 0 { "ld" } else { "ldd" };
                write!(f, "{mnemonic} {}, {}", Register(d), Displaced(base, q))
            }
            Instruction::StoreDisplaced { base, q, r } => {
                let mnemonic = if q == 0 { "st" } else { "std" };
                write!(f, "{mnemonic} {}, {}", Displaced(base, q), Register(r))
            }
            Instruction::Rjmp { k } => write!(f, "rjmp {}", Distance(k)),
            Instruction::Rcall { k } => write!(f, "rcall {}", Distance(k)),
            Instruction::Branch { flag, set, k } => {
                write!(f, "{} {}", branch(flag, set), Distance(k))
            }
            Instruction::Ret => f.write_str("ret"),
            Instruction::Clc => f.write_str("clc"),
            Instruction::Nop => f.write_str("nop"),
        }
    }
}
