//! Sorting instructions into works.
ghost use Rattle.std.specs.Prelude.{◌≡◌};
ghost use Rattle.cells.specs.declared.work.Binary.TheVariants.{Difference};
ghost use Rattle.cells.specs.Works.{two_operands as two_operands_of, nullary_work as nullary_work_of, access as access_of, product_work, binary_work, unary_work, reach_of, work_of};

use crate::work::{
    Access, Binary, ByteWork, Logic, Nullary, Operand, PairWork, Reach, Step, Unary, Work,
};
use alu::arithmetic::counterpart;
use avr::pointer::Pointer;
use words::instruction::{BinaryOp, Instruction, Mode, UnaryOp};

/// An operation on the register d and a second byte.
fn two_operands(d: u8, operation: Binary, operand: Operand) -> Work
    ensures { result ≡ two_operands_of d operation operand }
{
    Work::Byte {
        d,
        work: ByteWork::Binary(operation, operand),
    }
}

/// A difference, with the borrow before or without, that is kept or only compared.
fn difference(d: u8, with_carry: bool, kept: bool, operand: Operand) -> Work
    ensures { result ≡ two_operands_of d (Difference with_carry kept) operand }
{
    two_operands(d, Binary::Difference { with_carry, kept }, operand)
}

/// What touches the carry at most.
fn nullary_work(what: Nullary) -> Work
    ensures { result ≡ nullary_work_of what }
{
    Work::Pair(PairWork::Nullary(what))
}

/// The work of mul, which takes no constant.
fn product(d: u8, operand: Operand) -> Work
    ensures { result ≡ product_work d operand }
{
    match operand {
        Operand::Register(r) => Work::Pair(PairWork::Mul { d, r }),
        Operand::Constant(_) => nullary_work(Nullary::Nop),
    }
}

/// The work of an operation on the register d and a second byte; cpse changes nothing.
fn work_on_two(op: BinaryOp, d: u8, operand: Operand) -> Work
    ensures { result ≡ binary_work op d operand }
{
    match op {
        BinaryOp::Cpc => difference(d, true, false, operand),
        BinaryOp::Sbc => difference(d, true, true, operand),
        BinaryOp::Add => two_operands(d, Binary::Sum { with_carry: false }, operand),
        BinaryOp::Cpse => nullary_work(Nullary::Nop),
        BinaryOp::Cp => difference(d, false, false, operand),
        BinaryOp::Sub => difference(d, false, true, operand),
        BinaryOp::Adc => two_operands(d, Binary::Sum { with_carry: true }, operand),
        BinaryOp::And => two_operands(d, Binary::Logic(Logic::And), operand),
        BinaryOp::Eor => two_operands(d, Binary::Logic(Logic::Eor), operand),
        BinaryOp::Or => two_operands(d, Binary::Logic(Logic::Or), operand),
        BinaryOp::Mov => Work::Byte {
            d,
            work: ByteWork::Copied(operand),
        },
        BinaryOp::Mul => product(d, operand),
    }
}

/// The work of an operation on one register.
fn work_on_one(op: UnaryOp) -> Unary
    ensures { result ≡ unary_work op }
{
    match op {
        UnaryOp::Neg => Unary::Negate,
        UnaryOp::Inc => Unary::Count(1),
        UnaryOp::Lsr => Unary::Shift { through: false },
        UnaryOp::Ror => Unary::Shift { through: true },
        UnaryOp::Dec => Unary::Count(255),
    }
}

/// How a mode finds its address.
fn reach(mode: Mode) -> Reach
    ensures { result ≡ reach_of mode }
{
    match mode {
        Mode::X => Reach::Plain,
        Mode::XInc | Mode::YInc | Mode::ZInc => Reach::Stepped(Step::Up),
        Mode::XDec | Mode::YDec | Mode::ZDec => Reach::Stepped(Step::Down),
    }
}

/// A load or a store of a register by a pointer.
fn access(store: bool, register: u8, pointer: u8, reach: Reach) -> Work
    ensures { result ≡ access_of store register pointer reach }
{
    Work::Access(Access {
        store,
        register,
        pointer,
        reach,
    })
}

/// The work of an instruction.
impl From<Instruction> for Work {
    ghost from_gives = { λ instruction work. work ≡ work_of instruction };

    fn from(instruction: Instruction) -> Work {
        match instruction {
            Instruction::Binary { op, d, r } => work_on_two(op, d, Operand::Register(r)),
            Instruction::Immediate { op, d, k } => work_on_two(
                counterpart(op),
                d,
                Operand::Constant(k),
            ),
            Instruction::Wide { op, d, k } => Work::Pair(PairWork::Wide { op, d, k }),
            Instruction::Movw { d, r } => nullary_work(Nullary::Movw { d, r }),
            Instruction::Unary { op, d } => Work::Byte {
                d,
                work: ByteWork::Unary(work_on_one(op)),
            },
            Instruction::Load { mode, d } => access(false, d, mode.pointer(), reach(mode)),
            Instruction::Store { mode, r } => access(true, r, mode.pointer(), reach(mode)),
            Instruction::LoadDisplaced { base, q, d } => access(
                false,
                d,
                base.pointer(),
                Reach::Displaced(q),
            ),
            Instruction::StoreDisplaced { base, q, r } => access(
                true,
                r,
                base.pointer(),
                Reach::Displaced(q),
            ),
            Instruction::Clc => nullary_work(Nullary::Clc),
            _ => nullary_work(Nullary::Nop),
        }
    }
}
