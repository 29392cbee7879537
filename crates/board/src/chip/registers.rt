//! Registers and flags, and what each work does to them.
ghost use Rattle.std.specs.Prelude.{◌≡◌, ◌+◌, ◌<◌, false, [], replicate};
ghost use Rattle.alu.specs.Arithmetic.{logic_of};
ghost use Rattle.avr.specs.Core.{core, pair_of};
ghost use Rattle.avr.specs.Effects.{stored, stored_pair, movw_effect};
ghost use Rattle.board.specs.Cores.{bare};
ghost use Rattle.cells.specs.Works.{OperandFits, ByteFits, PairFits, operand_of, back, binary_effect, unary_effect, byte_effect, pair_effect};

use alu::arithmetic;
use alu::output::{ByteOutput, Output, WordOutput};
use cells::work::{Binary, ByteWork, Logic, Nullary, Operand, PairWork, Unary};

/// The chip's own: 32 registers and the flags.
#[derive(Clone, Copy)]
pub struct Registers {
    pub bytes: [u8; 32],
    pub carry: bool,
    pub zero: bool,
}

// A register's number comes from a cell, and `Fits` says there that it is below 32.
impl Registers {
    /// All cleared.
    pub(crate) fn blank() -> Registers
        ensures { bare result ≡ core (replicate 32 0) false false [] }
    {
        Registers {
            bytes: [0; 32],
            carry: false,
            zero: false,
        }
    }

    /// The pair at d.
    pub(crate) fn pair(&self, d: u8) -> u16
        requires { d + 1 < 32 }
        ensures { result ≡ pair_of self.now.bytes d }
    {
        u16::from_le_bytes([self.bytes[d as usize], self.bytes[d as usize + 1]])
    }

    /// Writes the pair at d.
    pub(crate) fn set_pair(&mut self, d: u8, value: u16)
        requires { d + 1 < 32 }
        ensures { bare self.new ≡ back d value (bare self.old) }
    {
        let [low, high] = value.to_le_bytes();
        self.bytes[d as usize] = low;
        self.bytes[d as usize + 1] = high;
    }

    /// Keeps the flags of a result.
    fn compare<V: Copy>(&mut self, output: Output<V>)
        ensures { bare self.new ≡ core self.old.bytes output.carry output.zero [] }
    {
        self.carry = output.carry;
        self.zero = output.zero;
    }

    /// Keeps a result in the register d, with its flags.
    fn store(&mut self, d: u8, output: ByteOutput)
        requires { d < 32 }
        ensures { bare self.new ≡ stored (bare self.old) d output }
    {
        self.bytes[d as usize] = output.value;
        self.compare(output);
    }

    /// Keeps a result in the register d and sets the zero flag by it; the carry stays.
    fn keep(&mut self, d: u8, value: u8)
        requires { d < 32 }
        ensures { bare self.new ≡ stored (bare self.old) d (logic_of value self.old.carry) }
    {
        self.bytes[d as usize] = value;
        self.zero = value == 0;
    }

    /// Keeps a result in the pair at d, with its flags.
    fn store_pair(&mut self, d: u8, output: WordOutput)
        requires { d + 1 < 32 }
        ensures { bare self.new ≡ stored_pair (bare self.old) d output }
    {
        self.set_pair(d, output.value);
        self.compare(output);
    }

    /// The byte that an operand names.
    fn operand(&self, operand: Operand) -> u8
        requires { OperandFits operand }
        ensures { result ≡ operand_of operand self.now.bytes }
    {
        match operand {
            Operand::Register(r) => self.bytes[r as usize],
            Operand::Constant(k) => k,
        }
    }

    /// An operation on the register d and the byte b.
    fn combine(&mut self, operation: Binary, d: u8, b: u8)
        requires { d < 32 }
        ensures { bare self.new ≡ binary_effect operation d b (bare self.old) }
    {
        let a = self.bytes[d as usize];
        match operation {
            Binary::Sum { with_carry } => self.store(
                d,
                arithmetic::sum(a, b, with_carry & self.carry),
            ),
            Binary::Difference { with_carry, kept } => {
                let output = arithmetic::difference(
                    a,
                    b,
                    with_carry & self.carry,
                    !with_carry | self.zero,
                );
                if kept {
                    self.store(d, output);
                } else {
                    self.compare(output);
                }
            }
            Binary::Logic(Logic::And) => self.keep(d, a & b),
            Binary::Logic(Logic::Eor) => self.keep(d, a ^ b),
            Binary::Logic(Logic::Or) => self.keep(d, a | b),
        }
    }

    /// An operation on the register d alone.
    fn change(&mut self, operation: Unary, d: u8)
        requires { d < 32 }
        ensures { bare self.new ≡ unary_effect operation d (bare self.old) }
    {
        let a = self.bytes[d as usize];
        match operation {
            Unary::Count(n) => self.keep(d, a.wrapping_add(n)),
            Unary::Shift { through } => {
                self.keep(d, 128 * u8::from(through & self.carry) + a / 2);
                self.carry = a % 2 == 1;
            }
            Unary::Negate => self.store(d, arithmetic::difference(0, a, false, true)),
        }
    }

    /// What is done to the register d.
    pub(crate) fn byte(&mut self, work: ByteWork, d: u8)
        requires { (d < 32) × (ByteFits work) }
        ensures { bare self.new ≡ byte_effect work d (bare self.old) }
    {
        match work {
            ByteWork::Binary(operation, operand) => self.combine(
                operation,
                d,
                self.operand(operand),
            ),
            ByteWork::Unary(operation) => self.change(operation, d),
            ByteWork::Copied(operand) => self.bytes[d as usize] = self.operand(operand),
        }
    }

    /// Copies the pair at r to the pair at d, byte by byte.
    fn copy_pair(&mut self, d: u8, r: u8)
        requires { (d + 1 < 32) × (r + 1 < 32) }
        ensures { bare self.new ≡ movw_effect d r (bare self.old) }
    {
        let low = self.bytes[r as usize];
        let high = self.bytes[r as usize + 1];
        self.bytes[d as usize] = low;
        self.bytes[d as usize + 1] = high;
    }

    /// What works on pairs, and the few words that are left.
    pub(crate) fn pairs(&mut self, work: PairWork)
        requires { PairFits work }
        ensures { bare self.new ≡ pair_effect work (bare self.old) }
    {
        match work {
            PairWork::Wide { op, d, k } => self.store_pair(
                d,
                arithmetic::wide(op, self.pair(d), k),
            ),
            PairWork::Mul { d, r } => self.store_pair(
                0,
                arithmetic::product(self.bytes[d as usize], self.bytes[r as usize]),
            ),
            PairWork::Nullary(Nullary::Movw { d, r }) => self.copy_pair(d, r),
            PairWork::Nullary(Nullary::Clc) => self.carry = false,
            PairWork::Nullary(Nullary::Nop) => {}
        }
    }
}
