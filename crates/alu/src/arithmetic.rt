//! Values and flags of the operations.
ghost use Rattle.std.specs.Prelude.{◌≡◌, ◌≤◌, ◌<◌, ◌==◌, ℕ};
ghost use Rattle.alu.specs.Arithmetic.{output as output_of, sum_of, difference_of, counterpart as counterpart_of, wide_output, product_of};

use crate::output::{ByteOutput, Output, WordOutput};
use words::instruction::{BinaryOp, ImmediateOp, WideOp};

/// The sum of two bytes and a carry.
pub fn sum(a: u8, b: u8, carry: bool) -> ByteOutput
    ensures { result ≡ sum_of a b carry }
{
    let sum = u16::from(a) + u16::from(b) + u16::from(carry);
    output((sum % 256) as u8, sum > 255)
}

/// A byte less another and a borrow; zero is set only if `before` was.
pub fn difference(a: u8, b: u8, carry: bool, before: bool) -> ByteOutput
    ensures { result ≡ difference_of a b carry before }
{
    let difference = 256 + u16::from(a) - u16::from(b) - u16::from(carry);
    let value = (difference % 256) as u8;
    Output {
        value,
        carry: difference < 256,
        zero: value == 0 && before,
    }
}

/// A value with the carry; zero says that it is 0.
fn output<V: Copy + Into<u32>>(value: V, carry: bool) -> Output<V>
    ensures { (n : ℕ) × V.converts value n × (result ≡ output_of value carry (n == 0)) }
{
    Output {
        value,
        carry,
        zero: value.into() == 0,
    }
}

/// The operation on two registers that does what this one does on a register and a constant.
pub fn counterpart(op: ImmediateOp) -> BinaryOp
    ensures { result ≡ counterpart_of op }
{
    match op {
        ImmediateOp::Cpi => BinaryOp::Cp,
        ImmediateOp::Sbci => BinaryOp::Sbc,
        ImmediateOp::Subi => BinaryOp::Sub,
        ImmediateOp::Andi => BinaryOp::And,
        ImmediateOp::Ldi => BinaryOp::Mov,
    }
}

/// What an operation on a 16-bit number and a constant gives.
pub fn wide(op: WideOp, x: u16, k: u8) -> WordOutput
    ensures { result ≡ wide_output op x k }
{
    let k = u16::from(k);
    match op {
        WideOp::Adiw => output(x.wrapping_add(k), x > 65535 - k),
        WideOp::Sbiw => output(x.wrapping_sub(k), x < k),
    }
}

/// The unsigned product of two bytes.
pub fn product(a: u8, b: u8) -> WordOutput
    ensures { result ≡ product_of a b }
{
    let product = u16::from(a) * u16::from(b);
    output(product, product >= 32768)
}
