//! Decoding: the instruction of a word.
ghost use Rattle.std.specs.Prelude.{◌≡◌, ℕ, ◌+◌, ◌-◌, ◌*◌, ◌/◌, ◌%◌, ◌^◌, ◌<◌, ◌≤◌, not, T, is_some};
ghost use Rattle.words.specs.Fields.{bits as bits_of, signed as signed_of};
ghost use Rattle.words.specs.Decode.{binary_of, immediate_of, wide_of, movw_of, unary_of, pointers_of, pointer_of, displaced_of, jump_of, branch_of, fixed_of, decode_of, d_of, displacement as displacement_of, pair_written_back, in_pair};

use crate::codes::Coded;
use crate::instruction::{Instruction, Mode};

/// The number in the `count` bits of a word that begin at bit `low`.
fn bits(word: u16, low: u32, count: u32) -> u16
    requires { (low < 16) × (count < 16) }
    ensures value { result ≡ bits_of word low count }
    ensures small { result < 2 ^ count }
{
    (word >> low) % (1 << count)
}

/// What the number in the `count` bits from bit `low` on names, if it names anything.
fn field<C: Coded>(word: u16, low: u32, count: u32) -> Option<C>
    requires { (low < 16) × (count < 16) }
    ensures { result ≡ C.named_by (bits_of word low count) }
{
    C::from_code(bits(word, low, count))
}

/// The distance that a field in two's complement stands for, where the field has 2 * `half` values.
fn signed(field: u16, half: u16) -> i16
    requires { (half ≤ 2048) × (field < 2 * half) }
    ensures { result ≡ signed_of half field }
{
    if field < half {
        field as i16
    } else {
        field as i16 - 2 * half as i16
    }
}

/// The register in bits 8 to 4.
fn register_d(word: u16) -> u8
    ensures value { result ≡ d_of word }
    ensures small { result < 32 }
{
    bits(word, 4, 5) as u8
}

fn binary(word: u16) -> Option<Instruction>
    ensures { result ≡ binary_of word }
{
    let op = field(word, 10, 6)?;
    Some(Instruction::Binary {
        op,
        d: register_d(word),
        r: (16 * bits(word, 9, 1) + bits(word, 0, 4)) as u8,
    })
}

fn immediate(word: u16) -> Option<Instruction>
    ensures { result ≡ immediate_of word }
{
    let op = field(word, 12, 4)?;
    Some(Instruction::Immediate {
        op,
        d: 16 + bits(word, 4, 4) as u8,
        k: (16 * bits(word, 8, 4) + bits(word, 0, 4)) as u8,
    })
}

fn wide(word: u16) -> Option<Instruction>
    ensures { result ≡ wide_of word }
{
    if bits(word, 9, 7) != 0b1001011 {
        return None;
    }
    let op = field(word, 8, 1)?;
    Some(Instruction::Wide {
        op,
        d: 24 + 2 * bits(word, 4, 2) as u8,
        k: (16 * bits(word, 6, 2) + bits(word, 0, 4)) as u8,
    })
}

fn movw(word: u16) -> Option<Instruction>
    ensures { result ≡ movw_of word }
{
    if bits(word, 8, 8) != 0b00000001 {
        return None;
    }
    Some(Instruction::Movw {
        d: 2 * bits(word, 4, 4) as u8,
        r: 2 * bits(word, 0, 4) as u8,
    })
}

fn unary(word: u16) -> Option<Instruction>
    ensures { result ≡ unary_of word }
{
    if bits(word, 9, 7) != 0b1001010 {
        return None;
    }
    let op = field(word, 0, 4)?;
    Some(Instruction::Unary {
        op,
        d: register_d(word),
    })
}

fn displacement(word: u16) -> u8
    ensures value { result ≡ displacement_of word }
    ensures small { result < 64 }
{
    (32 * bits(word, 13, 1) + 8 * bits(word, 10, 2) + bits(word, 0, 3)) as u8
}

impl Mode {
    /// The low register of the pair that is written back, if one is.
    pub fn written_back(self) -> Option<u8>
        ensures { result ≡ pair_written_back self }
    {
        match self {
            Mode::X => None,
            Mode::XInc | Mode::XDec => Some(26),
            Mode::YInc | Mode::YDec => Some(28),
            Mode::ZInc | Mode::ZDec => Some(30),
        }
    }

    /// Whether a register is one of the pair that is written back.
    pub fn writes_back(self, register: u8) -> bool
        ensures { result ≡ in_pair (pair_written_back self) register }
    {
        self.written_back().is_some_and(|low| register == low
            || u16::from(register) == u16::from(low) + 1)
    }
}

fn pointer(word: u16, mode: Mode) -> Option<Instruction>
    ensures { result ≡ pointer_of word mode }
{
    let register = register_d(word);
    if mode.writes_back(register) {
        return None;
    }
    if bits(word, 9, 1) == 0 {
        Some(Instruction::Load { mode, d: register })
    } else {
        Some(Instruction::Store { mode, r: register })
    }
}

fn pointers(word: u16) -> Option<Instruction>
    ensures { result ≡ pointers_of word }
{
    if bits(word, 10, 6) != 0b100100 {
        return None;
    }
    pointer(word, field(word, 0, 4)?)
}

fn displaced(word: u16) -> Option<Instruction>
    ensures { result ≡ displaced_of word }
{
    if bits(word, 14, 2) != 0b10 || bits(word, 12, 1) != 0 {
        return None;
    }
    let base = field(word, 3, 1)?;
    let q = displacement(word);
    let register = register_d(word);
    Some(if bits(word, 9, 1) == 0 {
        Instruction::LoadDisplaced {
            base,
            q,
            d: register,
        }
    } else {
        Instruction::StoreDisplaced {
            base,
            q,
            r: register,
        }
    })
}

fn jump(word: u16) -> Option<Instruction>
    ensures { result ≡ jump_of word }
{
    let k = signed(bits(word, 0, 12), 2048);
    match bits(word, 12, 4) {
        0b1100 => Some(Instruction::Rjmp { k }),
        0b1101 => Some(Instruction::Rcall { k }),
        _ => None,
    }
}

fn branch(word: u16) -> Option<Instruction>
    ensures { result ≡ branch_of word }
{
    if bits(word, 11, 5) != 0b11110 {
        return None;
    }
    let flag = field(word, 0, 3)?;
    Some(Instruction::Branch {
        flag,
        set: bits(word, 10, 1) == 0,
        k: signed(bits(word, 3, 7), 64),
    })
}

fn fixed(word: u16) -> Option<Instruction>
    ensures { result ≡ fixed_of word }
{
    match word {
        0x9508 => Some(Instruction::Ret),
        0x9488 => Some(Instruction::Clc),
        0x0000 => Some(Instruction::Nop),
        _ => None,
    }
}

impl Instruction {
    /// The instruction that a word encodes, if it encodes one.
    pub fn decode(word: u16) -> Option<Instruction>
        ensures { result ≡ decode_of word }
    {
        binary(word)
            .or(immediate(word))
            .or(wide(word))
            .or(movw(word))
            .or(unary(word))
            .or(pointers(word))
            .or(displaced(word))
            .or(jump(word))
            .or(branch(word))
            .or(fixed(word))
    }
}
