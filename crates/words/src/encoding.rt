//! Encoding: the word of an instruction.
ghost use Rattle.std.specs.Prelude.{◌≡◌, ℕ, ◌+◌, ◌-◌, ◌*◌, ◌/◌, ◌%◌, ◌<◌, ◌≤◌, true};
ghost use Rattle.words.specs.Fields.{unsigned as unsigned_of, fits_field as fits_in_of};
ghost use Rattle.words.specs.Encode.{encodable, spread as spread_of, word_of, encode_of};

use crate::codes::Coded;
use crate::instruction::Instruction;

/// Whether a distance has a field with 2 * `half` values.
fn fits_in(half: u16, k: i16) -> bool
    requires { half ≤ 2048 }
    ensures { result ≡ fits_in_of half k }
{
    let half = half as i16;
    (-half..half).contains(&k)
}

/// The field with 2 * `half` values that stands for a distance.
fn unsigned(half: u16, k: i16) -> u16
    requires { (half ≤ 2048) × (fits_in_of half k ≡ true) }
    ensures value { result ≡ unsigned_of half k }
    ensures small { result < 2 * half }
{
    if k < 0 {
        (k + 2 * half as i16) as u16
    } else {
        k as u16
    }
}

/// Where a displacement's six bits lie in a word.
fn spread(q: u8) -> u16
    requires { q < 64 }
    ensures value { result ≡ spread_of q }
    ensures small { result < 16384 }
{
    let q = u16::from(q);
    8192 * (q / 32) + 1024 * (q / 8 % 4) + q % 8
}

impl Instruction {
    /// Whether the operands are such as a word has room for.
    fn is_encodable(self) -> bool
        ensures { result ≡ encodable self }
    {
        match self {
            Instruction::Binary { d, r, .. } => d < 32 && r < 32,
            Instruction::Immediate { d, .. } => (16..32).contains(&d),
            Instruction::Wide { d, k, .. } => (24..32).contains(&d) && d % 2 == 0 && k < 64,
            Instruction::Movw { d, r } => d < 32 && d % 2 == 0 && r < 32 && r % 2 == 0,
            Instruction::Unary { d, .. } => d < 32,
            Instruction::Load { mode, d: r } | Instruction::Store { mode, r } => r < 32
                && !mode.writes_back(r),
            Instruction::LoadDisplaced { q, d: r, .. } | Instruction::StoreDisplaced { q, r, .. } =>
                q < 64 && r < 32,
            // Two arms, since an or-pattern that binds an `i16` is not proved.
            Instruction::Rjmp { k } => fits_in(2048, k),
            Instruction::Rcall { k } => fits_in(2048, k),
            Instruction::Branch { k, .. } => fits_in(64, k),
            Instruction::Ret | Instruction::Clc | Instruction::Nop => true,
        }
    }

    /// The word of an instruction whose operands fit.
    fn word(self) -> u16
        requires { encodable self ≡ true }
        ensures { result ≡ word_of self }
    {
        match self {
            Instruction::Binary { op, d, r } => 1024 * op.code()
                + 512 * u16::from(r / 16)
                + 16 * u16::from(d)
                + u16::from(r % 16),
            Instruction::Immediate { op, d, k } => 4096 * op.code()
                + 256 * u16::from(k / 16)
                + 16 * u16::from(d - 16)
                + u16::from(k % 16),
            Instruction::Wide { op, d, k } => 0x9600
                + 256 * op.code()
                + 64 * u16::from(k / 16)
                + 16 * u16::from((d - 24) / 2)
                + u16::from(k % 16),
            Instruction::Movw { d, r } => 0x0100 + 16 * u16::from(d / 2) + u16::from(r / 2),
            Instruction::Unary { op, d } => 0x9400 + 16 * u16::from(d) + op.code(),
            Instruction::Load { mode, d } => 0x9000 + 16 * u16::from(d) + mode.code(),
            Instruction::Store { mode, r } => 0x9200 + 16 * u16::from(r) + mode.code(),
            Instruction::LoadDisplaced { base, q, d } => 0x8000
                + spread(q)
                + 16 * u16::from(d)
                + 8 * base.code(),
            Instruction::StoreDisplaced { base, q, r } => 0x8200
                + spread(q)
                + 16 * u16::from(r)
                + 8 * base.code(),
            Instruction::Rjmp { k } => 0xC000 + unsigned(2048, k),
            Instruction::Rcall { k } => 0xD000 + unsigned(2048, k),
            Instruction::Branch { flag, set, k } => 0xF000
                + if set { 0 } else { 1024 }
                + 8 * unsigned(64, k)
                + flag.code(),
            Instruction::Ret => 0x9508,
            Instruction::Clc => 0x9488,
            Instruction::Nop => 0x0000,
        }
    }

    /// The word that encodes the instruction, if its operands are such as a word has room for.
    pub fn encode(self) -> Option<u16>
        ensures { result ≡ encode_of self }
    {
        self.is_encodable().then(|| self.word())
    }
}
