//! Words of the chip that no routine may hold, by name, for whoever wrote one.
ghost use Rattle.std.specs.Prelude.{◌≡◌};
ghost use Rattle.notation.specs.Foreign.{of_register, far, of_port_bit, of_port, of_bit, fixed, bare_of, foreign_of};

use std::fmt;

/// A mnemonic.
#[derive(Clone, Copy)]
pub enum Mnemonic {
    Asr,
    Bld,
    Bst,
    Call,
    Cbi,
    Com,
    Icall,
    Ijmp,
    In,
    Jmp,
    Lds,
    Lpm,
    Out,
    Pop,
    Push,
    Reti,
    Sbi,
    Sbic,
    Sbis,
    Sbrc,
    Sbrs,
    Sleep,
    Sts,
    Swap,
    Wdr,
}

impl Mnemonic {
    /// Its name.
    fn name(self) -> &'static str {
        match self {
            Mnemonic::Asr => "asr",
            Mnemonic::Bld => "bld",
            Mnemonic::Bst => "bst",
            Mnemonic::Call => "call",
            Mnemonic::Cbi => "cbi",
            Mnemonic::Com => "com",
            Mnemonic::Icall => "icall",
            Mnemonic::Ijmp => "ijmp",
            Mnemonic::In => "in",
            Mnemonic::Jmp => "jmp",
            Mnemonic::Lds => "lds",
            Mnemonic::Lpm => "lpm",
            Mnemonic::Out => "out",
            Mnemonic::Pop => "pop",
            Mnemonic::Push => "push",
            Mnemonic::Reti => "reti",
            Mnemonic::Sbi => "sbi",
            Mnemonic::Sbic => "sbic",
            Mnemonic::Sbis => "sbis",
            Mnemonic::Sbrc => "sbrc",
            Mnemonic::Sbrs => "sbrs",
            Mnemonic::Sleep => "sleep",
            Mnemonic::Sts => "sts",
            Mnemonic::Swap => "swap",
            Mnemonic::Wdr => "wdr",
        }
    }
}

/// An instruction of the chip that no routine may hold: its mnemonic, and the register that it names, if it is told by one.
#[derive(Clone, Copy)]
pub struct Foreign {
    pub mnemonic: Mnemonic,
    pub register: Option<u8>,
}

impl fmt::Display for Foreign {
    fn fmt<W: fmt::Write>(&self, f: &mut fmt::Formatter<W>) -> fmt::Result {
        f.write_str(self.mnemonic.name())?;
        match self.register {
            Some(register) => write!(f, " r{register}"),
            None => Ok(()),
        }
    }
}

impl Foreign {
    /// The instruction of the chip that a word is, of the common ones that no routine may hold. Only the bits are looked at that tell it
    /// from those: of a word that a routine may hold the answer means nothing.
    pub fn from_word(word: u16) -> Option<Foreign>
        ensures { result ≡ foreign_of word }
    {
        if let Some(mnemonic) = of_register(word & 0xFE0F) {
            let register = Some((word / 16 % 32) as u8);
            return Some(Foreign { mnemonic, register });
        }
        let mnemonic = bare_of(word)?;
        Some(Foreign {
            mnemonic,
            register: None,
        })
    }
}

/// A word that names no register in the usual place.
fn bare_of(word: u16) -> Option<Mnemonic>
    ensures { result ≡ bare_of word }
{
    fixed(word)
        .or(far(word & 0xFE0E))
        .or(of_port_bit(word & 0xFF00))
        .or(of_port(word & 0xF800))
        .or(of_bit(word & 0xFE08))
}

/// A word that names one register in bits 4 to 8, by its other bits.
fn of_register(bits: u16) -> Option<Mnemonic>
    ensures { result ≡ of_register bits }
{
    match bits {
        0x9400 => Some(Mnemonic::Com),
        0x9402 => Some(Mnemonic::Swap),
        0x9405 => Some(Mnemonic::Asr),
        0x9000 => Some(Mnemonic::Lds),
        0x9200 => Some(Mnemonic::Sts),
        0x9004 | 0x9005 => Some(Mnemonic::Lpm),
        0x900F => Some(Mnemonic::Pop),
        0x920F => Some(Mnemonic::Push),
        _ => None,
    }
}

/// A jump of two words.
fn far(bits: u16) -> Option<Mnemonic>
    ensures { result ≡ far bits }
{
    match bits {
        0x940C => Some(Mnemonic::Jmp),
        0x940E => Some(Mnemonic::Call),
        _ => None,
    }
}

/// A single bit of a port.
fn of_port_bit(bits: u16) -> Option<Mnemonic>
    ensures { result ≡ of_port_bit bits }
{
    match bits {
        0x9800 => Some(Mnemonic::Cbi),
        0x9900 => Some(Mnemonic::Sbic),
        0x9A00 => Some(Mnemonic::Sbi),
        0x9B00 => Some(Mnemonic::Sbis),
        _ => None,
    }
}

/// A port.
fn of_port(bits: u16) -> Option<Mnemonic>
    ensures { result ≡ of_port bits }
{
    match bits {
        0xB000 => Some(Mnemonic::In),
        0xB800 => Some(Mnemonic::Out),
        _ => None,
    }
}

/// A single bit of a register.
fn of_bit(bits: u16) -> Option<Mnemonic>
    ensures { result ≡ of_bit bits }
{
    match bits {
        0xF800 => Some(Mnemonic::Bld),
        0xFA00 => Some(Mnemonic::Bst),
        0xFC00 => Some(Mnemonic::Sbrc),
        0xFE00 => Some(Mnemonic::Sbrs),
        _ => None,
    }
}

/// A word that is told whole.
fn fixed(word: u16) -> Option<Mnemonic>
    ensures { result ≡ fixed word }
{
    match word {
        0x9409 => Some(Mnemonic::Ijmp),
        0x9509 => Some(Mnemonic::Icall),
        0x9518 => Some(Mnemonic::Reti),
        0x9588 => Some(Mnemonic::Sleep),
        0x95A8 => Some(Mnemonic::Wdr),
        0x95C8 => Some(Mnemonic::Lpm),
        _ => None,
    }
}
