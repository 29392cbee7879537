//! Registers, flags and lent memory: what the words work on.
ghost use Rattle.std.specs.Prelude.{◌≡◌, length};

use crate::chip::registers::Registers;

pub mod access;
pub mod effects;
pub mod registers;

/// The chip without its clock: registers and flags, and 65,536 lent bytes.
#[derive(Drop)]
pub struct Chip<'m> {
    memory: &'m mut [u8],
    registers: Registers,
    ghost size: { length memory.now ≡ 65536 },
}
