//! Clearing the chip, and access to its places.
ghost use Rattle.std.specs.Prelude.{◌≡◌, ◌<◌, true};
ghost use Rattle.avr.specs.Chip.{blank_core, put_of, get_of, valid_of};
ghost use Rattle.board.specs.Cores.{core_of};

use crate::chip::Chip;
use crate::chip::registers::Registers;
use crate::memory::Memory;
use avr::location::Location;

// Each method that changes a chip says in its clause `lent` that the lent bytes stay the same ones.
impl<'m> Chip<'m> {
    /// The chip on lent bytes, all cleared.
    pub(crate) fn new(memory: Memory<'m>) -> Self
        ensures state { core_of result ≡ blank_core }
        ensures lent { result.memory.ghost_name ≡ memory.entry.bytes.ghost_name }
    {
        let Memory { bytes } = memory;
        let mut chip = Chip {
            memory: bytes,
            registers: Registers::blank(),
        };
        chip.clear();
        chip
    }

    /// Sets every register, flag and byte to 0.
    pub(crate) fn clear(&mut self)
        ensures state { core_of self.new ≡ blank_core }
        ensures lent { self.new.memory.ghost_name ≡ self.old.memory.ghost_name }
    {
        self.memory.fill(0);
        self.registers = Registers::blank();
    }

    /// Writes a byte to a place that there is.
    pub(crate) fn put(&mut self, location: Location, byte: u8)
        requires { valid_of location ≡ true }
        ensures state { core_of self.new ≡ put_of location byte (core_of self.old) }
        ensures lent { self.new.memory.ghost_name ≡ self.old.memory.ghost_name }
    {
        match location {
            Location::Register(d) => self.registers.bytes[d as usize] = byte,
            Location::Memory(a) => self.memory[a as usize] = byte,
        }
    }

    /// The byte at a place that there is.
    pub(crate) fn get(&self, location: Location) -> u8
        requires { valid_of location ≡ true }
        ensures { result ≡ get_of location (core_of self.now) }
    {
        match location {
            Location::Register(d) => self.registers.bytes[d as usize],
            Location::Memory(a) => self.memory[a as usize],
        }
    }
}

/// Whether there is such a place.
pub(crate) fn is_valid(location: Location) -> bool
    ensures { result ≡ valid_of location }
{
    match location {
        Location::Register(d) => d < 32,
        Location::Memory(_) => true,
    }
}
