//! What each work does to the chip.
ghost use Rattle.std.specs.Prelude.{◌≡◌, ◌+◌, ◌<◌};
ghost use Rattle.cells.specs.declared.work.Work.TheVariants.{Access as AccessWork};
ghost use Rattle.board.specs.Cores.{core_of};
ghost use Rattle.cells.specs.Works.{Fits, transferred, work_effect};
ghost use Rattle.cells.specs.Cells.{TestFits, test_of};

use crate::chip::Chip;
use cells::cell::Test;
use cells::work::{Access, Reach, Step, Work};

// Each method that changes a chip says in its clause `lent` that the lent bytes stay the same ones.
impl Chip<'_> {
    /// Stores the register at an address, or loads it from there.
    fn transfer(&mut self, store: bool, register: u8, address: u16)
        requires { register < 32 }
        ensures state { core_of self.new ≡ transferred store register address (core_of self.old) }
        ensures lent { self.new.memory.ghost_name ≡ self.old.memory.ghost_name }
    {
        if store {
            self.memory[address as usize] = self.registers.bytes[register as usize];
        } else {
            self.registers.bytes[register as usize] = self.memory[address as usize];
        }
    }

    /// A load or a store.
    fn access(&mut self, access: Access)
        requires { (access.register < 32) × (access.pointer + 1 < 32) }
        ensures state { core_of self.new ≡ work_effect (AccessWork access) (core_of self.old) }
        ensures lent { self.new.memory.ghost_name ≡ self.old.memory.ghost_name }
    {
        let held = self.registers.pair(access.pointer);
        match access.reach {
            Reach::Plain => self.transfer(access.store, access.register, held),
            Reach::Displaced(q) => self.transfer(
                access.store,
                access.register,
                held.wrapping_add(u16::from(q)),
            ),
            Reach::Stepped(Step::Up) => {
                self.transfer(access.store, access.register, held);
                let up = held.wrapping_add(1);
                self.registers.set_pair(access.pointer, up);
            }
            Reach::Stepped(Step::Down) => {
                let down = held.wrapping_sub(1);
                self.transfer(access.store, access.register, down);
                self.registers.set_pair(access.pointer, down);
            }
        }
    }

    /// Carries a word's work out.
    pub(crate) fn perform(&mut self, work: Work)
        requires { Fits work }
        ensures state { core_of self.new ≡ work_effect work (core_of self.old) }
        ensures lent { self.new.memory.ghost_name ≡ self.old.memory.ghost_name }
    {
        match work {
            Work::Byte { d, work } => self.registers.byte(work, d),
            Work::Access(access) => self.access(access),
            Work::Pair(work) => self.registers.pairs(work),
        }
    }

    /// Whether a fork goes aside here.
    pub(crate) fn passes(&self, test: Test) -> bool
        requires { TestFits test }
        ensures { result ≡ test_of test (core_of self.now) }
    {
        let registers = &self.registers;
        match test {
            Test::Carry(set) => registers.carry == set,
            Test::Zero(set) => registers.zero == set,
            Test::Equal(d, r) => registers.bytes[d as usize] == registers.bytes[r as usize],
        }
    }
}
