//! Lending bytes as a memory.
ghost use Rattle.std.specs.Prelude.{◌≡◌};
ghost use Rattle.verdicts.specs.Verdict.{fine, says};
ghost use Rattle.board.specs.Faults.{memory_of, making_refusal};
ghost use Rattle.board.specs.Loans.{SameLoan};

use crate::fault::MakingFault;
use crate::memory::Memory;

/// How many bytes a memory has.
const SIZE: usize = 65536;

impl<'m> Memory<'m> {
    /// Whether bytes can be a memory: refused unless there are 65,536. Nothing is changed.
    pub fn check(bytes: &[u8]) -> Result<(), MakingFault>
        ensures { says making_refusal result ≡ memory_of bytes.now }
    {
        if bytes.len() != SIZE {
            return Err(MakingFault::Memory);
        }
        Ok(())
    }

    /// The memory of lent bytes that `check` has just accepted. They stay as they are.
    pub fn new(bytes: &'m mut [u8]) -> Self
        requires { memory_of bytes.old ≡ fine }
        ensures { SameLoan result.bytes bytes.entry }
    {
        Memory { bytes }
    }
}
