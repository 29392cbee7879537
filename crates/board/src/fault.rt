//! What a board may refuse.
ghost use Rattle.std.specs.Prelude.{◌≡◌};
ghost use Rattle.verdicts.specs.Verdict.{number_of};
ghost use Rattle.board.specs.declared.fault.MakingFault.TheVariants.{Words};
ghost use Rattle.board.specs.Faults.{making_refusal, call_refusal};

use words::fault::WordFault;

/// Why a board cannot be made.
#[derive(Clone, Copy)]
pub enum MakingFault {
    /// The words are no listing; the reader's fault is carried whole.
    Words(WordFault),
    /// The lent memory has not 65,536 bytes.
    Memory,
}

/// Why a board cannot be made, with the bytes that it was to have, handed back.
#[derive(Drop)]
pub struct Unmade<'m> {
    pub fault: MakingFault,
    pub bytes: &'m mut [u8],
}

/// Why a call on a board is refused; each fault is its number in the table of refusals.
#[derive(Clone, Copy, PartialEq, Eq)]
pub enum CallFault {
    /// A put unless loading, or a read unless ended.
    Phase = 12,
    /// There is no such register.
    Register = 13,
}

// Written by hand for its `from_gives`: clauses name what `?` makes, and a derived `From` says nothing of it.
impl From<WordFault> for MakingFault {
    ghost from_gives = { λ f r. r ≡ Words f };

    fn from(fault: WordFault) -> MakingFault {
        MakingFault::Words(fault)
    }
}

impl MakingFault {
    /// Its number in the table of refusals.
    pub fn number(self) -> u8
        ensures { result ≡ number_of (making_refusal self) }
    {
        match self {
            MakingFault::Words(fault) => fault.number(),
            MakingFault::Memory => 11,
        }
    }
}

impl CallFault {
    /// Its number in the table of refusals.
    pub fn number(self) -> u8
        ensures { result ≡ number_of (call_refusal self) }
    {
        self as u8
    }
}
