//! What filling in may refuse.
ghost use Rattle.std.specs.Prelude.{◌≡◌};
ghost use Rattle.verdicts.specs.Verdict.{number_of};
ghost use Rattle.filling.specs.declared.fault.FillingFault.TheVariants.{Words, Rows};
ghost use Rattle.filling.specs.Answers.{filling_refusal};

use judge::faults::RowFault;
use words::fault::WordFault;

/// Why levels are not filled in.
#[derive(Clone, Copy)]
pub enum FillingFault {
    /// The words are no listing.
    Words(WordFault),
    /// The given rows or the receiving rows are of the wrong length, or something given is wrong on its own.
    Rows(RowFault),
    /// No accepted rows have what is given.
    Unfillable,
}

impl FillingFault {
    /// Its number in the table of refusals.
    pub fn number(self) -> u8
        ensures { result ≡ number_of (filling_refusal self) }
    {
        match self {
            FillingFault::Words(fault) => fault.number(),
            FillingFault::Rows(fault) => fault.number(),
            FillingFault::Unfillable => 16,
        }
    }
}

impl From<WordFault> for FillingFault {
    ghost from_gives = { λ f r. r ≡ Words f };

    fn from(fault: WordFault) -> FillingFault {
        FillingFault::Words(fault)
    }
}

impl From<RowFault> for FillingFault {
    ghost from_gives = { λ f r. r ≡ Rows f };

    fn from(fault: RowFault) -> FillingFault {
        FillingFault::Rows(fault)
    }
}
