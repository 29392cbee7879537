//! What pooling may refuse, and what the largest remaining number may.
ghost use Rattle.std.specs.Prelude.{◌≡◌};
ghost use Rattle.verdicts.specs.Verdict.{number_of};
ghost use Rattle.pooling.specs.declared.fault.PoolFault.TheVariants.{Words};
ghost use Rattle.pooling.specs.declared.fault.CountFault.TheVariants as count;
ghost use Rattle.pooling.specs.Faults.{pool_refusal, count_refusal};

use judge::faults::RowFault;
use words::fault::WordFault;

/// Why two sets of rows are not pooled.
#[derive(Clone, Copy)]
pub enum PoolFault {
    /// The words are no listing.
    Words(WordFault),
    /// The receiving rows are not as many numbers as the words call for.
    Receiving,
    /// The first set is wrong on its own.
    First(RowFault),
    /// The second set is wrong on its own.
    Second(RowFault),
    /// The sets differ in the join address, the remaining cycles or the function of this row, and in no row before it.
    Differ { row: u16 },
}

impl PoolFault {
    /// Its number in the table of refusals.
    pub fn number(self) -> u8
        ensures { result ≡ number_of (pool_refusal self) }
    {
        match self {
            PoolFault::Words(fault) => fault.number(),
            PoolFault::Receiving => 3,
            PoolFault::First(fault) | PoolFault::Second(fault) => fault.number(),
            PoolFault::Differ { .. } => 17,
        }
    }
}

impl From<WordFault> for PoolFault {
    ghost from_gives = { λ f r. r ≡ Words f };

    fn from(fault: WordFault) -> PoolFault {
        PoolFault::Words(fault)
    }
}

/// Why words and rows have no largest remaining number.
#[derive(Clone, Copy)]
pub enum CountFault {
    /// The words are no listing.
    Words(WordFault),
    /// The rows are not as many numbers as the words call for.
    Count,
}

impl CountFault {
    /// Its number in the table of refusals.
    pub fn number(self) -> u8
        ensures { result ≡ number_of (count_refusal self) }
    {
        match self {
            CountFault::Words(fault) => fault.number(),
            CountFault::Count => 3,
        }
    }
}

impl From<WordFault> for CountFault {
    ghost from_gives = { λ f r. r ≡ count.Words f };

    fn from(fault: WordFault) -> CountFault {
        CountFault::Words(fault)
    }
}
