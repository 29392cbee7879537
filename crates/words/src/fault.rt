//! What words may be refused for.
ghost use Rattle.std.specs.Prelude.{◌≡◌};
ghost use Rattle.words.specs.Legal.{word_refusal};
ghost use Rattle.verdicts.specs.Verdict.{number_of};

/// A fault of words that are to be a listing.
#[derive(Clone, Copy)]
pub enum WordFault {
    /// There are no words, or more than 1,024.
    Length,
    /// The word at this address does not decode; all before it do.
    Undecodable(u16),
}

impl WordFault {
    /// Its number in the table of refusals.
    pub fn number(self) -> u8
        ensures { result ≡ number_of (word_refusal self) }
    {
        match self {
            WordFault::Length => 1,
            WordFault::Undecodable(_) => 2,
        }
    }
}
