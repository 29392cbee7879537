//! How a listing is made and read.
ghost use Rattle.std.specs.Prelude.{◌≡◌, ℕ, ◌<◌, ◌≤◌, length};
ghost use Rattle.verdicts.specs.Verdict.{fine, says};
ghost use Rattle.words.specs.Legal.{length_of, decodes_at, legal_of, word_refusal, instruction_at, word_at};

use crate::fault::WordFault;
use crate::instruction::Instruction;
use crate::listing::Listing;

/// Whether there are as many words as a listing may have.
fn check_length(words: &[u16]) -> Result<(), WordFault>
    ensures { says word_refusal result ≡ length_of words.now }
{
    if words.is_empty() || words.len() > 1024 {
        return Err(WordFault::Length);
    }
    Ok(())
}

impl<'a> Listing<'a> {
    /// Whether words can be a listing: refused by their length, or else for the first word that does not decode.
    // A pair, for callers that check first: what follows an accepted check is no `Result`.
    pub fn check(words: &[u16]) -> Result<(), WordFault>
        ensures { says word_refusal result ≡ legal_of words.now }
    {
        check_length(words)?;
        for (at, &word) in words.iter().enumerate() {
            Instruction::decode(word).ok_or(WordFault::Undecodable(at as u16))?;
        }
        Ok(())
    }

    /// The listing of words that `check` has just accepted.
    #[tactic(auto, using(crate::proofs::Legality::legal_decodes))]
    pub fn new(words: &'a [u16]) -> Self
        requires { legal_of words.now ≡ fine }
        ensures { result.words.now ≡ words.now }
    {
        Listing { words }
    }

    /// How many words there are.
    pub fn len(&self) -> u16
        ensures { result ≡ length self.now.words.now }
    {
        self.words.len() as u16
    }

    /// The word at an address, if the address is in the listing.
    pub fn word(&self, at: u16) -> Option<u16>
        ensures { result ≡ word_at self.now.words.now at }
    {
        self.words.get(usize::from(at)).copied()
    }

    /// The instruction at an address, if the address is in the listing.
    pub fn instruction(&self, at: u16) -> Option<Instruction>
        ensures { result ≡ instruction_at self.now.words.now at }
    {
        self.word(at).and_then(Instruction::decode)
    }
}
