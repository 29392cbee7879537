//! Decoding and encoding of words are inverse to each other.
//!
//! It may use the words alone. The theorem takes a test over all 65,536 words, so it has a crate of its own, beside the code that it
//! speaks of.
#![tactic(auto)]

ghost use Rattle.std.specs.Prelude.{◌≡◌};
ghost use Rattle.coding.specs.Inverse.{Inverse, recode_of};

use words::instruction::Instruction;

/// Decodes a word and encodes what was read: the word again, or nothing where it has no instruction.
pub fn recode(word: u16) -> Option<u16>
    ensures answer { result ≡ recode_of word }
    ensures inverse { Inverse }
{
    Instruction::decode(word).and_then(Instruction::encode)
}
