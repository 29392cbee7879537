//! One call on both boards.
ghost use Rattle.std.specs.Prelude.{◌≡◌, IfOk, IfErr};
ghost use Rattle.verdicts.specs.Verdict.{says, outcome, making, and_then};
ghost use Rattle.machine.specs.Calls.{fresh};
ghost use Rattle.avr.specs.Chip.{avr};
ghost use Rattle.board.specs.Faults.{making_of, making_refusal};
ghost use Rattle.board.specs.Loans.{SameLoan};
ghost use Rattle.board.specs.States.{words_of, Lent};
ghost use Rattle.couples.specs.Calls.{Answered, sides, unmade_refusal};

use crate::answers::{Answer, Answers};
use crate::fault::Unmade;
use avr::location::Location;
use board::Board;
use board::fault::MakingFault;
use board::memory::Memory;
pub use machine::call::Call;
use words::listing::Listing;

/// Two boards that are given one call after another.
#[derive(Drop)]
pub struct Couple<'w, 'm, 'n> {
    pub left: Board<'w, 'm>,
    pub right: Board<'w, 'n>,
}

impl<'w, 'm, 'n> Couple<'w, 'm, 'n> {
    /// Whether two boards can be made on words, one on each of two memories: refused where one of them cannot. Nothing is changed.
    pub fn check(words: &[u16], left: &[u8], right: &[u8]) -> Result<(), MakingFault>
        ensures { says making_refusal result ≡ and_then (making_of words.now left.now) (making_of words.now right.now) }
    {
        Board::check(words, left)?;
        Board::check(words, right)
    }

    /// Two boards on a listing, each on a memory of its own: everything is 0, and both are loading.
    pub fn new(listing: Listing<'w>, left: Memory<'m>, right: Memory<'n>) -> Self
        ensures state { sides result ≡ (fresh (avr listing.entry.words.now), fresh (avr listing.entry.words.now)) }
        ensures words { (words_of result.left ≡ listing.entry.words.now) × (words_of result.right ≡ listing.entry.words.now) }
        ensures lent { (result.left.chip.memory.ghost_name ≡ left.entry.bytes.ghost_name) × (result.right.chip.memory.ghost_name ≡ right.entry.bytes.ghost_name) }
    {
        Couple {
            left: Board::new(listing, left),
            right: Board::new(listing, right),
        }
    }

    /// Two boards on the same words, each on 65,536 lent bytes of its own. Where the words are no listing, or one has more or fewer
    /// bytes, there are none: the first reason is answered, and the bytes of both are handed back as they were.
    pub fn try_new(
        words: &'w [u16],
        left: &'m mut [u8],
        right: &'n mut [u8],
    ) -> Result<Self, Unmade<'m, 'n>>
        ensures state { outcome sides unmade_refusal result ≡ making (and_then (making_of words.now left.old) (making_of words.now right.old)) (fresh (avr words.now), fresh (avr words.now)) }
        ensures words { IfOk result (λ couple. (words_of couple.left ≡ words.now) × (words_of couple.right ≡ words.now)) }
        ensures lent { IfOk result (λ couple. (couple.left.chip.memory.ghost_name ≡ left.entry.ghost_name) × (couple.right.chip.memory.ghost_name ≡ right.entry.ghost_name)) }
        ensures back { IfErr result (λ unmade. SameLoan unmade.left left.entry × SameLoan unmade.right right.entry) }
    {
        if let Err(fault) = Couple::check(words, left, right) {
            return Err(Unmade { fault, left, right });
        }
        let listing = Listing::new(words);
        Ok(Couple::new(listing, Memory::new(left), Memory::new(right)))
    }

    /// Works a call on both boards, the left one first, and gives their answers.
    pub fn work(&mut self, call: Call<Location>) -> Answers
        ensures answers { Answered call self.old.left self.old.right self.new.left self.new.right result }
        ensures lent { (Lent self.old.left self.new.left) × (Lent self.old.right self.new.right) }
    {
        match call {
            Call::Clear => {
                self.left.clear();
                self.right.clear();
                Answers {
                    left: Answer::Done,
                    right: Answer::Done,
                }
            }
            Call::Put {
                location,
                left: first,
                right: second,
            } => Answers {
                left: Answer::from(self.left.put(location, first)),
                right: Answer::from(self.right.put(location, second)),
            },
            Call::Run { limit } => Answers {
                left: Answer::Ends(self.left.run(limit)),
                right: Answer::Ends(self.right.run(limit)),
            },
            Call::Read { location } => Answers {
                left: Answer::from(self.left.read(location)),
                right: Answer::from(self.right.read(location)),
            },
        }
    }
}
