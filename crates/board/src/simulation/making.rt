//! Making a board, and the calls that load, read and clear it.
ghost use Rattle.std.specs.Prelude.{◌≡◌, ℕ, ◌<◌, ◌≤◌, length, IfOk, IfErr};
ghost use Rattle.verdicts.specs.Verdict.{says, outcome, making};
ghost use Rattle.machine.specs.Calls.{fresh, done, clear as clear_call, put as put_call, read as read_call};
ghost use Rattle.avr.specs.Chip.{instruction_of, avr};
ghost use Rattle.cells.specs.Cells.{cell_of};
ghost use Rattle.board.specs.Steps.{Fetched};
ghost use Rattle.board.specs.Faults.{making_of, making_refusal, unmade_refusal, put_answer, read_answer};
ghost use Rattle.board.specs.Loans.{SameLoan};
ghost use Rattle.board.specs.States.{board_of, words_of, Works, Lent};

use crate::chip::Chip;
use crate::chip::access::is_valid;
use crate::fault::{CallFault, MakingFault, Unmade};
use crate::memory::Memory;
use crate::simulation::Board;
use arrayvec::ArrayVec;
use avr::location::Location;
use cells::cell::Cell;
use machine::phase::Phase;
use std::array;
use words::instruction::Instruction;
use words::listing::Listing;

/// The cell of the word at an address, if the address is in the listing, and else the given one.
fn cell_at(listing: &Listing<'_>, at: u16, past: Cell) -> Cell
    ensures { at < length listing.now.words.now → result ≡ cell_of at (instruction_of listing.now.words.now at) }
{
    match listing.instruction(at) {
        Some(instruction) => Cell::new(at, instruction),
        None => past,
    }
}

/// The cells of a listing; those past its end are of a nop.
fn cells_of(listing: &Listing<'_>) -> [Cell; 1024]
    ensures { Fetched listing.now.words.now result }
{
    // Worked out once, so that a short listing costs no decoding past its end.
    let past = Cell::new(0, Instruction::Nop);
    array::from_fn(|at| cell_at(listing, at as u16, past))
}

impl<'w, 'm> Board<'w, 'm> {
    /// Whether a board can be made of words and lent bytes: refused where the words are no listing, or else where there are not 65,536
    /// bytes. Nothing is changed.
    pub fn check(words: &[u16], bytes: &[u8]) -> Result<(), MakingFault>
        ensures { says making_refusal result ≡ making_of words.now bytes.now }
    {
        Listing::check(words)?;
        Memory::check(bytes)
    }

    /// The board of a listing and of a memory: everything is 0, the lent bytes too, and it is loading.
    pub fn new(listing: Listing<'w>, memory: Memory<'m>) -> Self
        ensures state { board_of result ≡ fresh (avr listing.entry.words.now) }
        ensures words { words_of result ≡ listing.entry.words.now }
        ensures lent { result.chip.memory.ghost_name ≡ memory.entry.bytes.ghost_name }
    {
        let cells = cells_of(&listing);
        let chip = Chip::new(memory);
        Board {
            listing,
            cells,
            chip,
            at: 0,
            returns: ArrayVec::new(),
            count: 0,
            phase: Phase::Loading,
        }
    }

    /// The board of words and of 65,536 lent bytes, as `new` makes it. Where `check` refuses, so does
    /// this call, and it hands the bytes back as they were.
    pub fn try_new(words: &'w [u16], bytes: &'m mut [u8]) -> Result<Self, Unmade<'m>>
        ensures state { outcome board_of unmade_refusal result ≡ making (making_of words.now bytes.old) (fresh (avr words.now)) }
        ensures words { IfOk result (λ board. words_of board ≡ words.now) }
        ensures lent { IfOk result (λ board. board.chip.memory.ghost_name ≡ bytes.entry.ghost_name) }
        ensures back { IfErr result (λ unmade. SameLoan unmade.bytes bytes.entry) }
    {
        if let Err(fault) = Board::check(words, bytes) {
            return Err(Unmade { fault, bytes });
        }
        let listing = Listing::new(words);
        Ok(Board::new(listing, Memory::new(bytes)))
    }

    /// Sets everything to 0 again, and the phase to loading.
    pub fn clear(&mut self)
        ensures state { Works clear_call self.old self.new done }
        ensures same { Lent self.old self.new }
    {
        self.chip.clear();
        self.at = 0;
        self.returns.clear();
        self.count = 0;
        self.phase = Phase::Loading;
    }

    /// Writes a byte to a place while loading.
    pub fn put(&mut self, location: Location, byte: u8) -> Result<(), CallFault>
        ensures state { Works (put_call location byte) self.old self.new (put_answer result) }
        ensures same { Lent self.old self.new }
    {
        match self.phase {
            Phase::Loading => {
                if !is_valid(location) {
                    return Err(CallFault::Register);
                }
                self.chip.put(location, byte);
                Ok(())
            }
            Phase::Running | Phase::Ended | Phase::Stopped(_) => Err(CallFault::Phase),
        }
    }

    /// The byte at a place, once the routine has ended.
    pub fn read(&self, location: Location) -> Result<u8, CallFault>
        ensures { Works (read_call location) self.now self.now (read_answer result) }
    {
        match self.phase {
            Phase::Ended => {
                if !is_valid(location) {
                    return Err(CallFault::Register);
                }
                Ok(self.chip.get(location))
            }
            Phase::Loading | Phase::Running | Phase::Stopped(_) => Err(CallFault::Phase),
        }
    }
}
