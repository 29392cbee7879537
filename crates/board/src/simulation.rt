//! A board on a listing.
ghost use Rattle.std.specs.Prelude.{◌≡◌, ◌<◌, length};
ghost use Rattle.board.specs.Steps.{Fetched};

use crate::chip::Chip;
use arrayvec::ArrayVec;
use cells::cell::Cell;
use machine::phase::Phase;
use words::listing::Listing;

pub mod making;
pub mod running;

/// A simulated board: the chip on 65,536 lent bytes, the address of the next word, the returns that are held apart from
/// memory, the cycle count and the phase. It always stands at an address of its listing.
// A board has no heap, so it has room for the cells of the longest listing; the listing's length says how many count.
#[derive(Drop)]
pub struct Board<'w, 'm> {
    listing: Listing<'w>,
    cells: [Cell; 1024],
    chip: Chip<'m>,
    at: u16,
    returns: ArrayVec<u16, 16>,
    count: u32,
    phase: Phase,
    ghost inside: { at < length listing.words.now },
    ghost fetched: { Fetched listing.words.now cells },
}
