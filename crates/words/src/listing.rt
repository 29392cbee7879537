//! Listings: a view of lent words that have a legal length and all decode.
ghost use Rattle.std.specs.Prelude.{◌≡◌, ℕ, ◌<◌, ◌≤◌, true, length};
ghost use Rattle.words.specs.Legal.{Decodes};

/// A routine's words, lent: at least one, at most 1,024, and each of them decodes. Whoever has a listing need not ask again.
#[derive(Clone, Copy)]
pub struct Listing<'a> {
    words: &'a [u16],
    ghost some: { 1 ≤ length words.now },
    ghost few: { length words.now ≤ 1024 },
    ghost decode: { Decodes words.now },
}

pub mod reading;
