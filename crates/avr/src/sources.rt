//! Short lists of places, as the rows of the table have them.
ghost use Rattle.std.specs.Prelude.{◌≤◌};

/// The places that something comes from, in order: at most four.
#[derive(Clone, Copy)]
pub struct Sources {
    places: [u16; 4],
    count: usize,
    ghost few: { count ≤ 4 },
}

pub mod listing;
