//! Levels raised in one row.
ghost use Rattle.std.specs.Prelude.{◌≡◌, ℕ, ◌+◌, ◌*◌, ◌<◌, ◌≤◌, true, false, not, ◌==◌, length, slice_index, slice_set};
ghost use Rattle.secrecy.specs.Rows.{rows_of, cell, columns, region_column};
ghost use Rattle.filling.specs.Between.{IsLevel, Between, Due, DuePlaces, DueRegion, PlacesFlow, RegionFlows, SettledTo, RaisesRow};

use crate::settling::{Departure, Job};
use levels::ranked::Ranked;
use row_layout::{COLUMNS, PLACES, REGION};

/// Raises the number at an index to its join with a level, and answers whether that changed it.
fn raise<O: Ranked>(order: &O, rows: &mut [u16], index: usize, level: u16) -> bool
    requires { index < length rows.old }
    ensures set { rows.new ≡ slice_set rows.old index ((O.Order.meaning order.now).join (slice_index rows.old index) level) }
    ensures changed { result ≡ not ((O.Order.meaning order.now).join (slice_index rows.old index) level == slice_index rows.old index) }
{
    let old = rows[index];
    let joined = order.join(old, level);
    rows[index] = joined;
    joined != old
}

/// Where the number in one column of one row stands.
fn index_of(row: u16, column: u16) -> usize
    ensures { result ≡ row * columns + column }
{
    usize::from(row) * COLUMNS + usize::from(column)
}

impl<O: Ranked> Job<'_, O> {
    /// Raises the level in one column of a row to its join with a level that is due there, and answers whether that changed it.
    fn raise_cell(&self, rows: &mut [u16], row: u16, column: u16, level: u16) -> bool
        requires between { Between (O.Order.meaning self.now.order.now) self.now.words.now self.now.given.now rows.old }
        requires row { row ≤ length self.now.words.now }
        requires column { IsLevel column }
        requires due { Due (O.Order.meaning self.now.order.now) self.now.words.now self.now.given.now row column level }
        ensures between { Between (O.Order.meaning self.now.order.now) self.now.words.now self.now.given.now rows.new }
        ensures raises { RaisesRow (O.Order.meaning self.now.order.now) (O.rank_of self.now.order.now) (length self.now.words.now) rows.old rows.new row result }
        ensures settled { (O.Order.meaning self.now.order.now).flows level (cell (length self.now.words.now) rows.new row column) ≡ true }
    {
        raise(self.order, rows, index_of(row, column), level)
    }

    /// Raises the levels of all places in a row to their joins with levels that are due there, by the numbers of the places, and answers
    /// whether that changed one.
    #[tactic(auto, using(crate::proofs::Sets::place_level))]
    fn raise_places(&self, rows: &mut [u16], row: u16, levels: &[u16; PLACES]) -> bool
        requires between { Between (O.Order.meaning self.now.order.now) self.now.words.now self.now.given.now rows.old }
        requires row { row ≤ length self.now.words.now }
        requires due { DuePlaces (O.Order.meaning self.now.order.now) self.now.words.now self.now.given.now row levels.now }
        ensures between { Between (O.Order.meaning self.now.order.now) self.now.words.now self.now.given.now rows.new }
        ensures raises { RaisesRow (O.Order.meaning self.now.order.now) (O.rank_of self.now.order.now) (length self.now.words.now) rows.old rows.new row result }
        ensures settled { PlacesFlow (O.Order.meaning self.now.order.now) self.now.words.now self.now.given.now rows.new row levels.now }
    {
        let mut changed = false;
        for place in 0..PLACES {
            changed |= self.raise_cell(rows, row, place as u16, levels[place]);
        }
        changed
    }

    /// Raises the region level of a row, if it is inside a region, to its join with a pc_level that comes from inside one, and answers
    /// whether that changed it.
    #[tactic(auto, using(crate::proofs::Sets::region_level))]
    fn raise_region(&self, rows: &mut [u16], row: u16, inside: bool, pc_level: u16) -> bool
        requires between { Between (O.Order.meaning self.now.order.now) self.now.words.now self.now.given.now rows.old }
        requires row { row ≤ length self.now.words.now }
        requires due { DueRegion (O.Order.meaning self.now.order.now) self.now.words.now self.now.given.now inside row pc_level }
        ensures between { Between (O.Order.meaning self.now.order.now) self.now.words.now self.now.given.now rows.new }
        ensures raises { RaisesRow (O.Order.meaning self.now.order.now) (O.rank_of self.now.order.now) (length self.now.words.now) rows.old rows.new row result }
        ensures settled { RegionFlows (O.Order.meaning self.now.order.now) self.now.words.now self.now.given.now rows.new inside row pc_level }
    {
        if inside && self.given_rows().remaining(u32::from(row)) > 0 {
            self.raise_cell(rows, row, REGION, pc_level)
        } else {
            false
        }
    }

    /// Raises a row to what a word leaves behind that leads there, and answers whether that changed it.
    pub(crate) fn raise_row(&self, rows: &mut [u16], row: u16, departure: &Departure) -> bool
        requires between { Between (O.Order.meaning self.now.order.now) self.now.words.now self.now.given.now rows.old }
        requires row { row ≤ length self.now.words.now }
        requires places { DuePlaces (O.Order.meaning self.now.order.now) self.now.words.now self.now.given.now row departure.now.levels }
        requires region { DueRegion (O.Order.meaning self.now.order.now) self.now.words.now self.now.given.now departure.now.inside row departure.now.pc_level }
        ensures between { Between (O.Order.meaning self.now.order.now) self.now.words.now self.now.given.now rows.new }
        ensures raises { RaisesRow (O.Order.meaning self.now.order.now) (O.rank_of self.now.order.now) (length self.now.words.now) rows.old rows.new row result }
        ensures settled { SettledTo (O.Order.meaning self.now.order.now) self.now.words.now self.now.given.now rows.new departure.now.levels departure.now.inside departure.now.pc_level row }
    {
        let places = self.raise_places(rows, row, &departure.levels);
        let region = self.raise_region(rows, row, departure.inside, departure.pc_level);
        places | region
    }
}
