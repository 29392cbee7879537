//! What the finish row hides.
ghost use Rattle.std.specs.Prelude.{◌≡◌, length};
ghost use Rattle.avr.specs.Chip.{place_of};
ghost use Rattle.row_layout.specs.Views.{rows_in};
ghost use Rattle.program.specs.Hidden.{is_hidden};

use crate::working::Job;
use avr::location::Location;
use avr::table::MEMORY;
use levels::order::Order;
use row_layout::RoutineView;

impl Job<'_, '_> {
    /// Whether the finish row hides a place from an observer of level 0; none where there is no order.
    pub(crate) fn hides(self, location: Location) -> Option<bool> {
        let words = self.routine.words.as_slice();
        let routine = RoutineView::new(words, self.rows);
        let finish = u32::try_from(words.len()).ok()?;
        Some(is_hidden(self.order?, routine, finish, location))
    }
}

/// Whether the row of this number, the finish row, hides a place from an observer of level 0.
fn is_hidden<O: Order>(order: &O, routine: RoutineView<'_>, finish: u32, location: Location) -> bool
    requires { finish ≡ length routine.words.now }
    ensures { result ≡ is_hidden (O.Order.meaning order.now) (rows_in routine.entry.rows) (length routine.entry.words.now) (place_of location) }
{
    !order.flows(routine.rows.level(finish, place_of(location)), 0)
}

/// The place that a location names.
fn place_of(location: Location) -> u16
    ensures { result ≡ place_of location }
{
    match location {
        Location::Register(register) => u16::from(register),
        Location::Memory(_) => MEMORY,
    }
}
