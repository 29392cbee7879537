//! The columns of a row, and where in the row they stand.
ghost use Rattle.std.specs.Prelude.{◌≡◌, nat_lt};
ghost use Rattle.std.specs.Option.{option_map};
ghost use Rattle.std.specs.Bool.{then_some};
ghost use Rattle.secrecy.specs.Rows.{columns, place_columns as columns_of_places, level_columns as columns_of_levels, is_place as place_test};
ghost use Rattle.row_layout.specs.Columns.{index_of, column_at};

use avr::table::{CARRY, MEMORY, ZERO};
use std::fmt;

/// How many places there are.
pub const PLACES: usize = 35;
/// How many columns hold the code of a level: one for each place, and that of the region level.
pub const LEVELS: usize = PLACES + 1;
/// The column of the region level.
pub const REGION: u16 = MEMORY + 1;
/// The column of the join address.
pub const JOIN: u16 = REGION + 1;
/// The column of the cycles that remain.
pub const REMAINING: u16 = JOIN + 1;
/// The column of the function.
pub const FUNCTION: u16 = REMAINING + 1;
/// How many columns a row has.
pub const COLUMNS: usize = FUNCTION as usize + 1;

/// The columns that hold the level of a place. A place has the number of its column.
const PLACE_COLUMNS: [u16; PLACES] = [
    0, 1, 2, 3, 4, 5, 6, 7, 8, 9, 10, 11, 12, 13, 14, 15, 16, 17, 18, 19, 20, 21, 22, 23, 24, 25,
    26, 27, 28, 29, 30, 31, CARRY, ZERO, MEMORY,
];

/// The columns that hold the code of a level.
const LEVEL_COLUMNS: [u16; LEVELS] = [
    0, 1, 2, 3, 4, 5, 6, 7, 8, 9, 10, 11, 12, 13, 14, 15, 16, 17, 18, 19, 20, 21, 22, 23, 24, 25,
    26, 27, 28, 29, 30, 31, CARRY, ZERO, MEMORY, REGION,
];

/// The columns that hold the level of a place, in the order in which they are looked at.
#[tactic(auto, unfolding(secrecy::specs::Rows::place_columns))]
pub fn place_columns() -> &'static [u16; PLACES]
    ensures { result.now ≡ columns_of_places }
{
    &PLACE_COLUMNS
}

/// The columns that hold the code of a level: those of places, and then that of the region level.
#[tactic(auto, unfolding(secrecy::specs::Rows::place_columns))]
pub fn level_columns() -> &'static [u16; LEVELS]
    ensures { result.now ≡ columns_of_levels }
{
    &LEVEL_COLUMNS
}

/// Whether a number is that of a place, which is also its column.
#[tactic(auto, using(crate::proofs::Places::place_number))]
pub fn is_place(number: u16) -> bool
    ensures { result ≡ place_test number }
{
    number <= MEMORY
}

/// What a number of a row is about.
#[derive(Clone, Copy)]
pub enum Column {
    /// The level of a register.
    Register(u8),
    /// The level of the flag C.
    Carry,
    /// The level of the flag Z.
    Zero,
    /// The level of the memory.
    Memory,
    /// The region level.
    Region,
    /// The join address.
    Join,
    /// The remaining cycles.
    Remaining,
    /// The function.
    Function,
}

/// Its name.
impl fmt::Display for Column {
    fn fmt<W: fmt::Write>(&self, f: &mut fmt::Formatter<W>) -> fmt::Result {
        match self {
            Column::Register(register) => write!(f, "r{register}"),
            Column::Carry => f.write_str("c"),
            Column::Zero => f.write_str("z"),
            Column::Memory => f.write_str("memory"),
            Column::Region => f.write_str("region"),
            Column::Join => f.write_str("join"),
            Column::Remaining => f.write_str("remaining"),
            Column::Function => f.write_str("function"),
        }
    }
}

impl Column {
    /// Where it stands in its row.
    pub fn index(self) -> usize
        ensures { result ≡ index_of self }
    {
        match self {
            Column::Register(register) => usize::from(register),
            Column::Carry => usize::from(CARRY),
            Column::Zero => usize::from(ZERO),
            Column::Memory => usize::from(MEMORY),
            Column::Region => usize::from(REGION),
            Column::Join => usize::from(JOIN),
            Column::Remaining => usize::from(REMAINING),
            Column::Function => usize::from(FUNCTION),
        }
    }

    /// The column that stands at an index; none past the last one.
    pub fn from_index(index: u16) -> Option<Column>
        ensures value { result ≡ column_at index }
        ensures back { option_map index_of result ≡ then_some (nat_lt index columns) index }
    {
        match index {
            CARRY => Some(Column::Carry),
            ZERO => Some(Column::Zero),
            MEMORY => Some(Column::Memory),
            REGION => Some(Column::Region),
            JOIN => Some(Column::Join),
            REMAINING => Some(Column::Remaining),
            FUNCTION => Some(Column::Function),
            register if register < CARRY => Some(Column::Register(register as u8)),
            _ => None,
        }
    }
}
