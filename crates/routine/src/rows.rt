//! Rows that are written by name.
ghost use Rattle.std.specs.Prelude.{◌≡◌, ◌+◌, vec_items, slice_set};
ghost use Rattle.row_layout.specs.Columns.{index_of};
ghost use Rattle.routine.specs.Gathered.{gathered};
ghost use Rattle.routine.specs.Rows.{column_by_own_name, column_by_name, entry_of, row_by_token, row_of, number_of_row, written_at};
ghost use Rattle.routine.specs.Answers.{Answers};

use crate::faults::{Expected, Fault, Found, Malformed};
use crate::operands::{gather, number_of, register_digits};
use row_layout::{COLUMNS, Column};
use std::alloc::Global;
use text::{Line, assignment, number};

/// How many numbers a row has: the width of `row_layout`, under the name that files have for it.
pub const ROW_WIDTH: usize = COLUMNS;

/// The largest number of a register.
const LAST_REGISTER: u32 = 31;

/// The value of a column.
#[derive(Clone, Copy)]
pub struct Entry {
    pub column: Column,
    pub value: u16,
}

/// A row by its name.
#[derive(Clone, Copy)]
pub enum RowName {
    /// The row of the word at an address.
    Address(u16),
    /// The row behind those of all words.
    Finish,
}

/// The column that has this name of its own, if one has.
#[tactic(auto, unfolding(crate::specs::Rows::column_by_own_name))]
fn named_column(name: &[u8]) -> Option<Column>
    ensures { result ≡ column_by_own_name name.now }
{
    match name {
        b"c" => Some(Column::Carry),
        b"z" => Some(Column::Zero),
        b"memory" => Some(Column::Memory),
        b"region" => Some(Column::Region),
        b"join" => Some(Column::Join),
        b"remaining" => Some(Column::Remaining),
        b"function" => Some(Column::Function),
        _ => None,
    }
}

/// The column of this name.
#[tactic(auto, unfolding(crate::specs::Rows::column_by_name))]
fn column_of(name: &[u8]) -> Result<Column, Expected>
    ensures { result ≡ column_by_name name.now }
{
    if let Some(column) = named_column(name) {
        return Ok(column);
    }
    let digits = register_digits(name).ok_or(Expected::Column)?;
    number(digits, LAST_REGISTER)
        .map(|register| Column::Register(register as u8))
        .map_err(|_| Expected::Column)
}

/// The value of a column that a token gives.
#[tactic(auto, unfolding(crate::specs::Rows::entry_of))]
fn entry_of(token: &[u8]) -> Result<Entry, Expected>
    ensures { result ≡ entry_of token.now }
{
    let (name, value) = assignment(token).ok_or(Expected::Assignment)?;
    let column = column_of(name)?;
    let value = number_of(value)?;
    Ok(Entry { column, value })
}

/// The row that a token names.
#[tactic(auto, unfolding(crate::specs::Rows::row_by_token))]
fn row_name_of(token: &[u8]) -> Result<RowName, Expected>
    ensures { result ≡ row_by_token token.now }
{
    if token == b"finish".as_slice() {
        return Ok(RowName::Finish);
    }
    number_of(token)
        .map(RowName::Address)
        .map_err(|_| Expected::Row)
}

/// A row and values of its columns, behind the keyword `row`.
pub fn read_row(heap: Global, mut line: Line<'_>) -> Result<(RowName, Vec<Entry>), Fault>
    ensures { Answers (λ p. (p.0, p.1.items)) result row_of line.entry }
{
    let token = line.next().ok_or(Malformed::missing(Expected::Row))?;
    let name = row_name_of(token).map_err(|expected| Malformed::wrong(expected, token))?;
    let entries = gather(heap, line, entry_of)?;
    Ok((name, entries))
}

/// The number of a row, of so many words.
pub(crate) fn row_number(words: usize, name: RowName) -> Result<usize, Malformed>
    ensures { result ≡ number_of_row words name }
{
    match name {
        RowName::Address(address) => {
            let row = usize::from(address);
            (row < words).then_some(row).ok_or(Malformed {
                expected: Expected::Row,
                found: Found::Address(address),
            })
        }
        RowName::Finish => Ok(words),
    }
}

/// Writes a value into the row that begins at `start`; past the last row there is none.
// A `Vec`, although it does not grow: the proof for a slice stays open at `get_mut`.
fn write_entry(rows: &mut Vec<u16>, start: usize, entry: Entry)
    ensures { rows.new.items ≡ slice_set rows.old.items (start + index_of entry.column) entry.value }
{
    if let Some(place) = start.checked_add(entry.column.index())
        && let Some(cell) = rows.get_mut(place)
    {
        *cell = entry.value;
    }
}

/// Writes values into the row that begins at `start`.
pub(crate) fn write_entries(rows: &mut Vec<u16>, start: usize, entries: &[Entry])
    ensures { rows.new.items ≡ written_at start entries.now rows.old.items }
{
    for entry in entries {
        write_entry(rows, start, *entry);
    }
}
