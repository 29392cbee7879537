//! The statements of a routine file, one a line, and the routine that they make.
//!
//! It may use the tokens of `text`, the layout of `row_layout`, the descriptions of `orders` and the calls of `avr`. It carries nothing
//! out and judges nothing: what a file asks for is for the program. docs/FORMAT.md has the rules in words.
#![tactic(auto)]

mod faults;
mod files;
mod forms;
mod keywords;
mod laws;
mod operands;
mod quotes;
mod routines;
mod rows;
mod sets;
mod sizes;
mod statements;
mod steps;
mod stretches;

pub use faults::{Expected, Fault, FileFault, Found, Malformed};
pub use files::read;
pub use keywords::{Keyword, Kind};
pub use laws::reading_stands;
pub use orders::making::Made;
pub use orders::written::{OrderText, SimpleText};
pub use quotes::Quote;
pub use routines::Routine;
pub use row_layout::Column;
pub use rows::{Entry, ROW_WIDTH, RowName, read_row};
pub use sets::{RowForm, RowSet};
pub use statements::{Statement, read_statement};
pub use steps::Step;
pub use stretches::Stretch;
