//! The lexical layer of routine files: which bytes a file may hold, its lines, the tokens of a line, and the numbers and
//! assignments that tokens write.
//!
//! It uses no other crate and knows no keyword. Nothing is copied: lines and tokens are slices of the file. docs/TEXT.md has the
//! rules in words. Every call takes any bytes.
#![tactic(auto)]

mod bytes;
mod checking;
mod cursors;
mod laws;
mod numbers;

pub use checking::{BadByte, is_text};
pub use cursors::{Line, Lines, assignment};
pub use laws::{assignments_stand, checks_stand, lines_stand, numbers_stand, tokens_stand};
pub use numbers::{NumberFault, number};
