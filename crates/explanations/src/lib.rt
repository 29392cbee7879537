//! Refusals of the judge, explained to whoever made the routine: what is wrong, where, and what to do about it.
//!
//! It stands on `judge` for the faults and on `words`, `row_layout` and `notation` for what a fault is about. It decides nothing: what
//! it works out besides the fault, as the cycles that a row would have to say, is pinned by the definitions of the rules.
#![tactic(auto)]

mod choices;
mod facts;
mod hints;
mod needs;
mod refusal;
mod texts;

pub use hints::Hint;
pub use needs::Need;
pub use refusal::Refusal;
pub use texts::{ColumnName, RowLabel};
