//! Orders of secrecy levels: the trait that anyone may implement, with the laws that each implementation owes, four orders,
//! and ranks of their levels.
//!
//! It may use the definitions of verdicts. It knows nothing of words, of boards or of what has a level.
#![tactic(auto)]

pub mod chain;
pub mod compartments;
pub mod fault;
pub mod order;
pub mod pair;
pub mod ranked;
pub mod table;
