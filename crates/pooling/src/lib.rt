//! Two sets of rows of one routine pooled, which joins their levels. And the largest remaining number of a routine's rows.
//!
//! It may use the fold over a join-semilattice, the layout of rows, the judge's check of rows on their own, and of an order its interface.
//! What the pool is, and what holds of it, is the crate `pooled`'s.
#![tactic(auto)]

mod checking;
mod combining;
pub mod fault;
mod remaining;

pub use combining::pool;
pub use remaining::largest_remaining;
