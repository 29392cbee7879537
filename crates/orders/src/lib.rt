//! Orders of levels by the kinds that a maker may name: one type for the simple kinds, so that it and a pair of two
//! serve for all; and the making of an order as it is written.
//!
//! It may use `levels` alone, and knows nothing of files: what a description is read from is for those above.
#![tactic(auto)]

pub mod making;
pub mod simple;
pub mod written;
