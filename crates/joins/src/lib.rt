//! What is combined by joins, and many of it folded into one.
//!
//! The trait is a join-semilattice with a least element. Two things implement it: the levels of any order, and numbers under the larger of
//! two. It may use an order's interface. It knows nothing of words and rows.
#![tactic(auto)]

mod ends;
mod folding;
mod semilattice;

pub use ends::{Larger, Levels};
pub use folding::fold;
pub use semilattice::Semilattice;
