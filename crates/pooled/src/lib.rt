//! Rows that are pooled: what the pool of two sets of rows is, and what holds of it.
//!
//! The crate has no code that runs. Its definitions in specs/ are of any order of levels and of any machine, through their meaning and
//! their laws alone, and the function below carries the theorem about them in its contract.
#![tactic(auto)]

ghost use Rattle.pooled.specs.Pooling.{PoolingStands};

/// The pool of two accepted sets of rows is accepted, it is the least set that lies at or above both, and neither
/// the sequence nor the bracketing of several poolings matters.
#[tactic(auto, using(crate::proofs::Stands::pooling))]
pub fn pooling_stands()
    ensures { PoolingStands }
{}
