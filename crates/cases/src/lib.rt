//! Worked examples of words, boards and judgements, as one table that is proved to hold of the definitions.
//!
//! The crate has no code that runs: the table stands in specs/Cases.antt, and the one function below says that every row of
//! it holds.
#![tactic(auto)]

ghost use Rattle.cases.specs.Cases.{CasesStand};

/// Every row of the table of worked examples holds of the definitions.
#[tactic(auto, using(crate::proofs::Computed::cases_law))]
pub fn cases_stand()
    ensures { CasesStand }
{}
