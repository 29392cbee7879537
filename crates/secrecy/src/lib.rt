//! Rows of secrecy levels: when they are accepted for a machine's words, and what acceptance promises.
//!
//! The crate has no code that runs. Its definitions in specs/ are of any order of levels and of any machine, through their
//! meaning and their laws alone, and each function below carries a theorem about them in its contract.
#![tactic(auto)]

ghost use Rattle.secrecy.specs.Accepted.{RulesStand};
ghost use Rattle.secrecy.specs.Examples.{Examples};
ghost use Rattle.secrecy.specs.Filling.{FillingStands};
ghost use Rattle.secrecy.specs.Hiding.{HidingStands};
ghost use Rattle.secrecy.specs.Refusals.{RefusalsStand};

/// The checks of rows find nothing if the rows are accepted, and only then.
#[tactic(auto, using(crate::proofs::Meanings::rules))]
pub fn rules_stand()
    ensures { RulesStand }
{}

/// The checks of rows refuse where the rule that the refusal names is broken and everything that comes before it is right, and only
/// there.
#[tactic(auto, using(crate::proofs::Refused::refused_by))]
pub fn refusals_stand()
    ensures { RefusalsStand }
{}

/// Accepted rows hide every secret: two boards that differ in secrets only answer all calls alike, cycle counts among them, and
/// the ways through a region all take the cycles that its rows say.
#[tactic(auto, using(crate::proofs::Hidings::hiding))]
pub fn hiding_stands()
    ensures { HidingStands }
{}

/// Levels that rise along the ways of a routine stay below every accepted set of rows, and settle on an accepted one if there is any.
#[tactic(auto, using(crate::proofs::Fillings::filling))]
pub fn filling_stands()
    ensures { FillingStands }
{}

/// The rules at work: some small routines with their rows, accepted or refused.
#[tactic(auto, unfolding(verdicts::specs::Verdict::first, verdicts::specs::Verdict::first_of, crate::specs::Rows::place_columns, crate::specs::Rows::is_among))]
pub fn examples_stand()
    ensures { Examples }
{}
