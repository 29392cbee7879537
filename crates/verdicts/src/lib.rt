//! Verdicts: what it means that a check names the first broken rule.
//!
//! The crate has no code that runs: its definitions in specs/ are what the contracts of every call that may refuse speak
//! through, and the one function below carries the law that says what they come to.
#![tactic(auto)]

ghost use Rattle.verdicts.specs.Laws.{FirstBrokenStands};

/// A check over rules 0 to n - 1, or over the rules of the elements of a list, finds nothing if and only if each of them holds, and
/// else names the first that is broken.
/// The law stands in the contract; the call itself answers nothing.
pub fn first_broken_stands()
    ensures { FirstBrokenStands }
{}
