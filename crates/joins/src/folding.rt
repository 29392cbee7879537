//! Many values folded into one.
ghost use Rattle.std.specs.Prelude.{◌≡◌};
ghost use Rattle.joins.specs.Folds.{fold_of, AllMembers, LeastAbove, FoldsAlike};

use crate::semilattice::Semilattice;

/// The join of all values of a slice, and the least member if there are none. Of members it is the least member that all of them lie at
/// or below, whatever their sequence, and however often one of them is there.
pub fn fold<S: Semilattice>(semilattice: &S, values: &[S::Value]) -> S::Value
    ensures answer { result ≡ fold_of (S.meaning semilattice.now) values.now }
    ensures least { AllMembers (S.meaning semilattice.now) values.now → LeastAbove (S.meaning semilattice.now) values.now result }
    ensures alike { AllMembers (S.meaning semilattice.now) values.now → FoldsAlike (S.meaning semilattice.now) values.now result }
{
    let mut joined = semilattice.least();
    for value in values {
        joined = semilattice.join(joined, *value);
    }
    joined
}
