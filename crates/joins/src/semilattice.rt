//! What is combined by joins.
ghost use Rattle.std.specs.Prelude.{◌≡◌};
ghost use Rattle.joins.specs.Joins.{Joins, JoinLaws};

/// A join-semilattice with a least element: values of one type, some of them members, of which each two have a join.
///
/// Its meaning is one value: which values are members, the least of them, and the join of each two. Each implementation shows that its
/// meaning keeps the laws: for members the join is associative, commutative and idempotent, and the least one is neutral.
pub trait Semilattice {
    /// What is combined.
    type Value: Copy;

    /// What it means.
    ghost meaning: { Self → Joins Self.Value };

    /// The least member.
    fn least(&self) -> Self::Value
        ensures { result ≡ (meaning self.now).least };

    /// The join of two values: if they are members, the least member that lies at or above both.
    fn join(&self, a: Self::Value, b: Self::Value) -> Self::Value
        ensures { result ≡ (meaning self.now).join a b };

    /// The meaning of each semilattice keeps the laws.
    ghost lawful: { (s : Self) → JoinLaws (meaning s) };
}
