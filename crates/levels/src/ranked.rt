//! Orders whose levels have ranks.
ghost use Rattle.std.specs.Prelude.{◌≡◌, ℕ};
ghost use Rattle.levels.specs.Ranks.{RankLaws, JoinRaises};

use crate::order::Order;

/// An order of secrecy levels that gives each code a rank, a 16-bit number that rises strictly along each flow from a code to
/// another. So levels that are only ever raised are raised at most as often as their ranks allow.
///
/// The ranks are one function of the order's value, and each implementation shows that it keeps the laws of ranks.
pub trait Ranked: Order {
    /// The rank of each code.
    ghost rank_of: { Self → ℕ → ℕ };

    /// The rank of a code: 0, where it is not held.
    fn rank(&self, code: u16) -> u16
        ensures { result ≡ rank_of self.now code };

    /// The ranks of every order keep the laws.
    ghost ranked: { (o : Self) → RankLaws (Self.Order.meaning o) (rank_of o) };
}

/// What refers to a ranked order is the same ranked order.
impl<O: Ranked> Ranked for &O {
    ghost rank_of = { λ o. O.Ranked.rank_of o.now };

    ghost ranked = { λ o. O.Ranked.ranked o.now };

    fn rank(&self, code: u16) -> u16 {
        (**self).rank(code)
    }
}

/// In every ranked order a level that is joined with another either stays, or its rank rises. The law stands in the contract;
/// the call itself answers nothing.
pub fn join_raises<O: Ranked>()
    ensures { (o : O) → JoinRaises (O.Order.meaning o) (O.Ranked.rank_of o) }
{}
