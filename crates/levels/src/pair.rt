//! Pairs: two orders side by side.
ghost use Rattle.std.specs.Prelude.{◌≡◌};
ghost use Rattle.levels.specs.Pairs.{pair};
ghost use Rattle.levels.specs.Parts.{pair_laws};
ghost use Rattle.levels.specs.Ranks.{pair_rank};
ghost use Rattle.levels.specs.PairRanks.{pair_ranks};

use crate::order::Order;
use crate::ranked::Ranked;

/// Two orders, each held by value. A code has two bytes: 256 * a + b stands for level a of the first order with level b of the
/// second. What either has above 255 is never seen.
#[derive(Drop)]
pub struct Pair<A, B> {
    pub first: A,
    pub second: B,
}

impl<A: Order, B: Order> Pair<A, B> {
    /// The pair of two orders.
    pub fn new(first: A, second: B) -> Pair<A, B>
        ensures { (result.first ≡ first) × (result.second ≡ second) }
    {
        Pair { first, second }
    }
}

impl<A: Order, B: Order> Order for Pair<A, B> {
    ghost meaning = { λ o. pair (A.Order.meaning o.first) (B.Order.meaning o.second) };

    ghost lawful = { λ o. pair_laws _ _ (A.Order.lawful o.first) (B.Order.lawful o.second) };

    fn holds(&self, code: u16) -> bool {
        self.first.holds(code / 256) && self.second.holds(code % 256)
    }

    fn flows(&self, a: u16, b: u16) -> bool {
        self.first.flows(a / 256, b / 256) && self.second.flows(a % 256, b % 256)
    }

    fn join(&self, a: u16, b: u16) -> u16 {
        if self.holds(a) && self.holds(b) {
            256 * self.first.join(a / 256, b / 256) + self.second.join(a % 256, b % 256)
        } else {
            0
        }
    }
}

impl<A: Ranked, B: Ranked> Ranked for Pair<A, B> {
    ghost rank_of = { λ o. pair_rank (A.Order.meaning o.first) (B.Order.meaning o.second) (A.Ranked.rank_of o.first) (B.Ranked.rank_of o.second) };

    ghost ranked = { λ o. pair_ranks _ _ (A.Order.lawful o.first) (B.Order.lawful o.second) _ _ (A.Ranked.ranked o.first) (B.Ranked.ranked o.second) };

    fn rank(&self, code: u16) -> u16 {
        if !self.holds(code) {
            return 0;
        }
        self.first.rank(code / 256) + self.second.rank(code % 256)
    }
}
