//! Chains: levels one above another.
ghost use Rattle.std.specs.Prelude.{◌≡◌, ◌≤◌};
ghost use Rattle.verdicts.specs.Verdict.{outcome, making};
ghost use Rattle.levels.specs.Faults.{refusal_of, sized};
ghost use Rattle.levels.specs.Chains.{chain};
ghost use Rattle.levels.specs.Ranks.{chain_rank};
ghost use Rattle.levels.specs.ChainRanks.{chain_ranks};
ghost use Rattle.std.proofs.Common.{rules, arith};

use crate::fault::OrderFault;
use crate::order::Order;
use crate::ranked::Ranked;

/// Levels 0 to `levels` - 1, each of which flows to itself and to the larger ones.
#[derive(Clone, Copy)]
pub struct Chain {
    levels: u16,
    ghost size: { (1 ≤ levels) × (levels ≤ 256) },
}

impl Chain {
    /// The chain of 1 to 256 levels.
    pub fn new(levels: u16) -> Result<Chain, OrderFault>
        ensures { outcome (λ o. o.levels) refusal_of result ≡ making (sized 256 levels) levels }
    {
        if !(1..=256).contains(&levels) {
            return Err(OrderFault::Size);
        }
        Ok(Chain { levels })
    }

    /// How many levels there are.
    pub fn levels(&self) -> u16
        ensures { result ≡ self.now.levels }
    {
        self.levels
    }
}

impl Order for Chain {
    ghost meaning = { λ o. chain o.levels };

    ghost lawful = { first_of (Prim.search rules, Prim.grind (arith, Self.row.coded.inj)) };

    fn holds(&self, code: u16) -> bool {
        code < self.levels
    }

    fn flows(&self, a: u16, b: u16) -> bool {
        a <= b && self.holds(b)
    }

    fn join(&self, a: u16, b: u16) -> u16 {
        if self.holds(a) && self.holds(b) {
            a.max(b)
        } else {
            0
        }
    }
}

impl Ranked for Chain {
    ghost rank_of = { λ o. chain_rank o.levels };

    ghost ranked = { λ o. chain_ranks o.levels o.size.1 };

    fn rank(&self, code: u16) -> u16 {
        if self.holds(code) { code } else { 0 }
    }
}
