//! Compartments: levels that are sets of bits.
ghost use Rattle.std.specs.Prelude.{◌≡◌, ◌≤◌};
ghost use Rattle.verdicts.specs.Verdict.{outcome, making};
ghost use Rattle.levels.specs.Faults.{refusal_of, sized};
ghost use Rattle.levels.specs.Compartments.{compartments};
ghost use Rattle.levels.specs.Unions.{union_laws};
ghost use Rattle.levels.specs.Ranks.{compartments_rank};
ghost use Rattle.levels.specs.UnionRanks.{union_ranks};

use crate::fault::OrderFault;
use crate::order::Order;
use crate::ranked::Ranked;

/// Each level is a set of compartments, one bit for each of `bits`.
#[derive(Clone, Copy)]
pub struct Compartments {
    bits: u32,
    ghost size: { (1 ≤ bits) × (bits ≤ 16) },
}

impl Compartments {
    /// The order of 1 to 16 compartments.
    pub fn new(bits: u32) -> Result<Compartments, OrderFault>
        ensures { outcome (λ o. o.bits) refusal_of result ≡ making (sized 16 bits) bits }
    {
        if !(1..=16).contains(&bits) {
            return Err(OrderFault::Size);
        }
        Ok(Compartments { bits })
    }

    /// How many compartments there are.
    pub fn bits(&self) -> u32
        ensures { result ≡ self.now.bits }
    {
        self.bits
    }
}

impl Order for Compartments {
    ghost meaning = { λ o. compartments o.bits };

    ghost lawful = { λ o. union_laws o.bits };

    fn holds(&self, code: u16) -> bool {
        u32::from(code) < 1 << self.bits
    }

    fn flows(&self, a: u16, b: u16) -> bool {
        self.holds(a) && self.holds(b) && a | b == b
    }

    fn join(&self, a: u16, b: u16) -> u16 {
        if self.holds(a) && self.holds(b) {
            a | b
        } else {
            0
        }
    }
}

impl Ranked for Compartments {
    ghost rank_of = { λ o. compartments_rank o.bits };

    ghost ranked = { λ o. union_ranks o.bits o.size.1 };

    fn rank(&self, code: u16) -> u16 {
        if !self.holds(code) {
            return 0;
        }
        code.count_ones() as u16
    }
}
