//! Tables: levels whose joins are written out.
ghost use Rattle.std.specs.Prelude.{◌≡◌, ℕ, ◌≤◌, true, [], ◌∷◌, length, is_ok, is_err, Decides, slice_index};
ghost use Rattle.verdicts.specs.Verdict.{says};
ghost use Rattle.levels.specs.Order.{Laws};
ghost use Rattle.levels.specs.Faults.{refusal_of};
ghost use Rattle.levels.specs.Tables.{table, join_in, semilattice, filling, Fits};
ghost use Rattle.std.proofs.Common.{arith};
ghost use Rattle.levels.specs.Squares.{test_laws};
ghost use Rattle.levels.specs.Ranks.{counted_rank};
ghost use Rattle.levels.specs.TableRanks.{table_ranks};

use crate::fault::OrderFault;
use crate::order::Order;
use crate::ranked::Ranked;
use crate::table::square::Square;

pub mod square;

/// Levels 0 to `levels` - 1, with the join of each two among `joins`, row by row.
// A table has no heap, so it has room for the joins of 16 levels.
#[derive(Drop)]
pub struct Table {
    levels: u8,
    joins: [u8; 256],
    ghost size: { (1 ≤ levels) × (levels ≤ 16) },
    ghost sound: { semilattice levels (join_in joins levels) ≡ true },
}

/// The bytes, followed by zeros.
fn padded(bytes: &[u8]) -> [u8; 256]
    requires { length bytes.now ≤ 256 }
    ensures { (k : ℕ) → slice_index result k ≡ slice_index bytes.now k }
{
    let mut out = [0; 256];
    out[..bytes.len()].copy_from_slice(bytes);
    out
}

impl Table {
    /// The table of one level, the place that `fill` fills.
    // `fill` writes into a table that is there already, so that a refusal can leave the one before.
    pub fn trivial() -> Table
        ensures levels { result.levels ≡ 1 }
        ensures meaning { table result.levels result.joins ≡ table 1 (0 ∷ []) }
    {
        Table {
            levels: 1,
            joins: [0; 256],
        }
    }

    /// Makes this the table of 1 to 16 levels whose joins are the bytes, row by row: the join of a and b is byte
    /// a * `levels` + b. It is made if and only if the sizes fit and the laws hold; else nothing changes.
    pub fn fill(&mut self, levels: usize, bytes: &[u8]) -> Result<(), OrderFault>
        ensures answer { says refusal_of result ≡ filling levels bytes.now }
        ensures exact { Decides (is_ok result) (Fits levels bytes.now × Laws (table levels bytes.now)) }
        ensures levels { is_ok result ≡ true → self.new.levels ≡ levels }
        ensures meaning { is_ok result ≡ true → table self.new.levels self.new.joins ≡ table levels bytes.now }
        ensures unchanged { is_err result ≡ true → self.new ≡ self.old }
    {
        let square = Square::new(levels, bytes)?;
        if square.broken_law().is_some() {
            return Err(OrderFault::Law);
        }
        *self = Table {
            levels: square.levels,
            joins: padded(bytes),
        };
        Ok(())
    }

    /// How many levels there are.
    pub fn levels(&self) -> usize
        ensures { result ≡ self.now.levels }
    {
        usize::from(self.levels)
    }

    /// The joins, as the bytes of a square.
    fn square(&self) -> Square<'_>
        ensures { (result.levels ≡ self.now.levels) × (result.bytes.now ≡ self.now.joins) }
    {
        Square {
            levels: self.levels,
            bytes: &self.joins,
        }
    }
}

impl Order for Table {
    ghost meaning = { λ o. table o.levels o.joins };

    ghost lawful = { λ o. test_laws o.levels (join_in o.joins o.levels) o.size.0 (omega (arith, o.size.1)) o.sound };

    fn holds(&self, code: u16) -> bool {
        code < u16::from(self.levels)
    }

    fn flows(&self, a: u16, b: u16) -> bool {
        self.holds(a) && self.holds(b) && self.square().join(a as u8, b as u8) == b as u8
    }

    fn join(&self, a: u16, b: u16) -> u16 {
        if self.holds(a) && self.holds(b) {
            u16::from(self.square().join(a as u8, b as u8))
        } else {
            0
        }
    }
}

impl Ranked for Table {
    ghost rank_of = { λ o. counted_rank (table o.levels o.joins) o.levels };

    ghost ranked = { λ o. table_ranks o.levels o.joins o.size.0 o.size.1 o.sound };

    fn rank(&self, code: u16) -> u16 {
        let flows_strictly = |other: &u16| self.flows(*other, code) && *other != code;
        (0..u16::from(self.levels)).filter(flows_strictly).count() as u16
    }
}
