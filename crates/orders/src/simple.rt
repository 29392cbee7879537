//! Orders of a simple kind.
ghost use Rattle.std.specs.Prelude.{◌≡◌, ℕ, ◌<◌, ◌≤◌, nat_lt};
ghost use Rattle.verdicts.specs.Verdict.{outcome, making};
ghost use Rattle.levels.specs.Faults.{refusal_of, sized};
ghost use Rattle.levels.specs.Chains.{chain};
ghost use Rattle.levels.specs.Compartments.{compartments};
ghost use Rattle.levels.specs.Tables.{table, filling};
ghost use Rattle.orders.specs.Simples.{meaning_of, simple_rank};
ghost use Rattle.orders.specs.Lawful.{simple_laws, simple_ranks};

use levels::chain::Chain;
use levels::compartments::Compartments;
use levels::fault::OrderFault;
use levels::order::Order;
use levels::ranked::Ranked;
use levels::table::Table;

/// An order of one of the kinds that are not made of others.
#[derive(Drop)]
pub enum Simple {
    /// Levels one above another.
    Chain(Chain),
    /// Levels that are sets of bits.
    Compartments(Compartments),
    /// Levels whose joins are written out.
    Table(Table),
}

impl Simple {
    /// The chain of 1 to 256 levels.
    pub fn new_chain(levels: u16) -> Result<Simple, OrderFault>
        ensures { outcome meaning_of refusal_of result ≡ making (sized 256 levels) (chain levels) }
    {
        Chain::new(levels).map(Simple::Chain)
    }

    /// The order of 1 to 16 compartments.
    pub fn new_compartments(bits: u16) -> Result<Simple, OrderFault>
        ensures { outcome meaning_of refusal_of result ≡ making (sized 16 bits) (compartments bits) }
    {
        Compartments::new(u32::from(bits)).map(Simple::Compartments)
    }

    /// The table of 1 to 16 levels whose joins are the bytes, row by row.
    pub fn new_table(levels: u16, bytes: &[u8]) -> Result<Simple, OrderFault>
        ensures { outcome meaning_of refusal_of result ≡ making (filling levels bytes.now) (table levels bytes.now) }
    {
        let mut order = Table::trivial();
        order.fill(usize::from(levels), bytes)?;
        Ok(Simple::Table(order))
    }

    /// How many codes there are: those below it are held, and no others.
    pub fn codes(&self) -> u32
        ensures { (code : ℕ) → (meaning_of self.now).held code ≡ nat_lt code result }
    {
        match self {
            Simple::Chain(order) => u32::from(order.levels()),
            Simple::Compartments(order) => 1 << order.bits(),
            Simple::Table(order) => order.levels() as u32,
        }
    }

    /// How many of the codes are bytes, which is what a pair sees of the order: of the bytes those below it are held, and no others.
    pub fn byte_codes(&self) -> u32
        ensures held { (code : ℕ) → code < 256 → (meaning_of self.now).held code ≡ nat_lt code result }
        ensures few { result ≤ 256 }
    {
        self.codes().min(256)
    }
}

impl Order for Simple {
    ghost meaning = { meaning_of };

    ghost lawful = { simple_laws };

    fn holds(&self, code: u16) -> bool {
        match self {
            Simple::Chain(order) => order.holds(code),
            Simple::Compartments(order) => order.holds(code),
            Simple::Table(order) => order.holds(code),
        }
    }

    fn flows(&self, a: u16, b: u16) -> bool {
        match self {
            Simple::Chain(order) => order.flows(a, b),
            Simple::Compartments(order) => order.flows(a, b),
            Simple::Table(order) => order.flows(a, b),
        }
    }

    fn join(&self, a: u16, b: u16) -> u16 {
        match self {
            Simple::Chain(order) => order.join(a, b),
            Simple::Compartments(order) => order.join(a, b),
            Simple::Table(order) => order.join(a, b),
        }
    }
}

impl Ranked for Simple {
    ghost rank_of = { simple_rank };

    ghost ranked = { simple_ranks };

    fn rank(&self, code: u16) -> u16 {
        match self {
            Simple::Chain(order) => order.rank(code),
            Simple::Compartments(order) => order.rank(code),
            Simple::Table(order) => order.rank(code),
        }
    }
}
