//! Orders, made as they are written.
ghost use Rattle.std.specs.Prelude.{◌≡◌, [], is_some, Decides};
ghost use Rattle.std.specs.Option.{option_map};
ghost use Rattle.verdicts.specs.Verdict.{outcome, unmade, refusal};
ghost use Rattle.levels.specs.Faults.{refusal_of};
ghost use Rattle.levels.specs.Tables.{read_off};
ghost use Rattle.orders.specs.Simples.{meaning_of};
ghost use Rattle.orders.specs.Written.{form_of, written_of};
ghost use Rattle.orders.specs.Making.{making_of, making_written, made_meaning, made_rank};
ghost use Rattle.orders.specs.Broken.{square_of, broken_by_form, unmade_form, first_unmade};
ghost use Rattle.orders.specs.declared.making.Made.TheVariants.{Simple, Pair};
ghost use Rattle.levels.specs.Parts.{pair_laws};
ghost use Rattle.levels.specs.PairRanks.{pair_ranks};
ghost use Rattle.orders.specs.Lawful.{simple_laws, simple_ranks};

use crate::simple::Simple;
use crate::written::{OrderText, SimpleText};
use levels::fault::OrderFault;
use levels::order::Order;
use levels::pair::Pair;
use levels::ranked::Ranked;
use levels::table::square::{BrokenLaw, Square};

/// An order that was made.
#[derive(Drop)]
pub enum Made {
    /// Of a simple kind.
    Simple(Simple),
    /// Two of these, side by side.
    Pair(Pair<Simple, Simple>),
}

impl Order for Made {
    ghost meaning = { made_meaning };

    ghost lawful = { elim [
      | Simple o ↦ simple_laws o
      | Pair o ↦ pair_laws _ _ (simple_laws o.first) (simple_laws o.second)
    ] };

    fn holds(&self, code: u16) -> bool {
        match self {
            Made::Simple(order) => order.holds(code),
            Made::Pair(order) => order.holds(code),
        }
    }

    fn flows(&self, a: u16, b: u16) -> bool {
        match self {
            Made::Simple(order) => order.flows(a, b),
            Made::Pair(order) => order.flows(a, b),
        }
    }

    fn join(&self, a: u16, b: u16) -> u16 {
        match self {
            Made::Simple(order) => order.join(a, b),
            Made::Pair(order) => order.join(a, b),
        }
    }
}

impl Ranked for Made {
    ghost rank_of = { made_rank };

    ghost ranked = { elim [
      | Simple o ↦ simple_ranks o
      | Pair o ↦ pair_ranks _ _ (simple_laws o.first) (simple_laws o.second) _ _ (simple_ranks o.first) (simple_ranks o.second)
    ] };

    fn rank(&self, code: u16) -> u16 {
        match self {
            Made::Simple(order) => order.rank(code),
            Made::Pair(order) => order.rank(code),
        }
    }
}

impl SimpleText {
    /// Makes the order.
    pub fn make(&self) -> Result<Simple, OrderFault>
        ensures { outcome meaning_of refusal_of result ≡ making_of (form_of self.now) }
    {
        match self {
            SimpleText::Chain(levels) => Simple::new_chain(*levels),
            SimpleText::Compartments(bits) => Simple::new_compartments(*bits),
            SimpleText::Table { levels, bytes } => Simple::new_table(*levels, bytes.as_slice()),
        }
    }

    /// The law that the join bytes of a table break first, with the codes; none of other orders, and none where a size is refused. There
    /// is one if and only if the order is refused 15.
    pub fn broken_law(&self) -> Option<BrokenLaw>
        ensures first { result ≡ broken_by_form (form_of self.now) }
        ensures refused { Decides (is_some result) (making_of (form_of self.now) ≡ unmade (refusal 15 [])) }
    {
        self.square()?.broken_law()
    }

    /// The join bytes of a table as a square; none of other orders, and none where a size is refused.
    pub fn square(&self) -> Option<Square<'_>>
        ensures { option_map read_off result ≡ square_of (form_of self.now) }
    {
        match self {
            SimpleText::Chain(_) | SimpleText::Compartments(_) => None,
            SimpleText::Table { levels, bytes } => Square::new(
                usize::from(*levels),
                bytes.as_slice(),
            ).ok(),
        }
    }

    /// The order itself, where it is not made.
    fn if_unmade(&self) -> Option<&SimpleText>
        ensures { option_map (λ text. form_of text.now) result ≡ unmade_form (making_of (form_of self.now)) (form_of self.now) }
    {
        match self.make() {
            Ok(_) => None,
            Err(_) => Some(self),
        }
    }
}

impl OrderText {
    /// Makes the order. Of a pair, the first part that is refused decides.
    pub fn make(&self) -> Result<Made, OrderFault>
        ensures { outcome made_meaning refusal_of result ≡ making_written (written_of self.now) }
    {
        match self {
            OrderText::Simple(form) => Ok(Made::Simple(form.make()?)),
            OrderText::Pair(first, second) => {
                let first = first.make()?;
                let second = second.make()?;
                Ok(Made::Pair(Pair::new(first, second)))
            }
        }
    }
    /// The first part of the order that is not made, which decides the refusal; none where the order is made.
    pub fn first_unmade(&self) -> Option<&SimpleText>
        ensures { option_map (λ text. form_of text.now) result ≡ first_unmade (written_of self.now) }
    {
        match self {
            OrderText::Simple(form) => form.if_unmade(),
            OrderText::Pair(first, second) => match first.if_unmade() {
                Some(first) => Some(first),
                None => second.if_unmade(),
            },
        }
    }
}
