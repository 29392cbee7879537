//! Two things that are combined: the levels of an order, and numbers.
ghost use Rattle.joins.specs.Ends.{levels_of, levels_laws, numbers, numbers_laws};

use crate::semilattice::Semilattice;
use levels::order::Order;

/// The code of the lowest level of every order.
const LOWEST: u16 = 0;

/// The levels of an order that is lent, by their 16-bit codes: the members are those that it holds, and 0 is the least. The laws come from
/// the laws of an order alone.
#[derive(Clone, Copy)]
pub struct Levels<'o, O> {
    pub order: &'o O,
}

impl<O: Order> Semilattice for Levels<'_, O> {
    type Value = u16;

    ghost meaning = { λ s. levels_of (O.Order.meaning s.order.now) };

    ghost lawful = { λ s. levels_laws _ (O.Order.lawful s.order.now) };

    fn least(&self) -> u16 {
        LOWEST
    }

    fn join(&self, a: u16, b: u16) -> u16 {
        self.order.join(a, b)
    }
}

/// Numbers of 16 bits, where the join of two is the larger one, and 0 is the least.
#[derive(Clone, Copy)]
pub struct Larger;

impl Semilattice for Larger {
    type Value = u16;

    ghost meaning = { λ s. numbers };

    ghost lawful = { λ s. numbers_laws };

    fn least(&self) -> u16 {
        u16::MIN
    }

    fn join(&self, a: u16, b: u16) -> u16 {
        a.max(b)
    }
}
