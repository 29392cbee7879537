//! What every order of levels answers, and owes.
ghost use Rattle.std.specs.Prelude.{◌≡◌};
ghost use Rattle.levels.specs.Order.{Meaning, Laws};

/// An order of secrecy levels, each named by a 16-bit code.
///
/// Its meaning is one value: which codes are held, which code may flow to which, and the join of each two. The three answers
/// are those of the meaning, so nothing else of an order shows in them. Each implementation shows that its meaning keeps the
/// laws, and code that is generic over an order may use them.
pub trait Order {
    /// What the order means.
    ghost meaning: { Self → Meaning };

    /// Whether the order has a level of this code.
    fn holds(&self, code: u16) -> bool
        ensures { result ≡ (meaning self.now).held code };

    /// Whether what has level `a` may flow to a place of level `b`: no, where one of the two is not held.
    fn flows(&self, a: u16, b: u16) -> bool
        ensures { result ≡ (meaning self.now).flows a b };

    /// The least level that both may flow to: 0, where one of the two is not held.
    fn join(&self, a: u16, b: u16) -> u16
        ensures { result ≡ (meaning self.now).join a b };

    /// The meaning of every order keeps the laws.
    ghost lawful: { (o : Self) → Laws (meaning o) };
}

/// What refers to an order is the same order.
impl<O: Order> Order for &O {
    ghost meaning = { λ o. O.Order.meaning o.now };

    ghost lawful = { λ o. O.Order.lawful o.now };

    fn holds(&self, code: u16) -> bool {
        (**self).holds(code)
    }

    fn flows(&self, a: u16, b: u16) -> bool {
        (**self).flows(a, b)
    }

    fn join(&self, a: u16, b: u16) -> u16 {
        (**self).join(a, b)
    }
}
