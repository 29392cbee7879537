//! The bytes of a table, and the test that decides its laws.
ghost use Rattle.std.specs.Prelude.{◌≡◌, ◌+◌, ◌*◌, is_none};
ghost use Rattle.verdicts.specs.Verdict.{outcome, making};
ghost use Rattle.levels.specs.Faults.{refusal_of};
ghost use Rattle.levels.specs.Tables.{join_in, joins_of, read_off, squared, semilattice};
ghost use Rattle.levels.specs.Breaks.{least_answer, unclosed_by_two, unclosed_by, broken_by_three, broken_by_two, broken_by, broken_law};

use crate::fault::OrderFault;

/// A law that the joins of a table break, with the codes at which they do.
#[derive(Clone, Copy, Debug, PartialEq, Eq)]
pub enum BrokenLaw {
    /// 0 is the neutral element: it joins with each code to that code.
    Neutrality(u8),
    /// A code joins with itself to itself.
    Idempotence(u8),
    /// Two codes join to a code.
    Closure(u8, u8),
    /// Two codes join to the same in either order.
    Commutativity(u8, u8),
    /// Three codes join to the same in either bracketing.
    Associativity(u8, u8, u8),
}

/// Join bytes, read row by row: the byte at row a and column b is the join of a and b.
#[derive(Clone, Copy)]
pub struct Square<'b> {
    pub levels: u8,
    pub bytes: &'b [u8],
}

impl<'b> Square<'b> {
    /// The square of 1 to 16 rows that the bytes are. Refused 14 where the size is out of range or the bytes are another number.
    pub fn new(levels: usize, bytes: &'b [u8]) -> Result<Square<'b>, OrderFault>
        ensures { outcome read_off refusal_of result ≡ making (squared levels bytes.now) (levels, bytes.now) }
    {
        if !(1..=16).contains(&levels) || bytes.len() != levels * levels {
            return Err(OrderFault::Size);
        }
        Ok(Square {
            levels: levels as u8,
            bytes,
        })
    }
}

impl Square<'_> {
    /// Where the byte of row a and column b stands.
    fn place(&self, a: u8, b: u8) -> usize
        ensures { result ≡ a * self.now.levels + b }
    {
        usize::from(a) * usize::from(self.levels) + usize::from(b)
    }

    /// The join of two codes, as the bytes have it: 0, past the last byte.
    pub fn join(&self, a: u8, b: u8) -> u8
        ensures { result ≡ join_in self.now.bytes.now self.now.levels a b }
    {
        self.bytes.get(self.place(a, b)).copied().unwrap_or(0)
    }

    /// What is wrong if two codes join to no code.
    fn unclosed_by_two(&self, a: u8, b: u8) -> Option<BrokenLaw>
        ensures { result ≡ unclosed_by_two self.now.levels (joins_of self.now) a b }
    {
        (self.join(a, b) >= self.levels).then_some(BrokenLaw::Closure(a, b))
    }

    /// What is wrong first where a code and another join to no code.
    #[tactic(auto, using(crate::proofs::Breaking::none_yet, crate::proofs::Breaking::none_more, crate::proofs::Breaking::answered, crate::proofs::Breaking::none_all))]
    fn unclosed_by(&self, a: u8) -> Option<BrokenLaw>
        ensures { result ≡ unclosed_by self.now.levels (joins_of self.now) a }
    {
        for b in 0..self.levels {
            if let Some(law) = self.unclosed_by_two(a, b) {
                return Some(law);
            }
        }
        None
    }

    /// What is wrong first where two codes join to no code.
    #[tactic(auto, using(crate::proofs::Breaking::none_yet, crate::proofs::Breaking::none_more, crate::proofs::Breaking::answered, crate::proofs::Breaking::none_all))]
    fn unclosed(&self) -> Option<BrokenLaw>
        ensures { result ≡ least_answer (unclosed_by self.now.levels (joins_of self.now)) self.now.levels }
    {
        for a in 0..self.levels {
            if let Some(law) = self.unclosed_by(a) {
                return Some(law);
            }
        }
        None
    }

    /// What two codes break with a third.
    fn broken_by_three(&self, a: u8, b: u8, c: u8) -> Option<BrokenLaw>
        ensures { result ≡ broken_by_three (joins_of self.now) a b c }
    {
        let left = self.join(self.join(a, b), c);
        let right = self.join(a, self.join(b, c));
        (left != right).then_some(BrokenLaw::Associativity(a, b, c))
    }

    /// What two codes break first with a third.
    #[tactic(auto, using(crate::proofs::Breaking::none_yet, crate::proofs::Breaking::none_more, crate::proofs::Breaking::answered, crate::proofs::Breaking::none_all))]
    fn broken_with_thirds(&self, a: u8, b: u8) -> Option<BrokenLaw>
        ensures { result ≡ least_answer (broken_by_three (joins_of self.now) a b) self.now.levels }
    {
        for c in 0..self.levels {
            if let Some(law) = self.broken_by_three(a, b, c) {
                return Some(law);
            }
        }
        None
    }

    /// What a code breaks with another, or the two with a third.
    fn broken_by_two(&self, a: u8, b: u8) -> Option<BrokenLaw>
        ensures { result ≡ broken_by_two self.now.levels (joins_of self.now) a b }
    {
        if self.join(a, b) != self.join(b, a) {
            return Some(BrokenLaw::Commutativity(a, b));
        }
        self.broken_with_thirds(a, b)
    }

    /// What a code breaks first with another.
    #[tactic(auto, using(crate::proofs::Breaking::none_yet, crate::proofs::Breaking::none_more, crate::proofs::Breaking::answered, crate::proofs::Breaking::none_all))]
    fn broken_with_seconds(&self, a: u8) -> Option<BrokenLaw>
        ensures { result ≡ least_answer (broken_by_two self.now.levels (joins_of self.now) a) self.now.levels }
    {
        for b in 0..self.levels {
            if let Some(law) = self.broken_by_two(a, b) {
                return Some(law);
            }
        }
        None
    }

    /// What a code breaks alone or with others.
    fn broken_by(&self, a: u8) -> Option<BrokenLaw>
        ensures { result ≡ broken_by self.now.levels (joins_of self.now) a }
    {
        if self.join(0, a) != a {
            return Some(BrokenLaw::Neutrality(a));
        }
        if self.join(a, a) != a {
            return Some(BrokenLaw::Idempotence(a));
        }
        self.broken_with_seconds(a)
    }

    /// What the codes break first, each alone, with a second or with a third.
    #[tactic(auto, using(crate::proofs::Breaking::none_yet, crate::proofs::Breaking::none_more, crate::proofs::Breaking::answered, crate::proofs::Breaking::none_all))]
    fn broken(&self) -> Option<BrokenLaw>
        ensures { result ≡ least_answer (broken_by self.now.levels (joins_of self.now)) self.now.levels }
    {
        for a in 0..self.levels {
            if let Some(law) = self.broken_by(a) {
                return Some(law);
            }
        }
        None
    }

    /// What the joins break first: that all are codes, and then, of the codes in ascending order, what each breaks alone, with a second
    /// and with a third. Nothing if and only if the joins are those of an order that keeps the laws.
    pub fn broken_law(&self) -> Option<BrokenLaw>
        ensures first { result ≡ broken_law self.now.levels (joins_of self.now) }
        ensures none { is_none result ≡ semilattice self.now.levels (joins_of self.now) }
    {
        if let Some(law) = self.unclosed() {
            return Some(law);
        }
        self.broken()
    }
}
