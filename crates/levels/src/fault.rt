//! Why an order is not made.
ghost use Rattle.std.specs.Prelude.{◌≡◌};
ghost use Rattle.levels.specs.Faults.{number_of};

/// Why an order is not made, with the numbers of the refusals.
#[derive(Clone, Copy, Debug, PartialEq, Eq)]
pub enum OrderFault {
    /// The size is out of range, or a table's bytes are not a square of that size.
    Size = 14,
    /// The table breaks a law.
    Law = 15,
}

impl OrderFault {
    /// The number of the refusal.
    pub fn number(&self) -> u8
        ensures { result ≡ number_of self.now }
    {
        *self as u8
    }
}
