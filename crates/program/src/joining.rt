//! The join of two levels, printed.
ghost use Rattle.std.specs.Prelude.{◌≡◌};
ghost use Rattle.program.specs.Joins.{join_of};

use crate::working::Job;
use levels::order::Order;
use std::io;

impl Job<'_, '_> {
    /// Joins two codes by the order of the routine, and prints the code that they join to, or why they join to none.
    pub(crate) fn join(self, rt: &HostRuntime, first: u16, second: u16) -> io::Result<()> {
        print!(rt; "join {first} {second}: ")?;
        let Some(order) = self.order else {
            return println!(rt; "no answer, since the order is refused");
        };
        match join_by(order, first, second) {
            Ok(code) => println!(rt; "{code}"),
            Err(code) => println!(rt; "the order holds no code {code}"),
        }
    }
}

/// The code that two codes join to, or the first of them that the order does not hold.
fn join_by<O: Order>(order: &O, first: u16, second: u16) -> Result<u16, u16>
    ensures { result ≡ join_of (O.Order.meaning order.now) first second }
{
    if !order.holds(first) {
        return Err(first);
    }
    if !order.holds(second) {
        return Err(second);
    }
    Ok(order.join(first, second))
}
