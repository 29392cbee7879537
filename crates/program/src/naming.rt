//! What the program prints of orders.
ghost use Rattle.std.specs.Prelude.{◌≡◌, IfOk};
ghost use Rattle.std.specs.Option.{option_map};
ghost use Rattle.orders.specs.Written.{written_of};
ghost use Rattle.orders.specs.Making.{made_meaning};
ghost use Rattle.program.specs.Standings.{named_meaning};

use levels::fault::OrderFault;
use levels::table::square::{BrokenLaw, Square};
use orders::making::Made;
use orders::written::{OrderText, SimpleText};
use std::{fmt, io};

/// An order as it is written, in short.
#[derive(Clone, Copy)]
struct Written<'a>(&'a SimpleText);

impl fmt::Display for Written<'_> {
    fn fmt<W: fmt::Write>(&self, f: &mut fmt::Formatter<W>) -> fmt::Result {
        match self.0 {
            SimpleText::Chain(levels) => write!(f, "chain {levels}"),
            SimpleText::Compartments(bits) => write!(f, "compartments {bits}"),
            SimpleText::Table { levels, .. } => write!(f, "table {levels}"),
        }
    }
}

/// Why an order of a simple kind is not made, for whoever wrote it.
#[derive(Clone, Copy)]
struct Unmade<'a> {
    text: &'a SimpleText,
    fault: OrderFault,
}

impl fmt::Display for Unmade<'_> {
    fn fmt<W: fmt::Write>(&self, f: &mut fmt::Formatter<W>) -> fmt::Result {
        let number = self.fault.number();
        write!(f, "refused {number}: ")?;
        match (self.fault, self.text) {
            (OrderFault::Size, SimpleText::Chain(levels)) => write!(
                f,
                "a chain has 1 to 256 levels, and this one has {levels}"
            ),
            (OrderFault::Size, SimpleText::Compartments(bits)) => write!(
                f,
                "there are 1 to 16 compartments, and here {bits}"
            ),
            (OrderFault::Size, SimpleText::Table { levels, bytes }) => {
                let len = bytes.len();
                write!(
                    f,
                    "a table has 1 to 16 levels and the square of that in join bytes, and this one has {levels} and {len}"
                )
            }
            (OrderFault::Law, text) => explain_law(f, text),
        }
    }
}

/// Which law the join bytes of a table break first, and at which codes.
fn explain_law<W: fmt::Write>(f: &mut fmt::Formatter<W>, text: &SimpleText) -> fmt::Result {
    f.write_str("the join bytes are no order")?;
    if let Some(law) = text.broken_law()
        && let Some(square) = text.square()
    {
        let breach = Breach { law, square };
        write!(f, "\n  {breach}")?;
    }
    Ok(())
}

/// A law that the joins of a square break, with what its codes join to.
#[derive(Clone, Copy)]
struct Breach<'a> {
    law: BrokenLaw,
    square: Square<'a>,
}

impl fmt::Display for Breach<'_> {
    fn fmt<W: fmt::Write>(&self, f: &mut fmt::Formatter<W>) -> fmt::Result {
        let square = self.square;
        match self.law {
            BrokenLaw::Neutrality(a) => {
                let joined = square.join(0, a);
                write!(
                    f,
                    "0 is neutral: the join of 0 and {a} must be {a}, and it is {joined}"
                )
            }
            BrokenLaw::Idempotence(a) => {
                let joined = square.join(a, a);
                write!(
                    f,
                    "joins are idempotent: the join of {a} and {a} must be {a}, and it is {joined}"
                )
            }
            BrokenLaw::Closure(a, b) => {
                let joined = square.join(a, b);
                let levels = square.levels;
                write!(
                    f,
                    "joins are levels: the join of {a} and {b} must be below {levels}, and it is {joined}"
                )
            }
            BrokenLaw::Commutativity(a, b) => {
                let joined = square.join(a, b);
                let turned = square.join(b, a);
                write!(
                    f,
                    "joins are commutative: the join of {a} and {b} is {joined}, and that of {b} and {a} is {turned}"
                )
            }
            BrokenLaw::Associativity(a, b, c) => {
                let first = square.join(square.join(a, b), c);
                let last = square.join(a, square.join(b, c));
                write!(
                    f,
                    "joins are associative: {a} and {b} joined, and then {c}, is {first}; {a} joined with the join of {b} and {c} is {last}"
                )
            }
        }
    }
}

/// Prints what an order holds, or why it is refused, and answers the order if one is named and made.
pub(crate) fn print_order(rt: &HostRuntime, text: Option<&OrderText>) -> io::Result<Option<Made>>
    ensures { IfOk result (λ made. option_map made_meaning made ≡ named_meaning (option_map (λ w. written_of w.now) text.entry)) }
{
    let Some(text) = text else {
        return Ok(None);
    };
    print_name(rt, text)?;
    match text.make() {
        Ok(made) => {
            print_held(rt, &made)?;
            Ok(Some(made))
        }
        Err(fault) => {
            print_fault(rt, text, fault)?;
            Ok(None)
        }
    }
}

/// Prints why an order is refused: what is wrong with its first part that is not made.
fn print_fault(rt: &HostRuntime, text: &OrderText, fault: OrderFault) -> io::Result<()> {
    match text.first_unmade() {
        Some(text) => {
            let unmade = Unmade { text, fault };
            println!(rt; "{unmade}")
        }
        // Not met, since a part is refused; but that is no fact of this function.
        None => {
            let number = fault.number();
            println!(rt; "refused {number}")
        }
    }
}

/// Prints an order as it is written.
fn print_name(rt: &HostRuntime, text: &OrderText) -> io::Result<()> {
    match text {
        OrderText::Simple(form) => {
            let form = Written(form);
            print!(rt; "order {form}: ")
        }
        OrderText::Pair(first, second) => {
            let first = Written(first);
            let second = Written(second);
            print!(rt; "order pair {first} {second}: ")
        }
    }
}

/// Prints which codes an order holds.
fn print_held(rt: &HostRuntime, made: &Made) -> io::Result<()> {
    match made {
        Made::Simple(order) => {
            let codes = order.codes();
            let last = codes.saturating_sub(1);
            println!(rt; "holds {codes} codes, 0 to {last}")
        }
        Made::Pair(pair) => {
            let first = pair.first.byte_codes();
            let second = pair.second.byte_codes();
            let codes = first * second;
            let last_first = first.saturating_sub(1);
            let last_second = second.saturating_sub(1);
            println!(rt;
                "holds {codes} codes, 256 * a + b for a from 0 to {last_first} and b from 0 to {last_second}"
            )
        }
    }
}
