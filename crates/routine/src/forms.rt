//! How an order of levels is read.
ghost use Rattle.std.specs.Prelude.{vec_items};
ghost use Rattle.orders.specs.Written.{form_of, written_of};
ghost use Rattle.routine.specs.Orders.{bytes_in, form_in, simple_in, pair_in, order_of};
ghost use Rattle.routine.specs.Answers.{Answers, Reads};

use crate::faults::{Expected, Fault, Malformed};
use crate::keywords::{Kind, is_pair};
use crate::operands::{end, number_of, read_number};
use orders::written::{OrderText, SimpleText};
use std::alloc::Global;
use text::Line;

/// The join bytes of a table: up to the end of the line, or to the next order.
fn read_bytes(heap: Global, line: &mut Line<'_>) -> Result<Vec<u8>, Fault>
    ensures { Reads vec_items result bytes_in line.old line.new }
{
    let mut bytes = Vec::new(heap);
    let mut ahead = *line;
    while let Some(token) = ahead.next()
        && Kind::from_token(token).is_none()
    {
        let byte = number_of(token).map_err(|expected| Malformed::wrong(expected, token))?;
        bytes.push(byte)?;
        *line = ahead;
    }
    Ok(bytes)
}

/// The order of a kind, behind its keyword.
fn read_form(heap: Global, kind: Kind, line: &mut Line<'_>) -> Result<SimpleText, Fault>
    ensures { Reads form_of result (form_in kind) line.old line.new }
{
    let size = read_number(line)?;
    match kind {
        Kind::Chain => Ok(SimpleText::Chain(size)),
        Kind::Compartments => Ok(SimpleText::Compartments(size)),
        Kind::Table => {
            let bytes = read_bytes(heap, line)?;
            Ok(SimpleText::Table {
                levels: size,
                bytes,
            })
        }
    }
}

/// The simple order that a line goes on with, where something is expected.
fn read_simple(heap: Global, expected: Expected, line: &mut Line<'_>) -> Result<SimpleText, Fault>
    ensures { Reads form_of result (simple_in expected) line.old line.new }
{
    let token = line.next().ok_or(Malformed::missing(expected))?;
    let kind = Kind::from_token(token).ok_or_else(|| Malformed::wrong(expected, token))?;
    read_form(heap, kind, line)
}

/// The two orders of a pair, behind its keyword.
fn read_pair(heap: Global, line: &mut Line<'_>) -> Result<OrderText, Fault>
    ensures { Reads written_of result pair_in line.old line.new }
{
    let first = read_simple(heap, Expected::PartOrder, line)?;
    let second = read_simple(heap, Expected::PartOrder, line)?;
    Ok(OrderText::Pair(first, second))
}

/// The order that a line names, behind the keyword `order`.
pub(crate) fn read_order(heap: Global, mut line: Line<'_>) -> Result<OrderText, Fault>
    ensures { Answers written_of result order_of line.entry }
{
    let mut ahead = line;
    let token = ahead.next().ok_or(Malformed::missing(Expected::Order))?;
    if is_pair(token) {
        let order = read_pair(heap, &mut ahead)?;
        end(ahead)?;
        return Ok(order);
    }
    let form = read_simple(heap, Expected::Order, &mut line)?;
    end(line)?;
    Ok(OrderText::Simple(form))
}
