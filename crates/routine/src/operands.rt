//! What the tokens of a statement say, read from the first on.
ghost use Rattle.std.specs.Prelude.{◌≡◌, vec_items, ◌==◌, length};
ghost use Rattle.std.specs.Fn.{FnReturnsAt};
ghost use Rattle.std.specs.Option as options;
ghost use Rattle.std.specs.Result.{result_map_both};
ghost use Rattle.text.specs.Tokens.{tokens_left};
ghost use Rattle.routine.specs.Faults.{quoting};
ghost use Rattle.routine.specs.Gathered.{gathered};
ghost use Rattle.routine.specs.Operands.{number_as, number_in, words_of, digits_of_register, place_of, place_in, no_more};
ghost use Rattle.routine.specs.Answers.{Answers, Finds, Says};

use crate::faults::{Expected, Fault, Malformed};
use crate::sizes::Number;
use avr::location::Location;
use std::alloc::Global;
use text::{Line, NumberFault, number};

/// The number that a token writes.
#[tactic(auto, unfolding(crate::specs::Operands::number_as))]
pub(crate) fn number_of<N: Number>(token: &[u8]) -> Result<N, Expected>
    ensures { result_map_both N.value (λ e. e) result ≡ number_as N.MOST token.now }
{
    let value = number(token, N::MOST).map_err(|fault| match fault {
        NumberFault::NoNumber => Expected::Number { most: N::MOST },
        NumberFault::TooLarge => Expected::AtMost { most: N::MOST },
    })?;
    Ok(N::from_number(value))
}

/// The number that a line goes on with.
pub(crate) fn read_number<N: Number>(line: &mut Line<'_>) -> Result<N, Malformed>
    ensures { Finds N.value result (number_in N.MOST) line.old line.new }
{
    let most = N::MOST;
    let token = line
        .next()
        .ok_or(Malformed::missing(Expected::Number { most }))?;
    number_of(token).map_err(|expected| Malformed::wrong(expected, token))
}

/// What each token of a line says, or what the first that is malformed is blamed for.
pub(crate) fn gather<T: Drop, F: Fn(&[u8]) -> Result<T, Expected>>(
    heap: Global,
    line: Line<'_>,
    read: F,
) -> Result<Vec<T>, Fault>
    requires { F.IsAlwaysCallable read }
    ensures { (says : _) → Says (FnReturnsAt F.Fn read) says → Answers vec_items result (gathered (quoting says)) line.entry }
{
    let mut values = Vec::new(heap);
    for token in line {
        let value = read(token).map_err(|expected| Malformed::wrong(expected, token))?;
        values.push(value)?;
    }
    Ok(values)
}

/// The numbers of a line, which has one at least.
pub(crate) fn read_words(heap: Global, line: Line<'_>) -> Result<Vec<u16>, Fault>
    ensures { Answers vec_items result words_of line.entry }
{
    if is_empty(line) {
        return Err(Malformed::missing(Expected::Operand).into());
    }
    gather(heap, line, number_of)
}

/// Whether no token is left.
pub(crate) fn is_empty(mut line: Line<'_>) -> bool
    ensures { result ≡ (length (tokens_left line.entry) == 0) }
{
    line.next().is_none()
}

/// What follows the letter `r`, if a token begins with it.
pub(crate) fn register_digits(token: &[u8]) -> Option<&[u8]>
    ensures { options.option_map (λ x. x.now) result ≡ digits_of_register token.now }
{
    match token {
        [b'r', digits @ ..] => Some(digits),
        _ => None,
    }
}

/// The place that a token names.
#[tactic(auto, unfolding(crate::specs::Operands::place_of))]
fn place_of(token: &[u8]) -> Result<Location, Expected>
    ensures { result ≡ place_of token.now }
{
    // The proof goes through with `number` and a cast, and stays open with `number_of`.
    let place = match register_digits(token) {
        Some(digits) => number(digits, u8::MOST).map(|n| Location::Register(n as u8)),
        None => number(token, u16::MOST).map(|n| Location::Memory(n as u16)),
    };
    place.map_err(|_| Expected::Place)
}

/// The place that a line goes on with.
pub(crate) fn read_place(line: &mut Line<'_>) -> Result<Location, Malformed>
    ensures { Finds (λ x. x) result place_in line.old line.new }
{
    let token = line.next().ok_or(Malformed::missing(Expected::Place))?;
    place_of(token).map_err(|expected| Malformed::wrong(expected, token))
}

/// Whether a statement ends here, as it should.
pub(crate) fn end(mut line: Line<'_>) -> Result<(), Malformed>
    ensures { result ≡ no_more tt (tokens_left line.entry) }
{
    match line.next() {
        Some(token) => Err(Malformed::wrong(Expected::EndOfLine, token)),
        None => Ok(()),
    }
}
