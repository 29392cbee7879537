//! Steps: what is to be done with a routine.
ghost use Rattle.std.specs.Prelude.{◌≡◌};
ghost use Rattle.routine.specs.Steps.{keyword_needing_order, needs_second, excludes, second_byte, join_in, put_in, run_in, read_in};
ghost use Rattle.routine.specs.Answers.{Finds};

use crate::faults::Malformed;
use crate::keywords::Keyword;
use crate::operands::{is_empty, read_number, read_place};
use avr::location::Location;
use machine::call::Call;
use text::Line;

/// What is to be done.
#[derive(Clone, Copy)]
pub enum Step {
    /// The routine is judged.
    Judge,
    /// The levels of its rows are filled in.
    Fill,
    /// Both sets of its rows are pooled.
    Pool,
    /// The largest remaining number of its rows is told.
    Remaining,
    /// Two levels are joined, each given by its code.
    Join { first: u16, second: u16 },
    /// Both boards of a couple are given a call.
    Call(Call<Location>),
}

impl Step {
    /// Its keyword, if it asks the order, so that one must be named above it.
    pub(crate) fn keyword_needing_order(self) -> Option<Keyword>
        ensures { result ≡ keyword_needing_order self }
    {
        match self {
            Step::Judge => Some(Keyword::Judge),
            Step::Fill => Some(Keyword::Fill),
            Step::Pool => Some(Keyword::Pool),
            Step::Join { .. } => Some(Keyword::Join),
            Step::Remaining | Step::Call(_) => None,
        }
    }

    /// Whether it asks a second set of rows, so that one must have begun above it.
    pub(crate) fn needs_second(self) -> bool
        ensures { result ≡ needs_second self }
    {
        matches!(self, Step::Pool)
    }

    /// Whether it cannot stand in one file with another step: levels are filled in or pooled.
    pub(crate) fn excludes(self, other: Step) -> bool
        ensures { result ≡ excludes self other }
    {
        match self {
            Step::Fill => matches!(other, Step::Pool),
            Step::Pool => matches!(other, Step::Fill),
            Step::Judge | Step::Remaining | Step::Join { .. } | Step::Call(_) => false,
        }
    }
}

/// A join, behind its keyword.
pub(crate) fn read_join(line: &mut Line<'_>) -> Result<Step, Malformed>
    ensures { Finds (λ x. x) result join_in line.old line.new }
{
    let first = read_number(line)?;
    let second = read_number(line)?;
    Ok(Step::Join { first, second })
}

/// The second byte of a put: the first again, where none is written.
fn read_second(line: &mut Line<'_>, first: u8) -> Result<u8, Malformed>
    ensures { Finds (λ x. x) result (second_byte first) line.old line.new }
{
    if is_empty(*line) {
        return Ok(first);
    }
    read_number(line)
}

/// A put, behind its keyword.
pub(crate) fn read_put(line: &mut Line<'_>) -> Result<Call<Location>, Malformed>
    ensures { Finds (λ x. x) result put_in line.old line.new }
{
    let location = read_place(line)?;
    let left = read_number(line)?;
    let right = read_second(line, left)?;
    Ok(Call::Put {
        location,
        left,
        right,
    })
}

/// A run, behind its keyword.
pub(crate) fn read_run(line: &mut Line<'_>) -> Result<Call<Location>, Malformed>
    ensures { Finds (λ x. x) result run_in line.old line.new }
{
    let limit = read_number(line)?;
    Ok(Call::Run { limit })
}

/// A read, behind its keyword.
pub(crate) fn read_read(line: &mut Line<'_>) -> Result<Call<Location>, Malformed>
    ensures { Finds (λ x. x) result read_in line.old line.new }
{
    let location = read_place(line)?;
    Ok(Call::Read { location })
}
