//! The statement of one line.
ghost use Rattle.std.specs.Option as options;
ghost use Rattle.routine.specs.Statements.{stated_of, statement_of, line_of};
ghost use Rattle.routine.specs.Answers.{Answers};

use crate::faults::{Expected, Fault, Malformed};
use crate::forms::read_order;
use crate::keywords::Keyword;
use crate::operands::{end, read_words};
use crate::rows::{Entry, RowName, read_row};
use crate::steps::{Step, read_join, read_put, read_read, read_run};
use machine::call::Call;
use orders::written::OrderText;
use std::alloc::Global;
use text::Line;

/// What a line says.
#[derive(Drop)]
pub enum Statement {
    /// More words of the routine.
    Words(Vec<u16>),
    /// The order of levels.
    Order(OrderText),
    /// More numbers of the rows.
    Rows(Vec<u16>),
    /// Values of one row.
    Row { name: RowName, entries: Vec<Entry> },
    /// The rows below are those of the second set.
    Second,
    /// One step more.
    Step(Step),
}

/// The statement of a line, if the line has one.
pub fn read_statement(heap: Global, mut line: Line<'_>) -> Result<Option<Statement>, Fault>
    ensures { Answers (options.option_map stated_of) result line_of line.entry }
{
    // A line without a statement is no refusal.
    let Some(token) = line.next() else {
        return Ok(None);
    };
    let Some(keyword) = Keyword::from_token(token) else {
        return Err(Malformed::wrong(Expected::Keyword, token).into());
    };
    let statement = read_operands(heap, keyword, line)?;
    Ok(Some(statement))
}

/// The statement of a keyword, by the tokens behind it.
fn read_operands(heap: Global, keyword: Keyword, mut line: Line<'_>) -> Result<Statement, Fault>
    ensures { Answers stated_of result (statement_of keyword) line.entry }
{
    let step = match keyword {
        Keyword::Words => return Ok(Statement::Words(read_words(heap, line)?)),
        Keyword::Order => return Ok(Statement::Order(read_order(heap, line)?)),
        Keyword::Rows => return Ok(Statement::Rows(read_words(heap, line)?)),
        Keyword::Row => {
            let (name, entries) = read_row(heap, line)?;
            return Ok(Statement::Row { name, entries });
        }
        Keyword::Second => {
            end(line)?;
            return Ok(Statement::Second);
        }
        Keyword::Judge => Step::Judge,
        Keyword::Fill => Step::Fill,
        Keyword::Pool => Step::Pool,
        Keyword::Remaining => Step::Remaining,
        Keyword::Join => read_join(&mut line)?,
        Keyword::Clear => Step::Call(Call::Clear),
        Keyword::Put => Step::Call(read_put(&mut line)?),
        Keyword::Run => Step::Call(read_run(&mut line)?),
        Keyword::Read => Step::Call(read_read(&mut line)?),
    };
    end(line)?;
    Ok(Statement::Step(step))
}
