//! What is wrong with a routine file, in words that its maker understands.
ghost use Rattle.std.specs.Prelude.{◌≡◌};
ghost use Rattle.routine.specs.Faults.{missing, wrong, misplaced};
ghost use Rattle.routine.specs.declared.faults.Fault.TheVariants as fault;

use crate::keywords::Keyword;
use crate::quotes::Quote;
use std::alloc::{AllocError, AllocFailed};
use std::fmt;
use thiserror::Error;

/// What is expected in a file.
#[derive(Clone, Copy, Debug, Error)]
pub enum Expected {
    /// A keyword, at the beginning of a line.
    #[error("a keyword: words, order, rows, row, second, judge, fill, pool, remaining, join, clear, put, run or read")]
    Keyword,
    /// An operand, behind a keyword that takes any number of them.
    #[error("at least one operand after the keyword")]
    Operand,
    /// A token that writes a number from 0 to `most`.
    #[error("a number from 0 to {most}, in decimal or after 0x")]
    Number { most: u32 },
    /// A number that is at most `most`.
    #[error("a number from 0 to {most}")]
    AtMost { most: u32 },
    /// A byte that is text.
    #[error("text")]
    Text,
    /// A statement of words, in a file that has none.
    #[error("a statement of words")]
    Words,
    /// The end of a statement, where all its operands are read.
    #[error("the end of the line")]
    EndOfLine,
    /// An order.
    #[error("an order: chain, compartments or table, or pair and two of these")]
    Order,
    /// One of the two orders of a pair.
    #[error("an order in the pair: chain, compartments or table")]
    PartOrder,
    /// A place.
    #[error("a register, r0 to r255, or an address of the memory, 0 to 65535")]
    Place,
    /// A statement that may stand behind those above it.
    #[error("words first, then order and rows, and then judge, fill, pool, remaining, join and the calls")]
    Sequence,
    /// No second order.
    #[error("one order at most")]
    OneOrder,
    /// An order, above a statement that asks it.
    #[error("an order before judge, fill, pool and join")]
    OrderAbove,
    /// No third set of rows.
    #[error("one second set of rows at most")]
    OneSecond,
    /// A second set of rows, above a statement that asks it.
    #[error("a second set of rows before pool")]
    SecondAbove,
    /// Steps of which a file has one kind.
    #[error("fill or pool, and not both")]
    FillOrPool,
    /// A row that there is.
    #[error("the address of one of the words, or finish")]
    Row,
    /// A token that gives a value to a name.
    #[error("a name, = and a value, as r16=1")]
    Assignment,
    /// The name of a column.
    #[error("a name of a row: r0 to r31, c, z, memory, region, join, remaining or function")]
    Column,
    /// Rows in the form of those above them in their set.
    #[error("all rows of a set by rows, or all of them by row")]
    SameForm,
}

/// What stands there instead.
#[derive(Clone, Copy, Debug)]
pub enum Found {
    /// The end of the line.
    EndOfLine,
    /// The end of the file.
    EndOfFile,
    /// A byte.
    Byte(u8),
    /// A token.
    Token(Quote),
    /// A statement that begins with a keyword.
    Statement(Keyword),
    /// The address of a row.
    Address(u16),
}

impl fmt::Display for Found {
    fn fmt<W: fmt::Write>(&self, f: &mut fmt::Formatter<W>) -> fmt::Result {
        match *self {
            Found::EndOfLine => f.write_str("the end of the line"),
            Found::EndOfFile => f.write_str("the end of the file"),
            Found::Byte(byte) => write!(f, "the byte 0x{byte:02X}"),
            Found::Token(quote) => write!(f, "{quote}"),
            Found::Statement(keyword) => write!(f, "`{}`", keyword.name()),
            Found::Address(address) => write!(f, "the address {address}"),
        }
    }
}

/// What is wrong with a line.
#[derive(Clone, Copy, Debug, Error)]
#[error("expected {expected}, found {found}")]
pub struct Malformed {
    pub expected: Expected,
    pub found: Found,
}

impl Malformed {
    /// The line ends where something is expected.
    pub(crate) fn missing(expected: Expected) -> Malformed
        ensures { result ≡ missing expected }
    {
        Malformed {
            expected,
            found: Found::EndOfLine,
        }
    }

    /// A token stands where something else is expected.
    pub(crate) fn wrong(expected: Expected, token: &[u8]) -> Malformed
        ensures { result ≡ wrong expected token.now }
    {
        Malformed {
            expected,
            found: Found::Token(Quote::new(token)),
        }
    }

    /// A statement stands where something else is expected.
    pub(crate) fn misplaced(expected: Expected, keyword: Keyword) -> Malformed
        ensures { result ≡ misplaced expected keyword }
    {
        Malformed {
            expected,
            found: Found::Statement(keyword),
        }
    }
}

/// Why a line was not carried out.
#[derive(Clone, Copy, Debug, Error)]
pub enum Fault {
    /// The line is malformed.
    #[error("{0}")]
    Malformed(Malformed),
    /// No memory was left for what it holds.
    #[error("no memory is left")]
    NoMemory,
}

// Written by hand for its `from_gives`: clauses name what `?` makes, and a derived `From` says nothing of it.
impl From<Malformed> for Fault {
    ghost from_gives = { λ m r. r ≡ fault.Malformed m };

    fn from(malformed: Malformed) -> Fault {
        Fault::Malformed(malformed)
    }
}

impl From<AllocError> for Fault {
    ghost from_gives = { λ _ r. r ≡ fault.NoMemory };

    fn from(_error: AllocError) -> Fault {
        Fault::NoMemory
    }
}

impl<T: Drop> From<AllocFailed<T>> for Fault {
    ghost from_gives = { λ _ r. r ≡ fault.NoMemory };

    fn from(_refused: AllocFailed<T>) -> Fault {
        Fault::NoMemory
    }
}

/// Why a file was not carried out, and at which line, counted from 1.
#[derive(Clone, Copy, Debug, Error)]
#[error("{line}: {fault}")]
pub struct FileFault {
    pub line: usize,
    pub fault: Fault,
}
