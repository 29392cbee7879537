//! What two boards answer, side by side.
ghost use Rattle.std.specs.Prelude.{◌≡◌, Decides};
ghost use Rattle.board.specs.Faults.{put_answer, read_answer};
ghost use Rattle.couples.specs.Answers.{answer_of};

use board::fault::CallFault;
use machine::phase::{Ending, Stop};
use std::fmt;

/// What a board answers to a call.
#[derive(Clone, Copy, PartialEq, Eq)]
pub enum Answer {
    /// The call was done.
    Done,
    /// The byte that was read.
    Byte(u8),
    /// How a run ended.
    Ends(Ending),
    /// The call was refused.
    Refuses(CallFault),
}

/// What a put answers.
impl From<Result<(), CallFault>> for Answer {
    ghost from_gives = { λ res answer. answer_of answer ≡ put_answer res };

    fn from(res: Result<(), CallFault>) -> Answer {
        res.map_or_else(Answer::Refuses, |()| Answer::Done)
    }
}

/// What a read answers.
impl From<Result<u8, CallFault>> for Answer {
    ghost from_gives = { λ res answer. answer_of answer ≡ read_answer res };

    fn from(res: Result<u8, CallFault>) -> Answer {
        res.map_or_else(Answer::Refuses, Answer::Byte)
    }
}

/// The answers of both boards to one call.
#[derive(Clone, Copy)]
pub struct Answers {
    pub left: Answer,
    pub right: Answer,
}

impl Answers {
    /// Whether the two boards answer the same.
    pub fn agree(self) -> bool
        ensures { Decides result (self.left ≡ self.right) }
    {
        self.left == self.right
    }
}

impl fmt::Display for Answer {
    fn fmt<W: fmt::Write>(&self, f: &mut fmt::Formatter<W>) -> fmt::Result {
        match *self {
            Answer::Done => f.write_str("done"),
            Answer::Byte(byte) => write!(f, "{byte}"),
            Answer::Ends(Ending::Spent(limit)) => write!(f, "spent {limit}"),
            Answer::Ends(Ending::Ended(count)) => write!(f, "ended {count}"),
            Answer::Ends(Ending::Stopped(Stop::Deep, count)) => write!(f, "deep {count}"),
            Answer::Ends(Ending::Stopped(Stop::Off, count)) => write!(f, "off {count}"),
            Answer::Refuses(fault) => write!(f, "refused {}", fault.number()),
        }
    }
}

impl fmt::Display for Answers {
    fn fmt<W: fmt::Write>(&self, f: &mut fmt::Formatter<W>) -> fmt::Result {
        let verdict = if self.agree() { "same" } else { "differ" };
        write!(f, "{} / {} | {verdict}", self.left, self.right)
    }
}
