//! The steps of a routine, in order.
use crate::calls::{Written, print_outcome};
use crate::judging::{Judged, Lines};
use crate::makings::Making;
use avr::location::Location;
use couples::answers::{Answer, Answers};
use couples::fault::LifeFault;
use couples::living::live;
use couples::working::Call;
use orders::making::Made;
use routine::{Routine, Step};
use std::alloc::{AllocError, Global};
use std::io;

/// How many bytes the memory of a board has.
const MEMORY: usize = 65536;

/// Which of the sets of rows of a file some rows are of.
#[derive(Clone, Copy)]
pub(crate) enum Sets {
    /// Of the first.
    First,
    /// Of the second.
    Second,
    /// Of both.
    Both,
}

impl Sets {
    /// Whether the first is among them.
    pub(crate) fn has_first(self) -> bool {
        matches!(self, Sets::First | Sets::Both)
    }

    /// Whether the second is among them.
    pub(crate) fn has_second(self) -> bool {
        matches!(self, Sets::Second | Sets::Both)
    }
}

/// A routine whose steps are to be worked, the order that it is judged by, if one was made, the rows that hold now, which are those that
/// are given or those that a step has made, and the sets that they are of.
#[derive(Clone, Copy)]
pub(crate) struct Job<'r, 'o> {
    pub routine: &'r Routine,
    pub order: Option<&'o Made>,
    pub rows: &'r [u16],
    pub sets: Sets,
}

/// What two boards answered to the calls of a routine, one after another, or why there are none.
type Life = Result<Vec<Answers>, LifeFault>;

/// The calls among some steps, in order.
fn calls_of(heap: Global, steps: &[Step]) -> Result<Vec<Call<Location>>, AllocError> {
    let mut calls = Vec::new(heap);
    for step in steps {
        if let Step::Call(call) = *step {
            calls.push(call)?;
        }
    }
    Ok(calls)
}

/// Works calls on a couple of boards, from their making on. Without calls no boards are made.
fn live_through(heap: Global, words: &[u16], calls: &[Call<Location>]) -> Result<Life, AllocError> {
    if calls.is_empty() {
        return Ok(Ok(Vec::new(heap)));
    }
    live_on_boards(heap, words, calls)
}

/// Works calls on a couple of boards, from their making on.
// A function of its own, since a function pays at entry for the size of its memories.
fn live_on_boards(
    heap: Global,
    words: &[u16],
    calls: &[Call<Location>],
) -> Result<Life, AllocError> {
    let mut left = [0u8; MEMORY];
    let mut right = [0u8; MEMORY];
    let none = Answers {
        left: Answer::Done,
        right: Answer::Done,
    };
    let mut answers = vec![in heap; none; calls.len()]?;
    let lived = live(words, &mut left, &mut right, calls, answers.as_mut_slice());
    Ok(lived.map(|()| answers))
}

impl Job<'_, '_> {
    /// Works the calls on a couple of boards, and prints what each step came to. Only the calls need boards.
    pub(crate) fn work(self, rt: &HostRuntime, judged: Judged, making: &Making) -> io::Result<()> {
        let steps = self.routine.steps.as_slice();
        let calls = calls_of(rt.alloc(), steps)?;
        let life = live_through(rt.alloc(), self.routine.words.as_slice(), calls.as_slice())?;
        let given = self.lines_of(judged);
        let mut job = self;
        let mut made = None;
        let mut number = 0usize;
        for step in steps {
            match *step {
                Step::Judge => match made {
                    Some(lines) => job.print_made_verdict(rt, making, lines)?,
                    None => self.print_verdict(rt, judged, given)?,
                },
                Step::Fill => {
                    self.print_filling(rt, making)?;
                    if made.is_none() {
                        job = self.with_made(making, Sets::First);
                        made = Some(job.lines_of(making.judged()));
                    }
                }
                Step::Pool => {
                    self.print_pooling(rt, making)?;
                    if made.is_none() {
                        job = self.with_made(making, Sets::Both);
                        made = Some(job.lines_of(making.judged()));
                    }
                }
                Step::Remaining => job.print_remaining(rt)?,
                Step::Join { first, second } => self.join(rt, first, second)?,
                Step::Call(call) => {
                    job.print_answers(rt, call, &life, number)?;
                    number = number.saturating_add(1);
                }
            }
        }
        Ok(())
    }

    /// Prints what boards answered to a call, which is the one of that number.
    fn print_answers(
        self,
        rt: &HostRuntime,
        call: Call<Location>,
        life: &Life,
        number: usize,
    ) -> io::Result<()> {
        match life {
            Ok(answers) => match answers.get(number) {
                Some(answers) => print_outcome(rt, call, *answers, self.hidden(call)),
                None => Ok(()),
            },
            Err(fault) => print_boardless(rt, call, *fault),
        }
    }

    /// Whether the finish row hides what a call reads from an observer of level 0; none of other calls.
    fn hidden(self, call: Call<Location>) -> Option<bool> {
        match call {
            Call::Read { location } => self.hides(location),
            Call::Clear | Call::Put { .. } | Call::Run { .. } => None,
        }
    }
}

/// Prints that a call has no boards.
fn print_boardless(rt: &HostRuntime, call: Call<Location>, fault: LifeFault) -> io::Result<()> {
    let written = Written(call);
    match fault {
        LifeFault::Making(fault) => {
            let number = fault.number();
            println!(rt; "{written}: no board, since the words are refused {number}")
        }
        LifeFault::Room => println!(rt; "{written}: no board, since there is no room for answers"),
    }
}
