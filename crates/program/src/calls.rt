//! What the program prints of calls on a couple of boards.
use avr::location::Location;
use board::fault::CallFault;
use couples::answers::{Answer, Answers};
use couples::working::Call;
use std::{fmt, io};

/// A place as routine files write it.
#[derive(Clone, Copy)]
struct Place(Location);

impl fmt::Display for Place {
    fn fmt<W: fmt::Write>(&self, f: &mut fmt::Formatter<W>) -> fmt::Result {
        match self.0 {
            Location::Register(number) => write!(f, "r{number}"),
            Location::Memory(address) => write!(f, "{address}"),
        }
    }
}

/// A call as routine files write it: one byte where a put gives both boards the same.
#[derive(Clone, Copy)]
pub struct Written(pub Call<Location>);

impl fmt::Display for Written {
    fn fmt<W: fmt::Write>(&self, f: &mut fmt::Formatter<W>) -> fmt::Result {
        match self.0 {
            Call::Clear => f.write_str("clear"),
            Call::Put {
                location,
                left,
                right,
            } => {
                let place = Place(location);
                write!(f, "put {place} {left}")?;
                if left == right {
                    return Ok(());
                }
                write!(f, " {right}")
            }
            Call::Run { limit } => write!(f, "run {limit}"),
            Call::Read { location } => {
                let place = Place(location);
                write!(f, "read {place}")
            }
        }
    }
}

/// Why both boards refuse a call, for whoever wrote it.
#[derive(Clone, Copy)]
struct Refusal {
    call: Call<Location>,
    fault: CallFault,
}

impl fmt::Display for Refusal {
    fn fmt<W: fmt::Write>(&self, f: &mut fmt::Formatter<W>) -> fmt::Result {
        let number = self.fault.number();
        write!(f, "refused {number}: ")?;
        match (self.fault, self.call) {
            (CallFault::Phase, Call::Read { .. }) => f.write_str(
                "bytes are read only once the routine has ended",
            ),
            (CallFault::Phase, _) => f.write_str(
                "bytes are put only before the first run, or after clear",
            ),
            (CallFault::Register, Call::Put { location, .. } | Call::Read { location }) =>
                match location {
                    Location::Register(number) => write!(f, "there is no register {number}"),
                    Location::Memory(address) => write!(f, "there is no address {address}"),
                },
            (CallFault::Register, _) => f.write_str("there is no such register"),
        }
    }
}

/// What a call came to: that it is done, a refusal where both boards refuse alike, or both answers; and of bytes that were read
/// whether the finish row hides them from an observer of level 0, if it says so.
#[derive(Clone, Copy)]
struct Outcome {
    call: Call<Location>,
    answers: Answers,
    hidden: Option<bool>,
}

impl fmt::Display for Outcome {
    fn fmt<W: fmt::Write>(&self, f: &mut fmt::Formatter<W>) -> fmt::Result {
        let answers = self.answers;
        match answers.left {
            Answer::Done if answers.agree() => f.write_str("done"),
            Answer::Refuses(fault) if answers.agree() => {
                let call = self.call;
                let refusal = Refusal { call, fault };
                write!(f, "{refusal}")
            }
            _ => {
                write!(f, "{answers}")?;
                match self.hidden {
                    Some(true) => f.write_str(", hidden from level 0"),
                    Some(false) => f.write_str(", seen by level 0"),
                    None => Ok(()),
                }
            }
        }
    }
}

/// Prints a call and what both boards answered to it.
pub(crate) fn print_outcome(
    rt: &HostRuntime,
    call: Call<Location>,
    answers: Answers,
    hidden: Option<bool>,
) -> io::Result<()> {
    let written = Written(call);
    let outcome = Outcome {
        call,
        answers,
        hidden,
    };
    println!(rt; "{written}: {outcome}")
}
