//! What an explanation chooses to speak of.
ghost use Rattle.std.specs.Prelude.{◌≡◌, length, nat_lt};
ghost use Rattle.avr.specs.Chip.{instruction_of};
ghost use Rattle.words.specs.Routes.{route_of};
ghost use Rattle.secrecy.specs.Rules.{keeps_function};
ghost use Rattle.row_layout.specs.Views.{rows_in};
ghost use Rattle.explanations.specs.Choices.{broken_part, led, called, begins_function, astray_by, flow_word, word_of, row_of, next_row_of};

use crate::refusal::Refusal;
use judge::faults::{FlowFault, JudgeFault, RowFault};
use words::fault::WordFault;
use words::route::Route;

/// Which part of its shape a row breaks.
#[derive(Clone, Copy)]
pub(crate) enum ShapePart {
    /// The finish row says more than levels.
    Finish,
    /// Nothing remains, but there is a region level or a join address.
    Outside,
    /// The join address is none of the words.
    Join,
    /// The function is none of the words.
    Function,
    /// The first row is not in function 0.
    Beginning,
}

/// A word that another one should not lead to.
#[derive(Clone, Copy)]
pub(crate) enum Astray {
    /// There is no such word.
    Outside(u32),
    /// It has another function.
    OtherFunction(u32),
    /// It is called, and is not the first word of a function.
    NotFirst(u32),
}

impl Refusal<'_> {
    /// The address of the word that the refusal is about.
    pub fn word(&self) -> Option<u16>
        ensures { result ≡ word_of self.now.fault }
    {
        match self.fault {
            JudgeFault::Words(WordFault::Undecodable(at)) => Some(at),
            JudgeFault::Flow(fault) => Some(flow_word(fault)),
            JudgeFault::Words(WordFault::Length) | JudgeFault::Rows(_) => None,
        }
    }

    /// The row that the refusal is about.
    pub fn row(&self) -> Option<u32>
        ensures { result ≡ row_of self.now.fault }
    {
        match self.fault {
            JudgeFault::Rows(RowFault::NotHeld { row, .. } | RowFault::Shape { row }) => Some(
                u32::from(row),
            ),
            JudgeFault::Flow(fault) => Some(u32::from(flow_word(fault))),
            JudgeFault::Words(_) | JudgeFault::Rows(RowFault::Count) => None,
        }
    }

    /// The other row that the refusal is about, the one that comes next.
    pub fn next_row(&self) -> Option<u32>
        ensures { result ≡ next_row_of self.now.fault }
    {
        match self.fault {
            JudgeFault::Flow(FlowFault::Time { next, .. } | FlowFault::Level { next, .. }) => Some(
                next,
            ),
            _ => None,
        }
    }

    /// Which part of its shape a row breaks, if it breaks one.
    pub(crate) fn broken_part(&self, at: u16) -> ShapePart
        ensures { result ≡ broken_part (length self.now.routine.words.now) (rows_in self.now.routine.rows) at }
    {
        let row = u32::from(at);
        let len = self.routine.words.len();
        let region = self.routine.rows.region(row);
        let join = self.join(row);
        let remaining = self.routine.rows.remaining(row);
        let function = self.routine.rows.function(row);
        let is_bare = region == 0 && join == 0;
        if usize::from(at) >= len && !(is_bare && (remaining == 0 && function == 0)) {
            ShapePart::Finish
        } else if remaining == 0 && !is_bare {
            ShapePart::Outside
        } else if remaining != 0 && usize::from(join) >= len {
            ShapePart::Join
        } else if usize::from(function) >= len {
            ShapePart::Function
        } else {
            ShapePart::Beginning
        }
    }

    /// Which word another one leads to that it should not, if there is one.
    pub(crate) fn astray(&self, at: u16) -> Astray
        ensures { result ≡ astray_by (length self.now.routine.words.now) (rows_in self.now.routine.rows) at (route_of at (instruction_of self.now.routine.words.now at)) }
    {
        let behind = u32::from(at) + 1;
        match self.routine.instruction(at).route(at) {
            Route::To(to) | Route::Jump(to) => self.led(to),
            Route::Fork(on, aside) => {
                let next = if self.keeps_function(at, on) {
                    aside
                } else {
                    on
                };
                self.led(next)
            }
            Route::Call(into) if self.begins_function(into) => self.led(behind),
            Route::Call(into) => self.called(into),
            Route::Return => self.led(behind),
        }
    }

    /// Whether there is such a word.
    fn has_word(&self, at: u32) -> bool
        ensures { result ≡ nat_lt at (length self.now.routine.words.now) }
    {
        (at as usize) < self.routine.words.len()
    }

    /// Whether a next word is one of the words, and in the same function.
    fn keeps_function(&self, at: u16, next: u32) -> bool
        ensures { result ≡ keeps_function (length self.now.routine.words.now) (rows_in self.now.routine.rows) at next }
    {
        self.has_word(next)
            && self.routine.rows.function(next) == self.routine.rows.function(u32::from(at))
    }

    /// Whether a word is the first of a function.
    fn begins_function(&self, at: u32) -> bool
        ensures { result ≡ begins_function (length self.now.routine.words.now) (rows_in self.now.routine.rows) at }
    {
        self.has_word(at) && u32::from(self.routine.rows.function(at)) == at
    }

    /// What is wrong with a word that comes next.
    fn led(&self, next: u32) -> Astray
        ensures { result ≡ led (length self.now.routine.words.now) next }
    {
        if self.has_word(next) {
            Astray::OtherFunction(next)
        } else {
            Astray::Outside(next)
        }
    }

    /// What is wrong with a word that is called.
    fn called(&self, into: u32) -> Astray
        ensures { result ≡ called (length self.now.routine.words.now) into }
    {
        if self.has_word(into) {
            Astray::NotFirst(into)
        } else {
            Astray::Outside(into)
        }
    }
}

/// The address of the word of a fault.
fn flow_word(fault: FlowFault) -> u16
    ensures { result ≡ flow_word fault }
{
    match fault {
        FlowFault::Inside { at }
        | FlowFault::Bounds { at }
        | FlowFault::Deciding { at }
        | FlowFault::Time { at, .. }
        | FlowFault::Level { at, .. } => at,
    }
}
