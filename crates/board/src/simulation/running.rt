//! Runs: steps up to a limit of cycles.
ghost use Rattle.std.specs.Prelude.{◌≡◌, ◌+◌, length, nat_lt};
ghost use Rattle.machine.specs.Run.{step as step_of, Runs};
ghost use Rattle.machine.specs.Laws.{RunCounts, CountsLives};
ghost use Rattle.machine.specs.Calls.{ends, run as run_call};
ghost use Rattle.avr.specs.Chip.{instruction_of, avr};
ghost use Rattle.cells.specs.declared.cell.Leave.TheVariants.{Jump, Call, Return};
ghost use Rattle.cells.specs.declared.cell.Way.TheVariants.{On, Leave as Leaving};
ghost use Rattle.cells.specs.Works.{Fits};
ghost use Rattle.cells.specs.Cells.{Shows};
ghost use Rattle.board.specs.Moves.{step_by_way, landing_of};
ghost use Rattle.board.specs.Steps.{Paid};
ghost use Rattle.board.specs.States.{state_of, board_of, words_of, stepped, Works, Lent};

use crate::simulation::Board;
use cells::cell::{Cell, Leave, Way};
use cells::work::Work;
use machine::phase::{Ending, Phase, Stop};
use std::ops::ControlFlow;

// Each method that changes a board says in a clause that words and lent bytes stay the same (`Lent`).
impl Board<'_, '_> {
    /// The cell of the word at which the board stands.
    fn fetch(&self) -> &Cell
        ensures { Shows self.now.at (instruction_of (words_of self.now) self.now.at) result.now }
    {
        &self.cells[self.at as usize]
    }

    /// The count after so many cycles more, unless they pass the limit.
    fn paid(&self, limit: u32, cycles: u8) -> ControlFlow<Ending, u32>
        ensures { Paid limit (self.now.count + cycles) result }
    {
        if u64::from(limit) < u64::from(self.count) + u64::from(cycles) {
            return ControlFlow::Break(Ending::Spent(limit));
        }
        ControlFlow::Continue(self.count + u32::from(cycles))
    }

    /// Whether an address is in the listing.
    fn holds(&self, at: u32) -> bool
        ensures { result ≡ nat_lt at (length (words_of self.now)) }
    {
        at < u32::from(self.listing.len())
    }

    /// Goes to an address if it is in the listing.
    fn land(&mut self, to: u32) -> ControlFlow<Ending>
        ensures state { stepped result (state_of self.new) ≡ landing_of self.old to }
        ensures same { Lent self.old self.new }
        ensures count { self.new.count ≡ self.old.count }
    {
        if self.holds(to) {
            self.at = to as u16;
            ControlFlow::Continue(())
        } else {
            ControlFlow::Break(Ending::Stopped(Stop::Off, self.count))
        }
    }

    /// A step by a word that does its work and goes on.
    fn go_on(&mut self, limit: u32, work: Work, cycles: u8) -> ControlFlow<Ending>
        requires { Fits work }
        ensures state { stepped result (state_of self.new) ≡ step_by_way self.old limit (On work) cycles }
        ensures same { Lent self.old self.new }
    {
        let count = self.paid(limit, cycles)?;
        let next = u32::from(self.at) + 1;
        self.chip.perform(work);
        self.count = count;
        self.land(next)
    }

    /// A step by a word that only goes to an address.
    fn go_to(&mut self, limit: u32, to: u32, cycles: u8) -> ControlFlow<Ending>
        ensures state { stepped result (state_of self.new) ≡ step_by_way self.old limit (Leaving (Jump to)) cycles }
        ensures same { Lent self.old self.new }
    {
        self.count = self.paid(limit, cycles)?;
        self.land(to)
    }

    /// Where a call from here returns to.
    fn return_address(&self) -> u16
        ensures { result ≡ self.now.at + 1 }
    {
        self.at + 1
    }

    /// A step by a word that calls.
    fn call(&mut self, limit: u32, to: u32, cycles: u8) -> ControlFlow<Ending>
        ensures state { stepped result (state_of self.new) ≡ step_by_way self.old limit (Leaving (Call to)) cycles }
        ensures same { Lent self.old self.new }
    {
        let count = self.paid(limit, cycles)?;
        let address = self.return_address();
        if self.returns.try_push(address).is_err() {
            return ControlFlow::Break(Ending::Stopped(Stop::Deep, self.count));
        }
        self.count = count;
        self.land(to)
    }

    /// A step by a word that returns.
    fn go_back(&mut self, limit: u32, cycles: u8) -> ControlFlow<Ending>
        ensures state { stepped result (state_of self.new) ≡ step_by_way self.old limit (Leaving Return) cycles }
        ensures same { Lent self.old self.new }
    {
        self.count = self.paid(limit, cycles)?;
        match self.returns.pop() {
            Some(to) => self.land(u32::from(to)),
            None => ControlFlow::Break(Ending::Ended(self.count)),
        }
    }

    /// One step, up to a limit of cycles: it breaks with an ending, or the run goes on.
    fn step(&mut self, limit: u32) -> ControlFlow<Ending>
        ensures state { stepped result (state_of self.new) ≡ step_of (avr (words_of self.old)) limit (state_of self.old) }
        ensures same { Lent self.old self.new }
    {
        let cell = self.fetch();
        let on = cell.on;
        let aside = cell.aside;
        match cell.way {
            Way::On(work) => self.go_on(limit, work, on),
            Way::Fork(test, target) => {
                if self.chip.passes(test) {
                    self.go_to(limit, target, aside)
                } else {
                    self.go_to(limit, u32::from(self.at) + 1, on)
                }
            }
            Way::Leave(Leave::Jump(to)) => self.go_to(limit, to, aside),
            Way::Leave(Leave::Call(to)) => self.call(limit, to, aside),
            Way::Leave(Leave::Return) => self.go_back(limit, aside),
        }
    }

    /// Steps up to a limit of cycles, to an ending.
    fn advance(&mut self, limit: u32) -> Ending
        ensures state { Runs (avr (words_of self.old)) limit (state_of self.old) (state_of self.new) result }
        ensures same { Lent self.old self.new }
    {
        loop {
            if let ControlFlow::Break(ending) = self.step(limit) {
                return ending;
            }
        }
    }

    /// Goes on up to a limit of cycles, unless the board has ended or is stopped.
    // `run` adds what is true of every machine: that the count is a sum.
    fn carry_on(&mut self, limit: u32) -> Ending
        ensures state { Works (run_call limit) self.old self.new (ends result) }
        ensures same { Lent self.old self.new }
    {
        match self.phase {
            Phase::Ended => return Ending::Ended(self.count),
            Phase::Stopped(stop) => return Ending::Stopped(stop, self.count),
            Phase::Loading | Phase::Running => {}
        }
        let ending = self.advance(limit);
        self.phase = Phase::from(ending);
        ending
    }

    /// Runs up to a limit of cycles. An ended or stopped board stays as it is and repeats its ending. The count of a run is the
    /// sum of the cycles of the words that it carries out.
    pub fn run(&mut self, limit: u32) -> Ending
        ensures state { Works (run_call limit) self.old self.new (ends result) }
        ensures same { Lent self.old self.new }
        ensures counts { RunCounts (avr (words_of self.old)) limit (board_of self.old) (board_of self.new) result }
        ensures lives { CountsLives (avr (words_of self.old)) }
    {
        self.carry_on(limit)
    }
}
