//! Levels raised along all ways of a routine, until they settle.
ghost use Rattle.std.specs.Prelude.{◌≡◌, ℕ, ◌+◌, ◌*◌, ◌<◌, ◌≤◌, ◌==◌, ◌&&◌, not, false, length, slice_index, nat_lt};
ghost use Rattle.avr.specs.Chip.{instruction_of, kind_of, avr};
ghost use Rattle.machine.specs.Machine.{calls};
ghost use Rattle.secrecy.specs.Rows.{rows_of, columns};
ghost use Rattle.secrecy.specs.Flow.{level_after as level_after_of};
ghost use Rattle.secrecy.specs.Rules.{calls_to};
ghost use Rattle.secrecy.specs.Filling.{Leads, Settled};
ghost use Rattle.judge.specs.Worked.{callee_of};
ghost use Rattle.filling.specs.Worked.{Decoded, Callees};
ghost use Rattle.filling.specs.Worklists.{lists};
ghost use Rattle.filling.specs.Seeds.{FirstAlone};
ghost use Rattle.filling.specs.Between.{places, Between, Departs, DueAlong, SettledTo, SettledFrom, Clean, Raised, RaisesListed};

use crate::worklist::Worklist;
use avr::table::written;
use flow::leveling::Leveling;
use levels::ranked::Ranked;
use row_layout::{COLUMNS, PLACES, RoutineView, RowsView};
use std::array;
use words::instruction::Instruction;
use words::route::Route;

/// How many words a routine can have.
pub(crate) const CAPACITY: usize = 1024;

/// A routine whose levels are filled in: its words, the rows that are given, the order that levels are of, and the instruction at each
/// address and the function that each word calls, worked out once.
#[derive(Drop)]
pub(crate) struct Job<'j, O> {
    pub words: &'j [u16],
    pub given: &'j [u16],
    pub order: &'j O,
    // Room for the longest listing: past the last word there are nops, and nobody is called.
    pub instructions: [Instruction; CAPACITY],
    pub callees: [Option<u32>; CAPACITY],
    ghost few: { length words.now ≤ 1024 },
    ghost decoded: { Decoded words.now instructions },
    ghost calls: { Callees instructions callees },
}

/// What the word at an address leaves behind: the level of each place after it, by the place's number, its pc_level, and
/// whether it stands inside a region.
#[derive(Clone, Copy)]
pub(crate) struct Departure {
    pub at: u16,
    pub levels: [u16; PLACES],
    pub pc_level: u16,
    pub inside: bool,
}

/// The instruction at each address.
pub(crate) fn decode(words: &[u16]) -> [Instruction; CAPACITY]
    ensures { Decoded words.now result }
{
    let routine = RoutineView::new(words, &[]);
    array::from_fn(|at| routine.instruction(at as u16))
}

/// The function that an instruction calls, if it calls one.
fn callee(at: u16, instruction: Instruction) -> Option<u32>
    ensures { result ≡ callee_of (kind_of at instruction) }
{
    match instruction.route(at) {
        Route::Call(target) => Some(target),
        Route::To(_) | Route::Jump(_) | Route::Fork(_, _) | Route::Return => None,
    }
}

/// The function that each instruction calls.
pub(crate) fn callees(instructions: &[Instruction; CAPACITY]) -> [Option<u32>; CAPACITY]
    requires { length instructions.now ≡ 1024 }
    ensures { Callees instructions.now result }
{
    array::from_fn(|at| {
        let instruction = instructions.get(at).copied().unwrap_or(Instruction::Nop);
        callee(at as u16, instruction)
    })
}

impl<O: Ranked> Job<'_, O> {
    /// How many words there are.
    pub(crate) fn len(&self) -> u16
        ensures { result ≡ length self.now.words.now }
    {
        self.words.len() as u16
    }

    /// The given rows.
    pub(crate) fn given_rows(&self) -> RowsView<'_>
        ensures rows { result.rows.now ≡ self.now.given.now }
        ensures words { result.words ≡ length self.now.words.now }
    {
        RowsView {
            rows: self.given,
            words: self.words.len(),
        }
    }

    /// The instruction at an address.
    fn instruction(&self, at: u16) -> Instruction
        requires { at < 1024 }
        ensures { result ≡ instruction_of self.now.words.now at }
    {
        self.instructions[usize::from(at)]
    }

    /// The level of each place after the word at an address, by the place's number: what the row says, but for the places that the word
    /// writes.
    fn levels_after(&self, rows: &[u16], at: u16) -> [u16; PLACES]
        requires whole { length rows.now ≡ (length self.now.words.now + 1) * columns }
        requires at { at < length self.now.words.now }
        ensures { (place : ℕ) → place < places → slice_index result place ≡ level_after_of (O.Order.meaning self.now.order.now) (avr self.now.words.now) (rows_of (length self.now.words.now) rows.now) at place }
    {
        let leveling = Leveling {
            routine: RoutineView::new(self.words, rows),
            order: self.order,
        };
        let instruction = self.instruction(at);
        let start = usize::from(at) * COLUMNS;
        let mut levels = [0; PLACES];
        levels.copy_from_slice(&rows[start..start + PLACES]);
        let places = written(instruction);
        for place in places.as_slice() {
            levels[usize::from(*place)] = leveling.level_after(at, instruction, *place);
        }
        levels
    }

    /// What the word at an address leaves behind by some rows.
    fn depart(&self, rows: &[u16], at: u16) -> Departure
        requires between { Between (O.Order.meaning self.now.order.now) self.now.words.now self.now.given.now rows.now }
        requires at { at < length self.now.words.now }
        ensures at { result.at ≡ at }
        ensures inside { result.inside ≡ nat_lt 0 ((rows_of (length self.now.words.now) rows.now).remaining at) }
        ensures departs { Departs (O.Order.meaning self.now.order.now) self.now.words.now self.now.given.now rows.now at result.levels result.pc_level }
        ensures due { DueAlong (O.Order.meaning self.now.order.now) self.now.words.now self.now.given.now at result.levels result.inside result.pc_level }
    {
        let leveling = Leveling {
            routine: RoutineView::new(self.words, rows),
            order: self.order,
        };
        let row = u32::from(at);
        let deciding = leveling.deciding(at, self.instruction(at));
        Departure {
            at,
            levels: self.levels_after(rows, at),
            pc_level: self.order.join(leveling.routine.rows.region(row), deciding),
            inside: leveling.routine.rows.remaining(row) > 0,
        }
    }

    /// Raises a row to what a word leaves behind that leads there, lists the row if that changed it, and answers whether it did. An
    /// address past the finish row has no row.
    fn raise_along(
        &self,
        rows: &mut [u16],
        worklist: &mut Worklist,
        next: u32,
        departure: &Departure,
    ) -> bool
        requires between { Between (O.Order.meaning self.now.order.now) self.now.words.now self.now.given.now rows.old }
        requires leads { Leads (O.Order.meaning self.now.order.now) (avr self.now.words.now) (rows_of (length self.now.words.now) self.now.given.now) departure.now.at next }
        requires due { DueAlong (O.Order.meaning self.now.order.now) self.now.words.now self.now.given.now departure.now.at departure.now.levels departure.now.inside departure.now.pc_level }
        ensures between { Between (O.Order.meaning self.now.order.now) self.now.words.now self.now.given.now rows.new }
        ensures raises { RaisesListed (O.Order.meaning self.now.order.now) (O.rank_of self.now.order.now) (length self.now.words.now) rows.old rows.new worklist.old.blocks worklist.new.blocks result }
        ensures settled { next ≤ length self.now.words.now → SettledTo (O.Order.meaning self.now.order.now) self.now.words.now self.now.given.now rows.new departure.now.levels departure.now.inside departure.now.pc_level next }
    {
        if next > u32::from(self.len()) {
            return false;
        }
        let row = next as u16;
        let changed = self.raise_row(rows, row, departure);
        if changed {
            worklist.add(row);
        }
        changed
    }

    /// Whether the word at an address calls a function.
    #[tactic(auto, using(crate::proofs::Ways::calls_known, crate::proofs::Ways::calls_none))]
    fn calls(&self, caller: u16, function: u16) -> bool
        requires { caller < 1024 }
        ensures { result ≡ calls_to ((avr self.now.words.now).kind caller) function }
    {
        match self.callees[usize::from(caller)] {
            Some(callee) => callee == u32::from(function),
            None => false,
        }
    }

    /// Raises the row behind the word at an address, if that calls a function, to what a return of it leaves behind.
    fn raise_caller(
        &self,
        rows: &mut [u16],
        worklist: &mut Worklist,
        caller: u16,
        function: u16,
        departure: &Departure,
    ) -> bool
        requires between { Between (O.Order.meaning self.now.order.now) self.now.words.now self.now.given.now rows.old }
        requires caller { caller < length self.now.words.now }
        requires leads { (d : ℕ) → (avr self.now.words.now).kind caller ≡ calls function d → Leads (O.Order.meaning self.now.order.now) (avr self.now.words.now) (rows_of (length self.now.words.now) self.now.given.now) departure.now.at (caller + 1) }
        requires due { DueAlong (O.Order.meaning self.now.order.now) self.now.words.now self.now.given.now departure.now.at departure.now.levels departure.now.inside departure.now.pc_level }
        ensures between { Between (O.Order.meaning self.now.order.now) self.now.words.now self.now.given.now rows.new }
        ensures raises { RaisesListed (O.Order.meaning self.now.order.now) (O.rank_of self.now.order.now) (length self.now.words.now) rows.old rows.new worklist.old.blocks worklist.new.blocks result }
        ensures settled { (d : ℕ) → (avr self.now.words.now).kind caller ≡ calls function d → SettledTo (O.Order.meaning self.now.order.now) self.now.words.now self.now.given.now rows.new departure.now.levels departure.now.inside departure.now.pc_level (caller + 1) }
    {
        if self.calls(caller, function) {
            self.raise_along(rows, worklist, u32::from(caller) + 1, departure)
        } else {
            false
        }
    }

    /// Raises the rows behind all calls of a function to what a return of it leaves behind.
    fn raise_callers(
        &self,
        rows: &mut [u16],
        worklist: &mut Worklist,
        function: u16,
        departure: &Departure,
    ) -> bool
        requires between { Between (O.Order.meaning self.now.order.now) self.now.words.now self.now.given.now rows.old }
        requires leads { (k : ℕ) → k < length self.now.words.now → (d : ℕ) → (avr self.now.words.now).kind k ≡ calls function d → Leads (O.Order.meaning self.now.order.now) (avr self.now.words.now) (rows_of (length self.now.words.now) self.now.given.now) departure.now.at (k + 1) }
        requires due { DueAlong (O.Order.meaning self.now.order.now) self.now.words.now self.now.given.now departure.now.at departure.now.levels departure.now.inside departure.now.pc_level }
        ensures between { Between (O.Order.meaning self.now.order.now) self.now.words.now self.now.given.now rows.new }
        ensures raises { RaisesListed (O.Order.meaning self.now.order.now) (O.rank_of self.now.order.now) (length self.now.words.now) rows.old rows.new worklist.old.blocks worklist.new.blocks result }
        ensures settled { (k : ℕ) → k < length self.now.words.now → (d : ℕ) → (avr self.now.words.now).kind k ≡ calls function d → SettledTo (O.Order.meaning self.now.order.now) self.now.words.now self.now.given.now rows.new departure.now.levels departure.now.inside departure.now.pc_level (k + 1) }
    {
        let mut changed = false;
        for caller in 0..self.len() {
            changed |= self.raise_caller(rows, worklist, caller, function, departure);
        }
        changed
    }

    /// Raises the finish row, if a return is of function 0.
    fn raise_finish(
        &self,
        rows: &mut [u16],
        worklist: &mut Worklist,
        function: u16,
        departure: &Departure,
    ) -> bool
        requires between { Between (O.Order.meaning self.now.order.now) self.now.words.now self.now.given.now rows.old }
        requires leads { function ≡ 0 → Leads (O.Order.meaning self.now.order.now) (avr self.now.words.now) (rows_of (length self.now.words.now) self.now.given.now) departure.now.at (length self.now.words.now) }
        requires due { DueAlong (O.Order.meaning self.now.order.now) self.now.words.now self.now.given.now departure.now.at departure.now.levels departure.now.inside departure.now.pc_level }
        ensures between { Between (O.Order.meaning self.now.order.now) self.now.words.now self.now.given.now rows.new }
        ensures raises { RaisesListed (O.Order.meaning self.now.order.now) (O.rank_of self.now.order.now) (length self.now.words.now) rows.old rows.new worklist.old.blocks worklist.new.blocks result }
        ensures settled { function ≡ 0 → SettledTo (O.Order.meaning self.now.order.now) self.now.words.now self.now.given.now rows.new departure.now.levels departure.now.inside departure.now.pc_level (length self.now.words.now) }
    {
        if function == 0 {
            self.raise_along(rows, worklist, u32::from(self.len()), departure)
        } else {
            false
        }
    }

    /// Raises all rows to which the word at an address leads, lists those that are changed, and answers whether one was.
    fn raise_from(&self, rows: &mut [u16], worklist: &mut Worklist, at: u16) -> bool
        requires between { Between (O.Order.meaning self.now.order.now) self.now.words.now self.now.given.now rows.old }
        requires at { at < length self.now.words.now }
        ensures between { Between (O.Order.meaning self.now.order.now) self.now.words.now self.now.given.now rows.new }
        ensures raises { RaisesListed (O.Order.meaning self.now.order.now) (O.rank_of self.now.order.now) (length self.now.words.now) rows.old rows.new worklist.old.blocks worklist.new.blocks result }
        ensures settled { lists worklist.new.blocks at ≡ false → SettledFrom (O.Order.meaning self.now.order.now) self.now.words.now self.now.given.now rows.new at }
    {
        let departure = self.depart(rows, at);
        match self.instruction(at).route(at) {
            Route::To(next) | Route::Jump(next) | Route::Call(next) => self.raise_along(
                rows, worklist, next, &departure,
            ),
            Route::Fork(on, aside) => {
                let straight = self.raise_along(rows, worklist, on, &departure);
                let diverted = self.raise_along(rows, worklist, aside, &departure);
                straight | diverted
            }
            Route::Return => {
                let function = self.given_rows().function(u32::from(at));
                let callers = self.raise_callers(rows, worklist, function, &departure);
                let finish = self.raise_finish(rows, worklist, function, &departure);
                callers | finish
            }
        }
    }

    /// Takes a row from the list, raises along the ways of its word, and answers whether that changed a row. The finish row has no word.
    fn take(&self, rows: &mut [u16], worklist: &mut Worklist, row: u16) -> bool
        requires between { Between (O.Order.meaning self.now.order.now) self.now.words.now self.now.given.now rows.old }
        requires clean { Clean (O.Order.meaning self.now.order.now) self.now.words.now self.now.given.now rows.old worklist.old.blocks }
        requires row { row < 1088 }
        ensures between { Between (O.Order.meaning self.now.order.now) self.now.words.now self.now.given.now rows.new }
        ensures clean { Clean (O.Order.meaning self.now.order.now) self.now.words.now self.now.given.now rows.new worklist.new.blocks }
        ensures raised { Raised (O.rank_of self.now.order.now) rows.old rows.new result }
        ensures taken { result ≡ false → (other : ℕ) → lists worklist.new.blocks other ≡ (not (other == row) && lists worklist.old.blocks other) }
    {
        worklist.remove(row);
        if row < self.len() {
            self.raise_from(rows, worklist, row)
        } else {
            false
        }
    }

    /// Takes each listed row in the order of their addresses, those too that are listed before their turn, and answers whether that
    /// changed a row.
    fn sweep(&self, rows: &mut [u16], worklist: &mut Worklist) -> bool
        requires between { Between (O.Order.meaning self.now.order.now) self.now.words.now self.now.given.now rows.old }
        requires clean { Clean (O.Order.meaning self.now.order.now) self.now.words.now self.now.given.now rows.old worklist.old.blocks }
        ensures between { Between (O.Order.meaning self.now.order.now) self.now.words.now self.now.given.now rows.new }
        ensures clean { Clean (O.Order.meaning self.now.order.now) self.now.words.now self.now.given.now rows.new worklist.new.blocks }
        ensures raised { Raised (O.rank_of self.now.order.now) rows.old rows.new result }
        ensures none { result ≡ false → (row : ℕ) → lists worklist.new.blocks row ≡ false }
    {
        let mut changed = false;
        let mut from = 0;
        while let Some(row) = worklist.next(from) {
            changed |= self.take(rows, worklist, row);
            from = row + 1;
        }
        changed
    }

    /// Raises until nothing is left to raise.
    pub(crate) fn settle(&self, rows: &mut [u16])
        requires between { Between (O.Order.meaning self.now.order.now) self.now.words.now self.now.given.now rows.old }
        requires first { FirstAlone (length self.now.words.now) rows.old }
        ensures between { Between (O.Order.meaning self.now.order.now) self.now.words.now self.now.given.now rows.new }
        ensures settled { Settled (O.Order.meaning self.now.order.now) (avr self.now.words.now) (rows_of (length self.now.words.now) rows.new) }
    {
        // Where all levels are 0, there is nothing to raise.
        let mut worklist = Worklist::of_first();
        while self.sweep(rows, &mut worklist) {}
    }
}
