//! The texts of refusals.
ghost use Rattle.std.specs.Prelude.{◌≡◌, length};

use crate::choices::{Astray, ShapePart};
use crate::refusal::Refusal;
use avr::table::{comes_from, deciders};
use judge::faults::{FlowFault, JudgeFault, RowFault};
use notation::Assembly;
use row_layout::{COLUMNS, Column, REGION};
use std::fmt;
use words::fault::WordFault;
use words::route::Route;

/// Where the next thought of an explanation begins: a line of its own, behind two blanks.
const NEXT: &str = "\n  ";

/// The name of the column that stands at an index of its row.
#[derive(Clone, Copy)]
pub struct ColumnName(pub u16);

impl fmt::Display for ColumnName {
    fn fmt<W: fmt::Write>(&self, f: &mut fmt::Formatter<W>) -> fmt::Result {
        match Column::from_index(self.0) {
            Some(column) => write!(f, "{column}"),
            None => f.write_str("no column"),
        }
    }
}

/// A row of a routine by its number, as text; the one behind those of all `len` words is the finish row.
#[derive(Clone, Copy)]
pub struct RowLabel {
    row: u32,
    len: usize,
}

impl RowLabel {
    /// The row of a number, in a routine of `len` words.
    pub fn new(row: u32, len: usize) -> RowLabel
        ensures { (result.row ≡ row) × (result.len ≡ len) }
    {
        RowLabel { row, len }
    }
}

impl fmt::Display for RowLabel {
    fn fmt<W: fmt::Write>(&self, f: &mut fmt::Formatter<W>) -> fmt::Result {
        let row = self.row;
        if row as usize == self.len {
            f.write_str("row finish")
        } else {
            write!(f, "row {row}")
        }
    }
}

impl fmt::Display for Refusal<'_> {
    fn fmt<W: fmt::Write>(&self, f: &mut fmt::Formatter<W>) -> fmt::Result {
        let number = self.fault.number();
        write!(f, "refused {number}")?;
        match self.fault {
            JudgeFault::Words(fault) => self.explain_words(f, fault),
            JudgeFault::Rows(fault) => self.explain_rows(f, fault),
            JudgeFault::Flow(fault) => self.explain_flow(f, fault),
        }
    }
}

impl Refusal<'_> {
    /// A row by its number, as text.
    pub fn label(&self, row: u32) -> RowLabel
        ensures { (result.row ≡ row) × (result.len ≡ length self.now.routine.words.now) }
    {
        RowLabel::new(row, self.routine.words.len())
    }

    /// What is wrong with the words.
    // Keep the text on the length equal to that of the program, where it lists a routine.
    fn explain_words<W: fmt::Write>(
        &self,
        f: &mut fmt::Formatter<W>,
        fault: WordFault,
    ) -> fmt::Result {
        match fault {
            WordFault::Length => {
                let len = self.routine.words.len();
                write!(f, ": a routine has 1 to 1024 words, and this one has {len}")
            }
            WordFault::Undecodable(at) => write!(
                f,
                " at {at}: the word there is no instruction that a routine may hold"
            ),
        }
    }

    /// What is wrong with the rows.
    fn explain_rows<W: fmt::Write>(
        &self,
        f: &mut fmt::Formatter<W>,
        fault: RowFault,
    ) -> fmt::Result {
        match fault {
            RowFault::Count => {
                let count = self.routine.rows.rows.len();
                let words = self.routine.words.len();
                write!(
                    f,
                    ": the rows have {count} numbers; {words} words need {COLUMNS} for each word and {COLUMNS} for the finish row"
                )
            }
            RowFault::NotHeld { row, column } => {
                let label = self.label(u32::from(row));
                let name = ColumnName(column);
                let code = self.routine.rows.cell(u32::from(row), column);
                write!(
                    f,
                    " at row {row}, column {column}: {label} says {name}={code}, and the order holds no code {code}"
                )?;
                write!(f, "{NEXT}write one that it holds")
            }
            RowFault::Shape { row } => {
                write!(f, " at row {row}: ")?;
                self.explain_shape(f, row)
            }
        }
    }

    /// What is wrong with the shape of a row.
    fn explain_shape<W: fmt::Write>(&self, f: &mut fmt::Formatter<W>, at: u16) -> fmt::Result {
        let row = u32::from(at);
        let len = self.routine.words.len();
        let join = self.join(row);
        let function = self.routine.rows.function(row);
        match self.broken_part(at) {
            ShapePart::Finish => f.write_str(
                "it is the finish row, whose region, join, remaining and function must be 0",
            ),
            ShapePart::Outside => {
                f.write_str("remaining is 0, so region and join must be 0 too")?;
                write!(f, "{NEXT}or write the remaining cycles of the region")
            }
            ShapePart::Join => write!(
                f,
                "join is {join}, and must be the address of one of the {len} words"
            ),
            ShapePart::Function => write!(
                f,
                "function is {function}, and must be the address of one of the {len} words"
            ),
            ShapePart::Beginning => write!(f, "function is {function}, and must be 0 in row 0"),
        }
    }

    /// What is wrong with where a word leads, or with levels along the way.
    fn explain_flow<W: fmt::Write>(
        &self,
        f: &mut fmt::Formatter<W>,
        fault: FlowFault,
    ) -> fmt::Result {
        match fault {
            FlowFault::Inside { at } => self.explain_inside(f, at),
            FlowFault::Bounds { at } => self.explain_bounds(f, at),
            FlowFault::Deciding { at } => self.explain_deciding(f, at),
            FlowFault::Time { at, next } => self.explain_time(f, at, next),
            FlowFault::Level { at, next, place } => self.explain_level(f, at, next, place),
        }
    }

    /// A call or a return inside a region.
    fn explain_inside<W: fmt::Write>(&self, f: &mut fmt::Formatter<W>, at: u16) -> fmt::Result {
        let word = Assembly(self.routine.instruction(at));
        let remaining = self.routine.rows.remaining(u32::from(at));
        write!(
            f,
            " at {at}: {word} stands inside a region, since row {at} has remaining={remaining}"
        )?;
        write!(
            f,
            "{NEXT}a call or a return must stand outside, so end the region before it"
        )
    }

    /// A word that leads out of the listing or of its function.
    fn explain_bounds<W: fmt::Write>(&self, f: &mut fmt::Formatter<W>, at: u16) -> fmt::Result {
        let word = Assembly(self.routine.instruction(at));
        let len = self.routine.words.len();
        let own = self.routine.rows.function(u32::from(at));
        match self.astray(at) {
            Astray::Outside(to) => {
                // An address before the first word is written as what is left of it in 32 bits, which says nothing.
                if to > u32::from(u16::MAX) {
                    write!(f, " at {at}: {word} leads out of the {len} words")?;
                } else {
                    write!(f, " at {at}: {word} leads to {to}, out of the {len} words")?;
                }
                write!(f, "{NEXT}end each function with ret")
            }
            Astray::OtherFunction(to) => {
                let other = self.routine.rows.function(to);
                write!(
                    f,
                    " at {at}: {word} leads to {to}, whose row says function={other}, and row {at} says function={own}"
                )?;
                write!(
                    f,
                    "{NEXT}give all rows of a function the address of its first word"
                )
            }
            Astray::NotFirst(into) => {
                let other = self.routine.rows.function(into);
                write!(
                    f,
                    " at {at}: {word} calls {into}, whose row says function={other}"
                )?;
                write!(
                    f,
                    "{NEXT}what is called is the first word of its function: row {into} should say function={into}"
                )
            }
        }
    }

    /// A decision by a secret, outside every region.
    fn explain_deciding<W: fmt::Write>(&self, f: &mut fmt::Formatter<W>, at: u16) -> fmt::Result {
        let instruction = self.routine.instruction(at);
        let word = Assembly(instruction);
        let row = u32::from(at);
        let decided_by = deciders(instruction);
        write!(f, " at {at}: {word} decides by ")?;
        self.write_levels(f, row, decided_by.as_slice())?;
        write!(f, " in row {at}, which is outside every region")?;
        write!(
            f,
            "{NEXT}give row {at} join, where both arms come together, and remaining, the cycles until then"
        )?;
        write!(
            f,
            "{NEXT}give the rows of both arms that join, what remains there, and a region to which "
        )?;
        self.write_levels(f, row, decided_by.as_slice())?;
        write!(f, " may flow{NEXT}or decide by what is public")
    }

    /// Some places of a row with their levels.
    fn write_levels<W: fmt::Write>(
        &self,
        f: &mut fmt::Formatter<W>,
        row: u32,
        places: &[u16],
    ) -> fmt::Result {
        match places {
            [] => f.write_str("nothing"),
            [first, others @ ..] => {
                self.write_level(f, row, *first)?;
                self.write_further(f, row, others)
            }
        }
    }

    /// Further places of a row with their levels.
    fn write_further<W: fmt::Write>(
        &self,
        f: &mut fmt::Formatter<W>,
        row: u32,
        places: &[u16],
    ) -> fmt::Result {
        for place in places {
            f.write_str(" and ")?;
            self.write_level(f, row, *place)?;
        }
        Ok(())
    }

    /// A number of a row, as routine files write it.
    fn write_level<W: fmt::Write>(
        &self,
        f: &mut fmt::Formatter<W>,
        row: u32,
        column: u16,
    ) -> fmt::Result {
        let name = ColumnName(column);
        let level = self.routine.rows.cell(row, column);
        write!(f, "{name}={level}")
    }

    /// A way that does not keep time.
    fn explain_time<W: fmt::Write>(
        &self,
        f: &mut fmt::Formatter<W>,
        at: u16,
        next: u32,
    ) -> fmt::Result {
        let word = Assembly(self.routine.instruction(at));
        let row = u32::from(at);
        let cycles = self.cycles(at, next);
        let label = self.label(next);
        let join = self.join(row);
        let left = self.routine.rows.remaining(row);
        let next_join = self.join(next);
        let next_left = self.routine.rows.remaining(next);
        write!(
            f,
            " at {at}, next {next}: {word} is not in time on its way to {next}, which takes {cycles}"
        )?;
        write!(
            f,
            "{NEXT}row {at} says join={join} remaining={left}, and {label} says join={next_join} remaining={next_left}"
        )?;
        self.write_hint(f, at, next)?;
        write!(f, "{NEXT}all ways to the join address must be equally long")
    }

    /// What a row should say so that a way is in time.
    fn write_hint<W: fmt::Write>(
        &self,
        f: &mut fmt::Formatter<W>,
        at: u16,
        next: u32,
    ) -> fmt::Result {
        let Some(hint) = self.hint() else {
            return write!(
                f,
                "{NEXT}a word that leads to itself cannot stand inside a region"
            );
        };
        let label = self.label(hint.row);
        let join = hint.join;
        let remaining = hint.remaining;
        if hint.row != next {
            return write!(
                f,
                "{NEXT}{label} should say join={join} remaining={remaining}"
            );
        }
        if self.routine.rows.remaining(next) == 0 {
            return write!(
                f,
                "{NEXT}{label} lacks its region: it should say join={join} remaining={remaining}, and a region level"
            );
        }
        let due_join = self.due_join(next);
        let due_cycles = self.due_cycles(at, next);
        write!(
            f,
            "{NEXT}{label} should say join={join} remaining={remaining}, if row {at} is right"
        )?;
        write!(
            f,
            "{NEXT}row {at} should say join={due_join} remaining={due_cycles}, if {label} is right"
        )
    }

    /// A level that does not flow on.
    fn explain_level<W: fmt::Write>(
        &self,
        f: &mut fmt::Formatter<W>,
        at: u16,
        next: u32,
        place: u16,
    ) -> fmt::Result {
        let instruction = self.routine.instruction(at);
        let word = Assembly(instruction);
        let row = u32::from(at);
        let label = self.label(next);
        let name = ColumnName(place);
        let level = self.routine.rows.cell(next, place);
        let region = self.routine.rows.region(row);
        write!(f, " at {at}, next {next}, place {place}: ")?;
        if place == REGION {
            write!(
                f,
                "that {word} leads to {next} is more secret than region={level}, as {label} has it"
            )?;
            write!(f, "{NEXT}it is told by region={region}")?;
            self.write_further(f, row, deciders(instruction).as_slice())?;
            return write!(
                f,
                " of row {at}{NEXT}raise region in {label} to a level to which each of these may flow"
            );
        }
        write!(
            f,
            "after {word} the level of {name} may not flow to {level}, as {label} has it{NEXT}"
        )?;
        match comes_from(instruction, place) {
            Some(sources) => {
                let sources = sources.as_slice();
                let only = if sources.is_empty() {
                    "nothing but "
                } else {
                    ""
                };
                write!(f, "{name} comes from {only}region={region}")?;
                self.write_further(f, row, sources)?;
            }
            None => {
                write!(f, "{word} leaves {name} alone, which has ")?;
                self.write_level(f, row, place)?;
            }
        }
        write!(
            f,
            " of row {at}{NEXT}raise {name} in {label} to a level to which each of these may flow, or keep {name} clear of secrets"
        )?;
        if matches!(instruction.route(at), Route::Return) {
            let function = self.routine.rows.function(row);
            write!(
                f,
                "{NEXT}row {at} serves all callers of function {function}: the row behind each call must have what it has"
            )?;
        }
        Ok(())
    }
}
