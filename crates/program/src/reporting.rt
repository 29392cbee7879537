//! What the program prints of rows that are made, and of the largest remaining number.
ghost use Rattle.std.specs.Prelude.{◌≡◌};
ghost use Rattle.program.specs.Makings.{current};

use crate::judging::{Lines, judge_by};
use crate::makings::Making;
use crate::rows::NamedRows;
use crate::working::{Job, Sets};
use explanations::{Refusal, RowLabel};
use filling::fault::FillingFault;
use filling::filling::{read, settle_levels};
use judge::faults::{JudgeFault, RowFault};
use pooling::fault::{CountFault, PoolFault};
use pooling::largest_remaining;
use row_layout::{RoutineView, RowsView};
use std::alloc::{AllocError, Global};
use std::io;

/// Given rows as filling in reads them: what is not read is 0.
fn as_read(heap: Global, rows: &[u16]) -> Result<Vec<u16>, AllocError> {
    let mut seen = Vec::new(heap);
    for (index, number) in rows.iter().enumerate() {
        seen.push(read(index, *number))?;
    }
    Ok(seen)
}

impl<'r, 'o> Job<'r, 'o> {
    /// The same with the rows that were made, if any were.
    pub(crate) fn with_made(self, making: &'r Making, sets: Sets) -> Job<'r, 'o>
        ensures { result.rows.now ≡ current making.entry.now self.entry.rows.now }
    {
        match making {
            Making::Rows(rows, _) => Job {
                rows: rows.as_slice(),
                sets,
                ..self
            },
            Making::Unasked | Making::Orderless | Making::Unfilled(_) | Making::Unpooled(_) => self,
        }
    }

    /// Prints what comes of judging the rows that were made, which are those of the job; it is about what stands on these lines.
    pub(crate) fn print_made_verdict(
        self,
        rt: &HostRuntime,
        making: &Making,
        lines: Lines,
    ) -> io::Result<()> {
        match making {
            Making::Unfilled(_) => println!(rt;
                "judge: no verdict, since no levels were filled in"
            ),
            Making::Unpooled(_) => println!(rt; "judge: no verdict, since nothing was pooled"),
            Making::Rows(_, _) | Making::Unasked | Making::Orderless => {
                self.print_verdict(rt, making.judged(), lines)
            }
        }
    }

    /// Prints rows as a routine file writes them.
    fn print_rows(self, rt: &HostRuntime, rows: &[u16]) -> io::Result<()> {
        let rows = NamedRows::new(self.routine.words.as_slice(), rows);
        println!(rt; "{rows}")
    }

    /// Prints what came of filling in: the rows, as a routine file writes them, or why there are none.
    pub(crate) fn print_filling(self, rt: &HostRuntime, making: &Making) -> io::Result<()> {
        match making {
            Making::Rows(rows, _) => {
                println!(rt; "fill: filled in")?;
                self.print_rows(rt, rows.as_slice())
            }
            Making::Unfilled(FillingFault::Words(fault)) => {
                self.print_unread(rt, JudgeFault::Words(*fault))
            }
            Making::Unfilled(FillingFault::Rows(fault)) => {
                self.print_unread(rt, JudgeFault::Rows(*fault))
            }
            Making::Unfilled(FillingFault::Unfillable) => self.print_unfillable(rt),
            Making::Unasked | Making::Orderless | Making::Unpooled(_) => println!(rt;
                "fill: not filled in, since the order is refused"
            ),
        }
    }

    /// Prints what is wrong with what is given to be filled in, as it is read.
    fn print_unread(self, rt: &HostRuntime, fault: JudgeFault) -> io::Result<()> {
        let seen = as_read(rt.alloc(), self.routine.rows.numbers.as_slice())?;
        let routine = RoutineView::new(self.routine.words.as_slice(), seen.as_slice());
        let refusal = Refusal { fault, routine };
        println!(rt; "fill: {refusal}")?;
        self.print_lines(rt, &refusal)
    }

    /// Prints that no accepted rows have what is given, and which rule the least levels break.
    fn print_unfillable(self, rt: &HostRuntime) -> io::Result<()> {
        let number = FillingFault::Unfillable.number();
        println!(rt;
            "fill: refused {number}: no accepted rows have the given join, remaining and function, and a first row at or above the given one"
        )?;
        let Some(order) = self.order else {
            return Ok(());
        };
        let words = self.routine.words.as_slice();
        let given = self.routine.rows.numbers.as_slice();
        let mut rows = vec![in rt.alloc(); 0u16; given.len()]?;
        if settle_levels(words, given, order, rows.as_mut_slice()).is_err() {
            return Ok(());
        }
        let Err(fault) = judge_by(words, rows.as_slice(), order) else {
            return Ok(());
        };
        let routine = RoutineView::new(words, rows.as_slice());
        let refusal = Refusal { fault, routine };
        println!(rt; "  the least levels are {refusal}")?;
        self.print_lines(rt, &refusal)
    }

    /// Prints what came of pooling: the rows, as a routine file writes them, or why there are none.
    pub(crate) fn print_pooling(self, rt: &HostRuntime, making: &Making) -> io::Result<()> {
        match making {
            Making::Rows(rows, _) => {
                println!(rt; "pool: pooled")?;
                self.print_rows(rt, rows.as_slice())
            }
            Making::Unpooled(fault) => self.print_unpooled(rt, *fault),
            Making::Unasked | Making::Orderless | Making::Unfilled(_) => println!(rt;
                "pool: not pooled, since the order is refused"
            ),
        }
    }

    /// Prints why two sets are not pooled.
    fn print_unpooled(self, rt: &HostRuntime, fault: PoolFault) -> io::Result<()> {
        let number = fault.number();
        let first = self.routine.rows.numbers.as_slice();
        match fault {
            PoolFault::Words(fault) => {
                self.print_set_refusal(rt, "pool:", JudgeFault::Words(fault), first)
            }
            // Not met, since there is room for all rows.
            PoolFault::Receiving => println!(rt; "pool: refused {number}"),
            PoolFault::First(fault) => {
                self.print_set_refusal(rt, "pool: the first set is", JudgeFault::Rows(fault), first)
            }
            PoolFault::Second(fault) => {
                let job = Job {
                    sets: Sets::Second,
                    ..self
                };
                let fault = JudgeFault::Rows(fault);
                job.print_set_refusal(rt, "pool: the second set is", fault, self.second())
            }
            PoolFault::Differ { row } => self.print_difference(rt, number, row),
        }
    }

    /// Prints a refusal of one set of rows, behind what it is of.
    fn print_set_refusal(
        self,
        rt: &HostRuntime,
        whose: &str,
        fault: JudgeFault,
        rows: &[u16],
    ) -> io::Result<()> {
        let routine = RoutineView::new(self.routine.words.as_slice(), rows);
        let refusal = Refusal { fault, routine };
        println!(rt; "{whose} {refusal}")?;
        self.print_lines(rt, &refusal)
    }

    /// Prints in which row two sets differ, and what they say there.
    fn print_difference(self, rt: &HostRuntime, number: u8, row: u16) -> io::Result<()> {
        let words = self.routine.words.len();
        let row = u32::from(row);
        let label = RowLabel::new(row, words);
        println!(rt;
            "pool: refused {number} at row {row}: the sets differ in join, remaining or function of {label}"
        )?;
        self.print_given(rt, "first", self.routine.rows.numbers.as_slice(), row)?;
        self.print_given(rt, "second", self.second(), row)?;
        println!(rt; "  change {label} in one of the sets, so that both say the same")?;
        let job = Job {
            sets: Sets::Both,
            ..self
        };
        job.print_row_lines(rt, row)
    }

    /// Prints the given columns of a row of one set.
    fn print_given(self, rt: &HostRuntime, set: &str, rows: &[u16], row: u32) -> io::Result<()> {
        let rows = RowsView {
            rows,
            words: self.routine.words.len(),
        };
        let join = rows.join_address(row);
        let remaining = rows.remaining(row);
        let function = rows.function(row);
        println!(rt; "  the {set} set says join={join} remaining={remaining} function={function}")
    }

    /// Prints the largest remaining number of the rows that hold now.
    pub(crate) fn print_remaining(self, rt: &HostRuntime) -> io::Result<()> {
        let words = self.routine.words.as_slice();
        match largest_remaining(words, self.rows) {
            Ok(most) => println!(rt; "remaining: {most}"),
            Err(CountFault::Words(fault)) => {
                self.print_set_refusal(rt, "remaining:", JudgeFault::Words(fault), self.rows)
            }
            Err(CountFault::Count) => {
                let fault = JudgeFault::Rows(RowFault::Count);
                self.print_set_refusal(rt, "remaining:", fault, self.rows)
            }
        }
    }
}
