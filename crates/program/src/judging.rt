//! What comes of judging a routine.
ghost use Rattle.std.specs.Prelude.{◌≡◌};
ghost use Rattle.std.specs.List.{list_any};
ghost use Rattle.std.specs.Option.{option_map};
ghost use Rattle.verdicts.specs.Verdict.{says};
ghost use Rattle.judge.specs.Faults.{judge_refusal};
ghost use Rattle.judge.specs.Judgement.{judgement_of};
ghost use Rattle.levels.specs.Pairs.{pair};
ghost use Rattle.orders.specs.Simples.{meaning_of};
ghost use Rattle.orders.specs.Making.{made_meaning};
ghost use Rattle.routine.specs.Routines.{draft_of};
ghost use Rattle.program.specs.Standings.{judges, JudgedOf};

use crate::makings::before_making;
use crate::working::Job;
use explanations::{ColumnName, Refusal, RowLabel};
use judge::faults::JudgeFault;
use judge::judge;
use levels::order::Order;
use levels::pair::Pair;
use orders::making::Made;
use orders::simple::Simple;
use routine::Step;
use row_layout::RoutineView;
use std::io;

/// What comes of judging a routine.
#[derive(Clone, Copy)]
pub(crate) enum Judged {
    /// No step asks for a judgement.
    Unasked,
    /// There is no order to judge by.
    Orderless,
    /// It is refused.
    Refused(JudgeFault),
    /// It is accepted.
    Accepted,
}

/// The line of a file on which a word stands.
#[derive(Clone, Copy)]
struct WordLine {
    at: u16,
    line: usize,
}

/// The lines of a file on which a row stands last, in the first set of rows and in the second; none where no line is about it, or where
/// the set is not asked about.
#[derive(Clone, Copy)]
struct RowLines {
    row: u32,
    first: Option<usize>,
    second: Option<usize>,
}

/// The lines that a verdict is about: of a word, of a row, and of the row of the next word.
// To look them up takes the longer the more lines the file has. So a verdict that is printed often has them looked up once.
#[derive(Clone, Copy, Default)]
pub(crate) struct Lines {
    word: Option<WordLine>,
    row: Option<RowLines>,
    next: Option<RowLines>,
}

impl Job<'_, '_> {
    /// Judges the rows that are given, if a step asks for it before any that makes rows.
    pub(crate) fn judge(self) -> Judged
        ensures { JudgedOf (option_map (λ o. made_meaning o.now) self.entry.order) (draft_of self.entry.routine.now) result }
    {
        if !asks(before_making(self.routine.steps.as_slice())) {
            return Judged::Unasked;
        }
        let Some(order) = self.order else {
            return Judged::Orderless;
        };
        let words = self.routine.words.as_slice();
        let rows = self.routine.rows.numbers.as_slice();
        match judge_by(words, rows, order) {
            Ok(()) => Judged::Accepted,
            Err(fault) => Judged::Refused(fault),
        }
    }

    /// Prints what came of judging the rows of the job, which is about what stands on these lines.
    pub(crate) fn print_verdict(
        self,
        rt: &HostRuntime,
        judged: Judged,
        lines: Lines,
    ) -> io::Result<()> {
        match judged {
            Judged::Accepted => println!(rt; "judge: accepted"),
            Judged::Refused(fault) => {
                let refusal = self.refusal(fault);
                println!(rt; "judge: {refusal}")?;
                self.print_need(rt, &refusal)?;
                self.print_found(rt, lines)
            }
            Judged::Unasked | Judged::Orderless => println!(rt;
                "judge: no verdict, since the order is refused"
            ),
        }
    }
}

impl<'r> Job<'r, '_> {
    /// A refusal of the rows of the job.
    fn refusal(self, fault: JudgeFault) -> Refusal<'r> {
        let routine = RoutineView::new(self.routine.words.as_slice(), self.rows);
        Refusal { fault, routine }
    }

    /// Prints a level that would do where a level does not flow on.
    fn print_need(self, rt: &HostRuntime, refusal: &Refusal<'_>) -> io::Result<()> {
        let Some(need) = self.order.and_then(|order| refusal.need(order)) else {
            return Ok(());
        };
        let label = refusal.label(need.row);
        let column = ColumnName(need.column);
        let level = need.level;
        println!(rt; "  {column}={level} in {label} is enough for this way")
    }

    /// On which lines of the file the word and the rows stand that a verdict on the rows of the job is about.
    pub(crate) fn lines_of(self, judged: Judged) -> Lines {
        match judged {
            Judged::Refused(fault) => self.lines_about(&self.refusal(fault)),
            Judged::Accepted | Judged::Unasked | Judged::Orderless => Lines::default(),
        }
    }

    /// On which lines of the file the word and the rows stand that a refusal is about.
    fn lines_about(self, refusal: &Refusal<'_>) -> Lines {
        let row = refusal.row();
        let next = refusal.next_row().filter(|next| row != Some(*next));
        Lines {
            word: refusal.word().and_then(|at| self.word_line(at)),
            row: row.map(|row| self.row_lines(row)),
            next: next.map(|row| self.row_lines(row)),
        }
    }

    /// On which line of the file a word stands, if it does.
    fn word_line(self, at: u16) -> Option<WordLine> {
        let line = self.routine.word_line(at)?;
        Some(WordLine { at, line })
    }

    /// On which lines of the file a row stands, in the sets that the rows of the job are of.
    fn row_lines(self, row: u32) -> RowLines {
        let Job { routine, sets, .. } = self;
        RowLines {
            row,
            first: if sets.has_first() {
                routine.row_line(row)
            } else {
                None
            },
            second: if sets.has_second() {
                routine.second_row_line(row)
            } else {
                None
            },
        }
    }

    /// Prints on which lines of the file the word and the rows stand that a refusal is about.
    pub(crate) fn print_lines(self, rt: &HostRuntime, refusal: &Refusal<'_>) -> io::Result<()> {
        self.print_found(rt, self.lines_about(refusal))
    }

    /// Prints lines that were looked up.
    fn print_found(self, rt: &HostRuntime, lines: Lines) -> io::Result<()> {
        if let Some(WordLine { at, line }) = lines.word {
            println!(rt; "  line {line} has the word at {at}")?;
        }
        if let Some(row) = lines.row {
            self.print_found_row(rt, row)?;
        }
        if let Some(row) = lines.next {
            self.print_found_row(rt, row)?;
        }
        Ok(())
    }

    /// Prints on which lines of the file a row stands, in the sets that the rows of the job are of.
    pub(crate) fn print_row_lines(self, rt: &HostRuntime, row: u32) -> io::Result<()> {
        self.print_found_row(rt, self.row_lines(row))
    }

    /// Prints lines of a row that were looked up, in the sets that the rows of the job are of.
    fn print_found_row(self, rt: &HostRuntime, lines: RowLines) -> io::Result<()> {
        let label = RowLabel::new(lines.row, self.routine.words.len());
        if self.sets.has_first() {
            match lines.first {
                Some(line) => println!(rt; "  line {line} has {label}")?,
                None => println!(rt; "  no line has {label}, so what is given there is 0")?,
            }
        }
        if self.sets.has_second() {
            match lines.second {
                Some(line) => println!(rt; "  line {line} has {label} of the second set")?,
                None => println!(rt;
                    "  no line has {label} of the second set, so what is given there is 0"
                )?,
            }
        }
        Ok(())
    }
}

/// Whether one of some steps asks for a judgement.
pub(crate) fn asks(steps: &[Step]) -> bool
    ensures { result ≡ list_any judges steps.now }
{
    steps.iter().any(|step| is_judge(*step))
}

/// Whether a step asks for a judgement.
fn is_judge(step: Step) -> bool
    ensures { result ≡ judges step }
{
    matches!(step, Step::Judge)
}

/// Judges words and rows by an order that was made.
// The kind of the order is asked here once, and not for each level.
pub(crate) fn judge_by(words: &[u16], rows: &[u16], order: &Made) -> Result<(), JudgeFault>
    ensures { says judge_refusal result ≡ judgement_of (made_meaning order.now) words.now rows.now }
{
    match order {
        Made::Simple(Simple::Chain(order)) => judge(words, rows, order),
        Made::Simple(Simple::Compartments(order)) => judge(words, rows, order),
        Made::Simple(Simple::Table(order)) => judge(words, rows, order),
        Made::Pair(order) => judge_by_pair(words, rows, &order.first, &order.second),
    }
}

/// Judges words and rows by a pair of two orders of a simple kind.
fn judge_by_pair(
    words: &[u16],
    rows: &[u16],
    first: &Simple,
    second: &Simple,
) -> Result<(), JudgeFault>
    ensures { says judge_refusal result ≡ judgement_of (pair (meaning_of first.now) (meaning_of second.now)) words.now rows.now }
{
    match first {
        Simple::Chain(first) => judge_by_first(words, rows, first, second),
        Simple::Compartments(first) => judge_by_first(words, rows, first, second),
        Simple::Table(first) => judge_by_first(words, rows, first, second),
    }
}

/// Judges words and rows by a pair of an order and one of a simple kind.
fn judge_by_first<O: Order>(
    words: &[u16],
    rows: &[u16],
    first: &O,
    second: &Simple,
) -> Result<(), JudgeFault>
    ensures { says judge_refusal result ≡ judgement_of (pair (O.Order.meaning first.now) (meaning_of second.now)) words.now rows.now }
{
    match second {
        Simple::Chain(second) => judge(words, rows, &Pair { first, second }),
        Simple::Compartments(second) => judge(words, rows, &Pair { first, second }),
        Simple::Table(second) => judge(words, rows, &Pair { first, second }),
    }
}
