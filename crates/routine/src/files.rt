//! Whole routine files.
ghost use Rattle.std.specs.Prelude.{◌≡◌, ◌≤◌, length, Ok, MatchResult};
ghost use Rattle.routine.specs.declared.faults.Fault.TheVariants as fault;
ghost use Rattle.text.specs.Lines.{line_left, lines_of};
ghost use Rattle.routine.specs.Routines.{draft_of};
ghost use Rattle.routine.specs.Files.{after_line, routine_of};
ghost use Rattle.routine.specs.Answers.{Blames, Makes, ReadsLines};

use crate::faults::{Expected, Fault, FileFault, Found, Malformed};
use crate::routines::Routine;
use crate::statements::read_statement;
use std::alloc::Global;
use text::{Line, Lines, is_text};

/// The routine of a file, or the first line that is malformed. Bytes that are not text are found before all else.
pub fn read(heap: Global, file: &[u8]) -> Result<Routine, FileFault>
    ensures { MatchResult result (λ routine. routine_of file.now ≡ Ok (draft_of routine)) (λ f. Blames (λ m. (f.line, m)) f.fault (routine_of file.now)) }
{
    is_text(file).map_err(|bad| malformed(bad.line, Expected::Text, Found::Byte(bad.byte)))?;
    let mut routine = Routine::new(heap);
    read_lines(heap, file, &mut routine)?;
    if routine.words.is_empty() {
        return Err(malformed(count_lines(file) + 1, Expected::Words, Found::EndOfFile));
    }
    Ok(routine)
}

/// How many lines a file has.
fn count_lines(file: &[u8]) -> usize
    ensures value { result ≡ length (lines_of file.now) }
    ensures within { result ≤ length file.now }
{
    Lines::new(file).count()
}

/// Reads each line of a file.
fn read_lines(heap: Global, file: &[u8], routine: &mut Routine) -> Result<(), FileFault>
    ensures { ReadsLines result routine.old routine.new file.now }
{
    for (before, line) in Lines::new(file).enumerate() {
        let number = before + 1;
        read_line(heap, number, line, routine).map_err(|fault| FileFault {
            line: number,
            fault,
        })?;
    }
    Ok(())
}

/// Reads the line of a number.
fn read_line(
    heap: Global,
    number: usize,
    line: Line<'_>,
    routine: &mut Routine,
) -> Result<(), Fault>
    ensures { Makes draft_of result routine.old routine.new (λ d. after_line number d (line_left line.entry)) }
{
    match read_statement(heap, line)? {
        Some(statement) => routine.accept(heap, number, statement),
        None => Ok(()),
    }
}

/// What is wrong at a line.
fn malformed(line: usize, expected: Expected, found: Found) -> FileFault
    ensures { (result.line ≡ line) × (result.fault ≡ fault.Malformed (record { expected = expected; found = found })) }
{
    FileFault {
        line,
        fault: Fault::Malformed(Malformed { expected, found }),
    }
}
