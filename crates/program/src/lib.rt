//! The program `dulkyamo`: carries out routine files and prints what it carried out, an answer a line.
//!
//! It stands on the libraries for everything that decides: `routine` reads, `judge` judges, `couples` works the boards, `explanations`
//! explains. Each function is proved to be safe and to end; `judge_by`, `carry_out` and `finish` say more in their contracts, as that
//! the exit status is that of how all files came out. What is printed is tested by the runs in the gate, and not proved. It is a library,
//! so that several programs of the gate can end with a status each.
#![tactic(auto)]

mod calls;
mod hiding;
mod joining;
mod judging;
mod makings;
mod naming;
mod options;
mod reporting;
mod rows;
mod showing;
mod standing;
mod tasks;
mod working;

ghost use Rattle.std.specs.Prelude.{◌≡◌, ◌<◌, ◌≤◌, IfOk, length};
ghost use Rattle.std.specs.Process.{exit_status};
ghost use Rattle.verdicts.specs.Verdict.{refused};
ghost use Rattle.words.specs.Legal.{legal_of, word_refusal};
ghost use Rattle.routine.specs.Routines.{draft_of};
ghost use Rattle.program.specs.Standings.{FileStands, IsAccepted, Tells};

use crate::naming::print_order;
use crate::options::{Word, check_asked, read_words};
use crate::showing::{Cycles, Next};
use crate::standing::Standing;
use crate::tasks::{finish, give_up, load};
use crate::working::{Job, Sets};
use notation::{Assembly, Foreign};
use routine::Routine;
use std::process::ExitCode;
use std::{env, io};
use words::fault::WordFault;
use words::instruction::Instruction;
use words::listing::Listing;

/// What `--help` prints.
const HELP: &str = "usage: dulkyamo [--check] [--] [FILE]..
Carries out each routine FILE in turn, or standard input where none is named, and prints what it carried out.
A FILE holds statements, one a line; `;` begins a comment. Words come first, then order, rows and second,
then judge, fill, pool, remaining, join and the calls:
  words N N ..                   words of the routine
  order chain N | compartments N | table N B B .. | pair ORDER ORDER
                                 the order of secrecy levels
  row ADDRESS NAME=VALUE ..      levels at a word, by name (r0 to r31, c, z, memory, region, join, remaining, function)
  row finish NAME=VALUE ..       levels at the end
  rows N N ..                    all rows as plain numbers, 39 to a row
  second                         the rows behind it are a second set, of another analyst
  judge                          whether words and rows keep all rules
  fill                           fills in the least levels that are accepted, from the levels of row 0 and
                                 join, remaining and function of each row; prints the rows; judge goes by them then
  pool                           pools both sets of rows; prints the rows; judge goes by them then
  remaining                      the largest remaining number in the rows
  join CODE CODE                 the level that two levels join to, by their codes
  clear, put PLACE BYTE [BYTE], run LIMIT, read PLACE
                                 calls on two boards, whose answers stand side by side; PLACE is rN or an address
  --check        the status tells whether every file is accepted
  --version      prints the version
  -h, --help     prints this
  --             what follows is the name of a file, also where it begins with `-`
Status 0: each file was carried out. Status 1: some file could not be read or is malformed; standard error says where.
With --check, status 0: each file is accepted. Status 1: one is refused or not judged. Status 2: one could not be read or is malformed.
Status 2 also stands for an option that there is none of.";

/// What `--version` prints: the version, and the kit that it is proved with.
const VERSION: &str = "dulkyamo 1.1, proved with rattle-kit-13f logic dac8208d650f15bf";

/// The status of a command line with an option that there is none of, or that cannot be read.
const MISUSED: u8 = 2;

/// Carries out what the command line asks for, and answers the exit status: 0, 1 or 2.
pub fn run(rt: &HostRuntime) -> ExitCode
    ensures { exit_status result ≤ 2 }
{
    match try_run(rt) {
        Ok(status) => status,
        Err(error) => {
            let _ = eprintln!(rt; "dulkyamo: {error}");
            ExitCode::from(MISUSED)
        }
    }
}

/// Reads the command line, loads what it names, and carries that out.
fn try_run(rt: &HostRuntime) -> io::Result<ExitCode>
    ensures { IfOk result (λ status. exit_status status ≤ 2) }
{
    let mut texts = Vec::new(rt.alloc());
    for text in env::args(rt)?.skip(1) {
        texts.push(text)?;
    }
    let words = read_words(rt.alloc(), texts.as_slice())?;
    let Some(check) = check_asked(words.as_slice()) else {
        print_unknown(rt, texts.as_slice(), words.as_slice())?;
        return Ok(ExitCode::from(MISUSED));
    };
    match load(rt, texts, words.as_slice()) {
        Ok(tasks) => Ok(finish(rt, check, tasks.as_slice())),
        Err(error) => Ok(give_up(rt, check, error)),
    }
}

/// Says which words are options that there are none of.
fn print_unknown(rt: &HostRuntime, texts: &[String], words: &[Word]) -> io::Result<()> {
    for (text, word) in texts.iter().zip(words) {
        if word.is_unknown() {
            eprintln!(rt;
                "dulkyamo: there is no option {text}; --help prints those that there are"
            )?;
        }
    }
    Ok(())
}

/// Carries out a file, or says what is wrong with it and where.
pub(crate) fn carry_out(rt: &HostRuntime, name: &str, file: &[u8]) -> io::Result<Standing>
    ensures { IfOk result (λ standing. FileStands file.now standing) }
{
    match routine::read(rt.alloc(), file) {
        Ok(routine) => print_routine(rt, name, &routine),
        Err(fault) => {
            eprintln!(rt; "{name}:{fault}")?;
            Ok(Standing::Unread)
        }
    }
}

/// Prints what is said of a routine, works its steps, and answers how it came out.
fn print_routine(rt: &HostRuntime, name: &str, routine: &Routine) -> io::Result<Standing>
    ensures { IfOk result (λ standing. Tells (IsAccepted (draft_of routine.now)) standing) }
{
    println!(rt; "routine {name}")?;
    print_words(rt, routine.words.as_slice())?;
    let made = print_order(rt, routine.order.as_ref())?;
    let order = made.as_ref();
    let job = Job {
        routine,
        order,
        rows: routine.rows.numbers.as_slice(),
        sets: Sets::First,
    };
    let judged = job.judge();
    let making = job.make(rt.alloc())?;
    job.work(rt, judged, &making)?;
    Ok(job.standing(judged, &making))
}

/// Prints the words as a listing, or why they are none.
fn print_words(rt: &HostRuntime, words: &[u16]) -> io::Result<()> {
    match Listing::check(words) {
        Ok(()) => print_listing(rt, Listing::new(words)),
        Err(fault) => print_refusal(rt, fault, words),
    }
}

/// Prints why words are no listing, with the number of the refusal.
// Keep the text on the length equal to that of `explanations`; of the other refusal each says a different thing.
fn print_refusal(rt: &HostRuntime, fault: WordFault, words: &[u16]) -> io::Result<()>
    requires { legal_of words.now ≡ refused (word_refusal fault) }
{
    let number = fault.number();
    match fault {
        WordFault::Length => {
            let len = words.len();
            println!(rt; "refused {number}: a routine has 1 to 1024 words, and this one has {len}")
        }
        WordFault::Undecodable(at) => {
            let word = words[usize::from(at)];
            println!(rt;
                "refused {number} at {at}: the word 0x{word:04X} is no instruction that a routine may hold"
            )?;
            print_undecodable(rt, words)
        }
    }
}

/// Prints each word that does not decode, with its name where it is one of the chip's.
fn print_undecodable(rt: &HostRuntime, words: &[u16]) -> io::Result<()> {
    for (at, word) in words.iter().enumerate() {
        if Instruction::decode(*word).is_none() {
            match Foreign::from_word(*word) {
                Some(foreign) => println!(rt; "  {at} 0x{word:04X} {foreign}")?,
                None => println!(rt; "  {at} 0x{word:04X}")?,
            }
        }
    }
    Ok(())
}

/// Prints how many words a listing has, and a line for each.
fn print_listing(rt: &HostRuntime, listing: Listing<'_>) -> io::Result<()> {
    let len = listing.len();
    println!(rt; "listing {len} words")?;
    for at in 0..len {
        print_word(rt, listing, at)?;
    }
    Ok(())
}

/// Prints the word at an address of a listing, its instruction, its cycles and the addresses that are next.
fn print_word(rt: &HostRuntime, listing: Listing<'_>, at: u16) -> io::Result<()>
    requires { at < length listing.words.now }
{
    // An address of the listing has both.
    let (Some(word), Some(instruction)) = (listing.word(at), listing.instruction(at)) else {
        unreachable()
    };
    let assembly = Assembly(instruction);
    let route = instruction.route(at);
    let cycles = Cycles { instruction, route };
    let len = listing.len();
    let next = Next { at, route, len };
    println!(rt; "{at} 0x{word:04X} {assembly} | {cycles} | {next}")
}
