//! What the command line names, carried out in turn.
ghost use Rattle.std.specs.Prelude.{◌≡◌, ◌≤◌, ℕ, IfOk, true};
ghost use Rattle.std.specs.List.{list_all};
ghost use Rattle.std.specs.Process.{exit_status};
ghost use Rattle.program.specs.Standings.{TaskStands, TasksStand, task_read, AllAccepted, status_by};
ghost use Rattle.program.specs.declared.standing.Standing.TheVariants.{Unread};

use crate::options::Word;
use crate::standing::Standing;
use crate::{HELP, VERSION, carry_out};
use std::io::Read;
use std::process::ExitCode;
use std::{fs, io};

/// The name of standard input.
const INPUT: &str = "<stdin>";

/// What a word of the command line names, loaded.
#[derive(Drop)]
pub(crate) enum Task {
    /// To print the help.
    Help,
    /// To print the version.
    Version,
    /// A file that was read.
    File { name: String, bytes: Vec<u8> },
    /// A file that cannot be read.
    Unreadable,
}

/// Loads what the words of a command line name, in turn; standard input where they name nothing. Behind a file that can neither be read
/// nor be told of, nothing more is loaded.
pub(crate) fn load(rt: &HostRuntime, texts: Vec<String>, words: &[Word]) -> io::Result<Vec<Task>> {
    let mut tasks = Vec::new(rt.alloc());
    for (text, word) in texts.into_iter().zip(words) {
        match word {
            Word::Help => tasks.push(Task::Help)?,
            Word::Version => tasks.push(Task::Version)?,
            Word::Name => match load_file(rt, text) {
                Ok(task) => tasks.push(task)?,
                Err(_) => {
                    tasks.push(Task::Unreadable)?;
                    return Ok(tasks);
                }
            },
            Word::Check | Word::End | Word::Unknown => (),
        }
    }
    if tasks.is_empty() {
        tasks.push(load_input(rt)?)?;
    }
    Ok(tasks)
}

/// Reads a file, or says that it cannot be read; an error where that cannot be said.
fn load_file(rt: &HostRuntime, name: String) -> io::Result<Task> {
    match fs::read(rt, name.as_str()) {
        Ok(bytes) => Ok(Task::File { name, bytes }),
        Err(error) => unreadable(rt, name.as_str(), error),
    }
}

/// Reads standard input, or says that it cannot be read.
fn load_input(rt: &HostRuntime) -> io::Result<Task> {
    let mut bytes = Vec::new(rt.alloc());
    match rt.stdin().read_to_end(&mut bytes) {
        Ok(_) => {
            let name = String::from_str(rt.alloc(), INPUT)?;
            Ok(Task::File { name, bytes })
        }
        Err(error) => unreadable(rt, INPUT, error),
    }
}

/// Says that a file cannot be read.
fn unreadable(rt: &HostRuntime, name: &str, error: io::Error) -> io::Result<Task> {
    eprintln!(rt; "{name}: cannot be read: {error}")?;
    Ok(Task::Unreadable)
}

impl Task {
    /// Carries it out.
    fn carry_out(&self, rt: &HostRuntime) -> io::Result<Standing>
        ensures { IfOk result (λ standing. TaskStands self.now standing) }
    {
        match self {
            Task::Help => {
                println!(rt; "{HELP}")?;
                Ok(Standing::Accepted)
            }
            Task::Version => {
                println!(rt; "{VERSION}")?;
                Ok(Standing::Accepted)
            }
            Task::File { name, bytes } => carry_out(rt, name.as_str(), bytes.as_slice()),
            Task::Unreadable => Ok(Standing::Unread),
        }
    }
}

/// Carries out tasks in turn, and answers how the one came out that came out worst.
fn carry_out_all(rt: &HostRuntime, tasks: &[Task]) -> io::Result<Standing>
    ensures { IfOk result (λ worst. TasksStand tasks.now worst) }
{
    let mut worst = Standing::Accepted;
    for task in tasks {
        worst = worst.or_worse(task.carry_out(rt)?);
    }
    Ok(worst)
}

/// Carries out tasks in turn, and answers the exit status: 0 of tasks that are checked only where each is accepted, and of others only
/// where each was carried out.
pub(crate) fn finish(rt: &HostRuntime, check: bool, tasks: &[Task]) -> ExitCode
    ensures carried { exit_status result ≡ 0 → list_all task_read tasks.now ≡ true }
    ensures accepted { check ≡ true → exit_status result ≡ 0 → AllAccepted tasks.now }
    ensures known { exit_status result ≤ 2 }
{
    match carry_out_all(rt, tasks) {
        Ok(worst) => ExitCode::from(worst.status(check)),
        Err(error) => give_up(rt, check, error),
    }
}

/// Says what kept tasks from being loaded or carried out, and answers the exit status of that.
pub(crate) fn give_up(rt: &HostRuntime, check: bool, error: io::Error) -> ExitCode
    ensures { exit_status result ≡ status_by check Unread }
{
    let _ = eprintln!(rt; "dulkyamo: {error}");
    ExitCode::from(Standing::Unread.status(check))
}
