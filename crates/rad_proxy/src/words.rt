//! The words of the command line.

use crate::faults::Fault;
use clap::error::ErrorKind;
use clap::{Arg, ArgAction, ArgMatches, Command};
use std::alloc::{AllocError, Global};

/// What the program is to do.
#[derive(Drop)]
pub enum Task {
    /// Run the script on standard input.
    Replay,
    /// Check the configuration in this file.
    Check(String),
    /// Serve the configuration in this file.
    Run(String),
}

/// Returns what the words ask for. The first word is the program's name. Without other words it is `replay`.
///
/// # Errors
///
/// `Usage` for words of any other form, `Memory` if a growth is refused.
pub fn read_words(alloc: Global, words: &[String]) -> Result<Task, Fault> {
    let matches = match command(alloc)?.try_get_matches_from(words) {
        Ok(matches) => matches,
        Err(error) => {
            return match error.kind() {
                ErrorKind::OutOfMemory => Err(Fault::Memory),
                _ => Err(Fault::Usage),
            };
        }
    };
    task_of(alloc, &matches)
}

fn task_of(alloc: Global, matches: &ArgMatches) -> Result<Task, Fault> {
    match matches.subcommand() {
        Some(("check", check)) => Ok(Task::Check(read_file_word(alloc, check)?)),
        Some(("run", run)) => Ok(Task::Run(read_file_word(alloc, run)?)),
        _ => Ok(Task::Replay),
    }
}

fn read_file_word(alloc: Global, matches: &ArgMatches) -> Result<String, Fault> {
    let Some(file) = matches.get_str("FILE") else {
        return Err(Fault::Usage);
    };
    Ok(String::from_str(alloc, file)?)
}

fn command<'a>(alloc: Global) -> Result<Command<'a>, AllocError> {
    let program = Command::new(alloc, "rad_proxy").subcommand(Command::new(alloc, "replay"))?;
    let program = with_file(alloc, program, "check")?;
    with_file(alloc, program, "run")
}

/// Adds a command of this name to a program, with the word FILE after it, which is required.
fn with_file<'a>(
    alloc: Global,
    program: Command<'a>,
    name: &'a str,
) -> Result<Command<'a>, AllocError> {
    let file = Arg::new(alloc, "FILE")
        .required(true)
        .action(ArgAction::Set);
    let command = Command::new(alloc, name).arg(file)?;
    program.subcommand(command)
}
