//! The words that the program is called with.

use crate::faults::Fault;
use crate::kept_sums::{KeptSum, KeptSums};
use crate::printing::Asked;
use clap::error::ErrorKind;
use clap::{Arg, ArgAction, ArgMatches, Command};
use std::alloc::{AllocError, Global};

/// The version of the program.
const VERSION: &str = "0.1.0";

/// What the words ask for.
#[derive(Drop)]
pub enum Wanted<'a> {
    /// An audit.
    Audit(Words<'a>),
    /// The text of `--help`, or of `--version`.
    Text(clap::Error),
}

/// What to read, and how to print it.
#[derive(Drop)]
pub struct Words<'a> {
    /// Whether a row is printed for each record.
    pub rows: bool,
    /// Which parts are asked for.
    pub asked: Asked,
    /// The sums that somebody kept.
    pub sums: KeptSums<'a>,
    /// The configuration's.
    pub config: &'a str,
    /// The ledgers', in the order in which they are read.
    pub files: Vec<&'a str>,
}

/// Returns what the words ask for. The first word is the program's name.
///
/// # Errors
///
/// `Usage` for words of any other form, `Memory` if a growth is refused.
pub fn read_words(alloc: Global, words: &[String]) -> Result<Wanted<'_>, Fault> {
    let matches = match command(alloc)?.try_get_matches_from(words) {
        Ok(matches) => matches,
        Err(error) => {
            return match error.kind() {
                ErrorKind::OutOfMemory => Err(Fault::Memory),
                ErrorKind::DisplayHelp | ErrorKind::DisplayVersion => Ok(Wanted::Text(error)),
                _ => Err(Fault::Usage),
            };
        }
    };
    Ok(Wanted::Audit(words_of(alloc, &matches)?))
}

fn words_of<'a>(alloc: Global, matches: &ArgMatches<'a>) -> Result<Words<'a>, Fault> {
    let (Some(config), Some(files)) = (matches.get_str("CONFIG"), matches.get_strs("FILE")) else {
        return Err(Fault::Usage);
    };
    let asked = Asked {
        from: matches.get_flag("from"),
        partial: matches.get_flag("partial"),
        all: matches.get_flag("all"),
    };
    let sums = sums_of(alloc, matches.get_strs("sum").unwrap_or(&[]))?;
    Ok(Words {
        rows: matches.get_flag("rows"),
        asked,
        sums,
        config,
        files: files.to_vec(alloc)?,
    })
}

fn sums_of<'a>(alloc: Global, words: &[&'a str]) -> Result<KeptSums<'a>, Fault> {
    let mut sums = KeptSums::new(alloc);
    for word in words {
        let Some(sum) = KeptSum::read(word) else {
            return Err(Fault::Usage);
        };
        sums.add(sum)?;
    }
    Ok(sums)
}

fn command<'a>(alloc: Global) -> Result<Command<'a>, AllocError> {
    let command = Command::new(alloc, "rad_audit")
        .version(VERSION)
        .about("Audits ledgers of rad_proxy. rad_audit(1) says what it prints.")
        .arg(flag(
            alloc,
            "rows",
            "Print a row for each entry that is right, and all else on standard error",
        ))?
        .arg(flag(alloc, "from", "The first files of a run are left out"))?
        .arg(flag(alloc, "partial", "They are, or not all of it can be judged"))?
        .arg(flag(alloc, "all", "No run before another one is left out"))?;
    let command = command.arg(sum_word(alloc))?;
    let command = command.arg(config_word(alloc))?;
    command.arg(file_words(alloc))
}

fn flag<'a>(alloc: Global, name: &'a str, help: &'a str) -> Arg<'a> {
    Arg::new(alloc, name)
        .long(name)
        .help(help)
        .action(ArgAction::SetTrue)
}

fn sum_word<'a>(alloc: Global) -> Arg<'a> {
    Arg::new(alloc, "sum")
        .long("sum")
        .value_name("RUN:FILE:SUM")
        .help("Look whether the run has this sum in this file")
        .action(ArgAction::Append)
}

fn config_word<'a>(alloc: Global) -> Arg<'a> {
    Arg::new(alloc, "CONFIG")
        .help("The configuration that the proxy had")
        .required(true)
        .action(ArgAction::Set)
}

fn file_words<'a>(alloc: Global) -> Arg<'a> {
    Arg::new(alloc, "FILE")
        .help("The files of ledgers, in their order")
        .required(true)
        .num_args(1..)
        .action(ArgAction::Append)
}
