//! Audits ledgers of rad_proxy: reads their lines, in the order of the files, and prints what is wrong with them, what is missing, and
//! how much of each lane of each run is there. `ledger_lines` says what a line is, and `ledger_rules` what is right.
#![tactic(auto)]

mod auditing;
mod blocks;
mod cells;
mod chains;
mod facts;
mod faults;
mod files;
mod hidden;
mod hints;
mod judging;
mod kept_sums;
mod lanes;
mod line_room;
mod named_file;
mod printing;
mod rows;
mod runs;
mod shown;
mod streams;
mod taking;
mod ties;
mod times;
mod wording;
mod words;

ghost use Rattle.std.specs.Prelude.{◌≡◌, ◌≤◌, ℕ, List, length, IfErr, IfOk, Ok};
ghost use Rattle.rad_files.specs.Configurations.{ReadsOctets};
ghost use Rattle.rad_audit.specs.Statuses.{IsStatus, status_of};

use auditing::audit_files;
use faults::{Fault, written};
use printing::{NO_FINDINGS, Outputs};
use rad_files::{LoadFault, MOST_FILE_OCTETS, load_configuration};
use rad_realms::Config;
use std::alloc::{AllocGlobal, Global};
use std::env::{self, Env};
use std::io::{self, BufWriter, Error, ErrorKind, Print, Write};
use std::process::ExitCode;
use std::rt::{Files, Runtime};
use std::thread::Threads;
use streams::Stream;
use words::{Wanted, Words, read_words};

fn main(rt: HostRuntime) -> ExitCode {
    let status = match obey_words(&rt) {
        Ok(status) => status,
        Err(fault) => {
            if !matches!(fault, Fault::Output) {
                let _ = eprintln!(rt; "{fault}");
            }
            fault.status()
        }
    };
    ExitCode::from(status)
}

fn obey_words<R: Runtime + Threads + Sync + AllocGlobal>(rt: &R) -> Result<u8, Fault>
where
    R::File: Drop,
    ensures { IfOk result IsStatus }
{
    let arguments = read_arguments(rt)?;
    obey_arguments(rt, rt.alloc(), arguments.as_slice())
}

/// Does what these words ask for, the program's own name first, and returns the status.
fn obey_arguments<R: Runtime + Threads + Sync>(
    rt: &R,
    alloc: Global,
    arguments: &[String],
) -> Result<u8, Fault>
where
    R::File: Drop,
    ensures { IfOk result IsStatus }
{
    match read_words(alloc, arguments)? {
        Wanted::Audit(words) => audit_words(rt, alloc, words),
        Wanted::Text(text) => print_text(rt, &text),
    }
}

/// Prints the text of `--help`, or of `--version`, on standard output, and returns the status.
fn print_text<R: Runtime>(rt: &R, text: &clap::Error) -> Result<u8, Fault>
    ensures status { IfOk result IsStatus }
    ensures none { IfOk result (λ status. status ≡ 0) }
{
    written(print!(rt; "{text}"))?;
    Ok(NO_FINDINGS.status())
}

/// Audits the files that these words name, and returns the status. It prints what it finds on standard output. If rows are
/// asked for, it prints them there, and what it finds on standard error.
fn audit_words<R: Runtime + Threads + Sync>(
    rt: &R,
    alloc: Global,
    words: Words<'_>,
) -> Result<u8, Fault>
where
    R::File: Drop,
    ensures { IfOk result IsStatus }
{
    let Words {
        rows,
        asked,
        sums,
        config,
        files,
    } = words;
    let config = load(rt, alloc, config)?;
    let standard = Stream::Output(io::writer(rt));
    let (lines, mut rows) = if rows {
        (Stream::Error, Some(buffered(alloc, standard)?))
    } else {
        (standard, None)
    };
    let mut lines = buffered(alloc, lines)?;
    let outputs = Outputs {
        lines: &mut lines,
        rows: rows.as_mut(),
    };
    let audited = audit_files(rt, alloc, &config, asked, files.as_slice(), sums, outputs);
    if let Some(rows) = &mut rows {
        written(rows.flush())?;
    }
    written(lines.flush())?;
    audited
}

fn buffered<P: Print>(
    alloc: Global,
    stream: Stream<'_, P>,
) -> Result<BufWriter<Stream<'_, P>>, Fault> {
    match BufWriter::new(alloc, stream) {
        Ok(buffered) => Ok(buffered),
        Err(_) => Err(Fault::Memory),
    }
}

fn load<R: Files>(rt: &R, alloc: Global, path: &str) -> Result<Config, Fault>
where
    R::File: Drop,
    ensures config { IfOk result (λ config. (text : List ℕ) × (length text ≤ MOST_FILE_OCTETS) × ReadsOctets text (Ok config)) }
    ensures fault { IfErr result (λ fault. 2 ≤ status_of fault) }
{
    match load_configuration(rt, alloc, path) {
        Ok(config) => Ok(config),
        Err(LoadFault::File(error)) => Err(Fault::of_file(alloc, path, &error)),
        Err(LoadFault::Configuration(fault)) => Err(Fault::Configuration(fault)),
    }
}

fn read_arguments<R: Env + AllocGlobal>(rt: &R) -> Result<Vec<String>, Fault> {
    let arguments = match env::args(rt) {
        Ok(arguments) => arguments,
        Err(error) => return Err(fault_of_words(&error)),
    };
    match arguments.collect(rt.alloc()) {
        Ok(words) => Ok(words),
        Err(_) => Err(Fault::Memory),
    }
}

fn fault_of_words(error: &Error) -> Fault {
    match error.kind() {
        ErrorKind::OutOfMemory => Fault::Memory,
        _ => Fault::Usage,
    }
}
