//! A RADIUS accounting proxy (RFC 2866 section 2.1): the words of its command line, the files that it reads, and the
//! status that it ends with. What it does is in libraries: `rad_replay` runs a script, `rad_server` serves over UDP,
//! and `rad_telemetry` logs and counts.
#![tactic(auto)]

mod check_command;
mod descriptors;
mod faults;
mod file_name;
mod loading;
mod machine;
mod reasons;
mod run_command;
mod small_stack;
mod words;

use check_command::check_file;
use descriptors::{WaitingInput, open_standard};
use faults::Fault;
use machine::{Host, Machine, RuntimeMachine};
use rad_log::{open_log_if_asked, tell_reason};
use rad_replay::replay;
use run_command::serve_file;
use std::alloc::{AllocGlobal, Global};
use std::env::{self, Env};
use std::io::{self, ErrorKind};
use std::net::Net;
use std::os::fd::IntoRawFd;
use std::process::ExitCode;
use words::{Task, read_words};

/// The status of the program if something is left over at the end.
const LEFT_OVER: u8 = 3;

fn main(rt: HostRuntime) -> ExitCode {
    let status = match obey_words(&rt, &RuntimeMachine::new(rt)) {
        Ok(status) => status,
        Err(fault) => {
            if !matches!(fault, Fault::Output) {
                let _ = eprintln!(rt; "{fault}");
            }
            fault.status()
        }
    };
    ExitCode::from(status)
}

/// Does what the words of the command line ask for, and returns the status.
fn obey_words<H: Host + Net, M: Machine>(rt: &H, machine: &M) -> Result<u8, Fault>
where
    H::File: IntoRawFd,
{
    open_standard(rt)?;
    let alloc = rt.alloc();
    let end = match read_task(rt, alloc)? {
        Task::Check(file) => return print_counts(rt, machine, alloc, file.as_str()),
        Task::Replay => replay(rt, alloc, WaitingInput::new(rt.reader()), io::writer(rt))?,
        Task::Run(file) => serve_file(rt, machine, alloc, file.as_str())?,
    };
    Ok(if end.is_clean() { 0 } else { LEFT_OVER })
}

fn read_task<R: Env + AllocGlobal>(rt: &R, alloc: Global) -> Result<Task, Fault> {
    let words = read_arguments(rt)?;
    read_words(alloc, words.as_slice())
}

fn print_counts<H: Host, M: Machine>(
    rt: &H,
    machine: &M,
    alloc: Global,
    file: &str,
) -> Result<u8, Fault> {
    let log = open_log_if_asked(rt, alloc)?;
    let counts = check_file(rt, machine, alloc, &log, file)?;
    match println!(rt; "{counts}") {
        Ok(()) => Ok(0),
        Err(error) => {
            tell_reason(&log, "output-fault", &error);
            Err(Fault::Output)
        }
    }
}

/// Returns the words of the command line, the program's own name first.
fn read_arguments<R: Env + AllocGlobal>(rt: &R) -> Result<Vec<String>, Fault> {
    let arguments = match env::args(rt) {
        Ok(arguments) => arguments,
        Err(error) => {
            return match error.kind() {
                ErrorKind::OutOfMemory => Err(Fault::Memory),
                _ => Err(Fault::Usage),
            };
        }
    };
    Ok(arguments.collect(rt.alloc())?)
}
