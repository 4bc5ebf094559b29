//! Prints a configuration as JSON, for the tools beside `rad_proxy`: what that program reads of it, each default filled in. So no
//! tool reads TOML itself. `specs/Written.antt` says which value the line is.
#![tactic(auto)]

mod faults;
mod writing;

use faults::Fault;
use rad_files::load_configuration;
use std::alloc::{AllocGlobal, Global};
use std::env::{self, Env};
use std::fs;
use std::io::{self, ErrorKind, Write};
use std::os::unix::fs::FileTypeExt;
use std::process::ExitCode;
use std::rt::{Files, Runtime};
use writing::write_config;

/// What standard output is, among the program's open files.
const OUTPUT: &str = "/proc/self/fd/1";

/// The word behind FILE that asks for the secrets.
const SECRETS: &str = "secrets";

fn main(rt: HostRuntime) -> ExitCode {
    let status = match obey_words(&rt) {
        Ok(()) => 0,
        Err(fault) => {
            if !matches!(fault, Fault::Output) {
                let _ = eprintln!(rt; "{fault}");
            }
            fault.status()
        }
    };
    ExitCode::from(status)
}

/// Does what the words ask for.
fn obey_words<R: Runtime + AllocGlobal>(rt: &R) -> Result<(), Fault>
where
    R::File: Drop,
{
    let words = read_arguments(rt)?;
    match words.as_slice() {
        [_, file] => print_config(rt, rt.alloc(), file.as_str(), false),
        [_, file, word] if word.as_str() == SECRETS => print_secrets(rt, rt.alloc(), file.as_str()),
        _ => Err(Fault::Usage),
    }
}

/// Prints the configuration in a file with its secrets, if standard output is a pipe.
fn print_secrets<R: Runtime>(rt: &R, alloc: Global, path: &str) -> Result<(), Fault>
where
    R::File: Drop,
{
    if !prints_to_pipe(rt) {
        return Err(Fault::NoPipe);
    }
    print_config(rt, alloc, path, true)
}

/// Prints the configuration in a file, with its secrets or without them.
fn print_config<R: Runtime>(
    rt: &R,
    alloc: Global,
    path: &str,
    with_secrets: bool,
) -> Result<(), Fault>
where
    R::File: Drop,
{
    let config = match load_configuration(rt, alloc, path) {
        Ok(config) => config,
        Err(fault) => return Err(Fault::of_load(alloc, path, fault)),
    };
    let line = write_config(alloc, &config, with_secrets)?;
    match io::writer(rt).write_all(line.as_slice()) {
        Ok(()) => Ok(()),
        Err(_) => Err(Fault::Output),
    }
}

/// Whether standard output is a pipe. It is none if that can't be known.
fn prints_to_pipe<R: Files>(rt: &R) -> bool {
    match fs::metadata(rt, OUTPUT) {
        Ok(output) => output.file_type().is_fifo(),
        Err(_) => false,
    }
}

/// Returns the words that the program was called with, its own name first.
fn read_arguments<R: Env + AllocGlobal>(rt: &R) -> Result<Vec<String>, Fault> {
    let arguments = match env::args(rt) {
        Ok(arguments) => arguments,
        Err(error) => {
            return match error.kind() {
                ErrorKind::OutOfMemory => Err(Fault::Memory),
                _ => Err(Fault::Usage),
            };
        }
    };
    Ok(arguments.collect(rt.alloc())?)
}
