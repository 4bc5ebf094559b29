//! The configuration in a file.

ghost use Rattle.std.specs.Prelude.{IfOk, None};
ghost use Rattle.rad_proxy.specs.Configurations.{IsLoaded};

use crate::faults::Fault;
use crate::file_name::FileName;
use crate::machine::Host;
use crate::reasons::{tell_doubts, tell_faults, tell_file, tell_homes, tell_other_home, tell_text};
use rad_addresses::read_local_addresses;
use rad_files::{MOST_FILE_OCTETS, read_at_most};
use rad_log::Log;
use rad_realms::Config;
use std::alloc::Global;
use std::fs;
use std::io::{Error, ErrorKind, Read};

/// Reads the configuration in a file. Logs why the file can't be read, and what an operator should know of the
/// configuration.
///
/// # Errors
///
/// `File` if the file can't be read or is longer than 1,048,576 octets, `Configuration` if it is not a configuration,
/// `Memory` if a growth is refused.
pub fn load<H: Host, L: Log>(rt: &H, alloc: Global, log: &L, path: &str) -> Result<Config, Fault>
    ensures { IfOk result (λ config. IsLoaded None MOST_FILE_OCTETS config) }
{
    let file = match fs::open(rt, path) {
        Ok(file) => file,
        Err(error) => return Err(file_fault(alloc, log, path, &error)),
    };
    let loaded = load_text(alloc, log, path, file);
    if let Ok(config) = &loaded {
        advise(rt, alloc, log, config);
    }
    loaded
}

/// Logs what an operator should know of a configuration on this machine. If the machine's addresses can't be read, only
/// those that every machine has are known.
fn advise<H: Host, L: Log>(rt: &H, alloc: Global, log: &L, config: &Config) {
    match read_local_addresses(rt, alloc) {
        Ok(local) => tell_homes(alloc, log, config, local.as_slice()),
        Err(_) => tell_homes(alloc, log, config, &[]),
    }
}

/// Reads the configuration in the text that a reader returns, which is that of the file of this path. Logs why it can't
/// be read, and what an operator should know of the text.
pub fn load_text<R: Read + Drop, L: Log>(
    alloc: Global,
    log: &L,
    path: &str,
    file: R,
) -> Result<Config, Fault>
    ensures { IfOk result (λ config. IsLoaded (R.remaining file) MOST_FILE_OCTETS config) }
{
    let octets = match read_at_most(alloc, file, MOST_FILE_OCTETS) {
        Ok(octets) => octets,
        Err(error) => return Err(file_fault(alloc, log, path, &error)),
    };
    let text = match tell_text(alloc, log, octets.as_slice()) {
        Ok(text) => text,
        Err(fault) => return Err(Fault::Configuration(fault)),
    };
    match text.configuration(alloc) {
        Ok(config) => {
            tell_doubts(alloc, log, &text, &config);
            tell_other_home(log, &config);
            Ok(config)
        }
        Err(fault) => {
            tell_faults(alloc, log, &text);
            Err(Fault::Configuration(fault))
        }
    }
}

/// Returns the fault for a file of this path that can't be read, and logs why, unless memory was refused.
fn file_fault<L: Log>(alloc: Global, log: &L, path: &str, error: &Error) -> Fault {
    if error.kind() == ErrorKind::OutOfMemory {
        return Fault::Memory;
    }
    tell_file(log, path, error);
    match FileName::new(alloc, path) {
        Ok(path) => Fault::File(path),
        Err(_) => Fault::Memory,
    }
}
