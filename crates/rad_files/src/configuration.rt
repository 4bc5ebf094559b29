//! Reading configurations from files, and from octets.

ghost use Rattle.std.specs.Prelude.{◌≤◌, ℕ, List, IfOk, Ok, length};
ghost use Rattle.rad_files.specs.Configurations.{ReadsOctets};

use crate::bounded::read_at_most;
use rad_config::{Config, ConfigFault, read_config};
use std::alloc::Global;
use std::fs;
use std::io::{self, Error};
use std::rt::Files;

/// The most octets of a configuration's file.
pub const MOST_FILE_OCTETS: u64 = 1_048_576;

/// Why no configuration is loaded.
#[derive(Drop)]
pub enum LoadFault {
    /// The file can't be read, or is longer than [`MOST_FILE_OCTETS`].
    File(Error),
    /// It is not a configuration.
    Configuration(ConfigFault),
}

/// Reads the configuration in a file.
///
/// # Errors
///
/// `File` with the system's error if the file can't be read, with `FileTooLarge` if it is longer than 1,048,576 octets, and with
/// `OutOfMemory` if a growth is refused; `Configuration` if it is not a configuration.
pub fn load_configuration<R: Files>(rt: &R, alloc: Global, path: &str) -> Result<Config, LoadFault>
where
    R::File: Drop,
    ensures { IfOk result (λ config. (text : List ℕ) × (length text ≤ MOST_FILE_OCTETS) × ReadsOctets text (Ok config)) }
{
    let text = match read_file(rt, alloc, path) {
        Ok(text) => text,
        Err(error) => return Err(LoadFault::File(error)),
    };
    match read_configuration(alloc, text.as_slice()) {
        Ok(config) => Ok(config),
        Err(fault) => Err(LoadFault::Configuration(fault)),
    }
}

fn read_file<R: Files>(rt: &R, alloc: Global, path: &str) -> io::Result<Vec<u8>>
where
    R::File: Drop,
    ensures { IfOk result (λ text. length text.items ≤ MOST_FILE_OCTETS) }
{
    read_at_most(alloc, fs::open(rt, path)?, MOST_FILE_OCTETS)
}

/// Reads a configuration from the octets of its text.
///
/// # Errors
///
/// `Toml` if the octets are not UTF-8, and otherwise the fault of their text.
pub fn read_configuration(alloc: Global, octets: &[u8]) -> Result<Config, ConfigFault>
    ensures { ReadsOctets octets.now result }
{
    let Ok(text) = str::from_utf8(octets) else {
        return Err(ConfigFault::Toml);
    };
    read_config(alloc, text)
}
