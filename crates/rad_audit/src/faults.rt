//! The faults that end the program.

ghost use Rattle.std.specs.Prelude.{◌≡◌, ◌↔◌, IsOk, IfErr};
ghost use Rattle.rad_audit.specs.declared.faults.Fault.TheVariants.{Output};

use crate::shown::Word;
use rad_realms::ConfigFault;
use std::alloc::{AllocError, Global};
use std::io::{Error, ErrorKind};
use thiserror::Error as FaultError;

/// Why the program ends early. Its `Display` is the line for standard error.
#[derive(Debug, Drop, FaultError)]
pub enum Fault {
    #[error("usage: rad_audit [--rows] [--from] [--partial] [--all] [--sum RUN:FILE:SUM].. CONFIG FILE..")]
    Usage,
    /// The file can't be read, or is a configuration that is too long.
    #[error("file: {0}")]
    File(Word),
    #[error("configuration: {0}")]
    Configuration(ConfigFault),
    #[error("memory: refused")]
    Memory,
    /// Standard output takes nothing more. Its line is not printed.
    #[error("output: failed")]
    Output,
}

impl Fault {
    ghost use Rattle.std.specs.Prelude.{◌≡◌};
    ghost use Rattle.rad_audit.specs.Statuses.{status_of};

    /// Returns the status that the program ends with.
    pub fn status(&self) -> u8
        ensures { result ≡ status_of self.now }
    {
        match self {
            Fault::Usage => 1,
            Fault::Configuration(_) => 2,
            Fault::File(_) | Fault::Memory | Fault::Output => 4,
        }
    }

    /// Returns the fault of a file of this path that can't be read.
    pub fn of_file(alloc: Global, path: &str, error: &Error) -> Fault
        ensures { status_of result ≡ 4 }
    {
        if error.kind() == ErrorKind::OutOfMemory {
            return Fault::Memory;
        }
        match Word::new(alloc, path) {
            Ok(path) => Fault::File(path),
            Err(_) => Fault::Memory,
        }
    }
}

impl From<AllocError> for Fault {
    ghost use Rattle.std.specs.Prelude.{◌≡◌};
    ghost use Rattle.rad_audit.specs.declared.faults.Fault.TheVariants.{Memory};

    ghost from_gives = { λ _ fault. fault ≡ Memory };

    fn from(_refused: AllocError) -> Fault {
        Fault::Memory
    }
}

/// Returns the fault of an output that takes nothing more, if it is one.
pub fn written<E: Drop>(writing: Result<(), E>) -> Result<(), Fault>
    ensures ok { IsOk result ↔ IsOk writing }
    ensures fault { IfErr result (λ fault. fault ≡ Output) }
{
    match writing {
        Ok(()) => Ok(()),
        Err(_) => Err(Fault::Output),
    }
}
