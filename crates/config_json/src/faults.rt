//! The faults that end the program.

use rad_files::LoadFault;
use rad_log::Escaped;
use rad_realms::ConfigFault;
use std::alloc::{AllocError, Global};
use std::fmt;
use std::io::ErrorKind;
use thiserror::Error as FaultError;

/// Why the program ends early. Its `Display` is the line for standard error.
#[derive(Debug, Drop, FaultError)]
pub enum Fault {
    #[error("usage: config_json FILE [secrets]")]
    Usage,
    /// The file can't be read, or is too long.
    #[error("file: {0}")]
    File(FileName),
    #[error("configuration: {0}")]
    Configuration(ConfigFault),
    #[error("memory: refused")]
    Memory,
    /// Secrets are asked for, and standard output is no pipe.
    #[error("output: no pipe")]
    NoPipe,
    /// Standard output takes nothing more. Its line is not printed.
    #[error("output: failed")]
    Output,
}

impl Fault {
    ghost use Rattle.std.specs.Prelude.{◌≡◌, ◌≤◌};
    ghost use Rattle.config_json.specs.Statuses.{status_of};

    /// Returns the status that the program ends with.
    pub fn status(&self) -> u8
        ensures { result ≡ status_of self.now }
    {
        match self {
            Fault::Usage => 1,
            Fault::Configuration(_) => 2,
            Fault::File(_) | Fault::Memory | Fault::NoPipe | Fault::Output => 4,
        }
    }

    /// Returns the fault of a file of this path whose configuration is not loaded.
    pub fn of_load(alloc: Global, path: &str, fault: LoadFault) -> Fault
        ensures { 2 ≤ status_of result }
    {
        match fault {
            LoadFault::Configuration(fault) => Fault::Configuration(fault),
            LoadFault::File(error) if error.kind() == ErrorKind::OutOfMemory => Fault::Memory,
            LoadFault::File(_) => match String::from_str(alloc, path) {
                Ok(path) => Fault::File(FileName(path)),
                Err(_) => Fault::Memory,
            },
        }
    }
}

impl From<AllocError> for Fault {
    ghost use Rattle.std.specs.Prelude.{◌≡◌};
    ghost use Rattle.config_json.specs.declared.faults.Fault.TheVariants.{Memory};

    ghost from_gives = { λ _ fault. fault ≡ Memory };

    fn from(_error: AllocError) -> Fault {
        Fault::Memory
    }
}

/// The name of a file, which is printed as in a line of the log.
#[derive(Debug, Drop)]
pub struct FileName(String);

impl fmt::Display for FileName {
    ghost use Rattle.std.specs.Prelude.{Some, None, string_bytes};
    ghost use Rattle.rad_log.specs.Escaped.{escaped};

    ghost output = { λ name. Some (escaped None (string_bytes name.0)) };

    fn fmt<W: fmt::Write>(&self, f: &mut fmt::Formatter<W>) -> fmt::Result {
        let name = Escaped {
            octets: self.0.as_bytes(),
            also: None,
        };
        write!(f, "{name}")
    }
}
