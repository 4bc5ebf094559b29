//! The faults that end the program.

use crate::file_name::FileName;
use rad_realms::{ConfigFault, Endpoint};
use rad_replay::ReplayFault;
use rad_server::ServeFault;
use std::alloc::AllocError;
use thiserror::Error;

/// Why the program ends early. Its `Display` is the line for standard error.
#[derive(Debug, Drop, Error)]
pub enum Fault {
    #[error("usage: rad_proxy [replay | check FILE | run FILE]")]
    Usage,
    #[error("input: failed")]
    Input,
    #[error("clock: failed")]
    Clock,
    /// The file can't be read, or is too long.
    #[error("file: {0}")]
    File(FileName),
    #[error("configuration: {0}")]
    Configuration(ConfigFault),
    /// The socket for the clients can't be made.
    #[error("socket: {0}")]
    Listen(Endpoint),
    /// The sockets of this lane can't be made.
    #[error("socket: lane {0}")]
    LaneSocket(usize),
    /// A worker's thread can't be started, or ended by itself.
    #[error("threads: failed")]
    Threads,
    #[error("memory: refused")]
    Memory,
    /// The line of this number, counted from 1 after the separator, is malformed, names a lane or a moment that does
    /// not exist, or cuts more octets than there are.
    #[error("events: line {0}")]
    Events(usize),
    /// Another process holds the folder of the spool, or others may use it. The log has the reason.
    #[error("spool: refused")]
    Spool,
    /// Standard output takes nothing more. Its line is not printed.
    #[error("output: failed")]
    Output,
}

impl Fault {
    ghost use Rattle.std.specs.Prelude.{◌≡◌};
    ghost use Rattle.rad_proxy.specs.Faults.{status_of};

    /// Returns the status that the program ends with.
    pub fn status(&self) -> u8
        ensures { result ≡ status_of self.now }
    {
        match self {
            Fault::Usage => 1,
            Fault::Configuration(_) => 2,
            Fault::Input
            | Fault::Clock
            | Fault::File(_)
            | Fault::Listen(_)
            | Fault::LaneSocket(_)
            | Fault::Threads
            | Fault::Memory
            | Fault::Events(_)
            | Fault::Output => 4,
            Fault::Spool => 5,
        }
    }
}

impl From<AllocError> for Fault {
    ghost use Rattle.std.specs.Prelude.{◌≡◌};
    ghost use Rattle.rad_proxy.specs.declared.faults.Fault.TheVariants.{Memory};

    ghost from_gives = { λ _ fault. fault ≡ Memory };

    fn from(_error: AllocError) -> Fault {
        Fault::Memory
    }
}

impl From<ReplayFault> for Fault {
    ghost use Rattle.std.specs.Prelude.{◌≡◌};
    ghost use Rattle.rad_proxy.specs.Faults.{fault_of_replay};

    ghost from_gives = { λ replayed fault. fault ≡ fault_of_replay replayed };

    fn from(fault: ReplayFault) -> Fault {
        match fault {
            ReplayFault::Input => Fault::Input,
            ReplayFault::Configuration(fault) => Fault::Configuration(fault),
            ReplayFault::Memory => Fault::Memory,
            ReplayFault::Events(line) => Fault::Events(line),
            ReplayFault::Output => Fault::Output,
        }
    }
}

impl From<ServeFault> for Fault {
    ghost use Rattle.std.specs.Prelude.{◌≡◌};
    ghost use Rattle.rad_proxy.specs.Faults.{fault_of_serving};

    ghost from_gives = { λ served fault. fault ≡ fault_of_serving served };

    /// A worker that ended by itself gives the same fault as one that can't be started.
    fn from(fault: ServeFault) -> Fault {
        match fault {
            ServeFault::Listen(endpoint) => Fault::Listen(endpoint),
            ServeFault::LaneSocket(lane) => Fault::LaneSocket(lane),
            ServeFault::Threads | ServeFault::Ended(_) => Fault::Threads,
            ServeFault::Input | ServeFault::InputWait(_) => Fault::Input,
            ServeFault::Clock => Fault::Clock,
            ServeFault::Output => Fault::Output,
            ServeFault::Memory => Fault::Memory,
        }
    }
}
