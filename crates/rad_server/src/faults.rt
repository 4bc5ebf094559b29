//! Why a service ends early.

ghost use Rattle.std.specs.Prelude.{◌≡◌};
ghost use Rattle.rad_server.specs.declared.faults.ServeFault.TheVariants as fault;

use rad_desk::Worker;
use rad_realms::Endpoint;
use std::alloc::{AllocError, AllocFailed};
use std::io::{Error, ErrorKind};

/// Why a service ends early. The workers have ended by then. By itself the service drains the lanes only at the end of
/// the input: an earlier fault leaves them as they are.
#[derive(Clone, Copy, Debug, PartialEq, Eq)]
pub enum ServeFault {
    /// The socket for the clients can't be bound to this address and port, or can't be set up. A poll or random octets
    /// that the system refuses to the front's worker are this fault too: it names what can't be served.
    Listen(Endpoint),
    /// The sockets of this lane can't be bound or set up, or its worker is refused a poll or random octets.
    LaneSocket(usize),
    /// A worker's thread can't be started.
    Threads,
    /// This worker ended by itself, and it was the first.
    Ended(Worker),
    /// The reader failed.
    Input,
    /// The wait for the reader can't be set up. The number is the system's error code, if it has one.
    InputWait(Option<i32>),
    /// The clock failed.
    Clock,
    /// The writer failed, or accepted nothing for the whole of `linger` after the end of the input. In the second case
    /// the lanes were drained, unless the clock failed.
    Output,
    /// A growth was refused.
    Memory,
}

impl From<AllocError> for ServeFault {
    ghost from_gives = { λ _ given. given ≡ fault.Memory };

    fn from(_error: AllocError) -> ServeFault {
        ServeFault::Memory
    }
}

impl<T: Drop> From<AllocFailed<T>> for ServeFault {
    ghost from_gives = { λ _ given. given ≡ fault.Memory };

    fn from(_failed: AllocFailed<T>) -> ServeFault {
        ServeFault::Memory
    }
}

impl ServeFault {
    /// Returns `Memory` if the system refused memory, and otherwise this fault.
    pub(crate) fn or_memory(self, error: &Error) -> ServeFault {
        match error.kind() {
            ErrorKind::OutOfMemory => ServeFault::Memory,
            _ => self,
        }
    }
}
