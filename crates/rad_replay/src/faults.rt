//! The faults that end a replay, and those that end an event.

use rad_realms::ConfigFault;
use std::alloc::AllocError;

/// Why a replay ends early.
#[derive(Clone, Copy)]
pub enum ReplayFault {
    /// The input can't be read, or is too long.
    Input,
    Configuration(ConfigFault),
    /// A growth was refused.
    Memory,
    /// The line of this number, counted from 1 after the separator, is malformed, names a lane or a moment that does
    /// not exist, or cuts more octets than there are.
    Events(usize),
    /// The output takes nothing more.
    Output,
}

/// Why an event ends the replay.
#[derive(Clone, Copy)]
pub enum Halt {
    /// Its line is no event, names a lane or a moment that does not exist, or cuts more octets than there are.
    Malformed,
    /// A growth was refused.
    Memory,
    /// The output takes nothing more.
    Output,
}

impl Halt {
    ghost use Rattle.std.specs.Prelude.{◌≡◌};
    ghost use Rattle.rad_replay.specs.Faults.{fault_at};

    /// Returns the fault of the replay that this fault is at the line of this number, counted from 1.
    pub fn at_line(self, number: usize) -> ReplayFault
        ensures { result ≡ fault_at self number }
    {
        match self {
            Halt::Malformed => ReplayFault::Events(number),
            Halt::Memory => ReplayFault::Memory,
            Halt::Output => ReplayFault::Output,
        }
    }
}

impl From<AllocError> for Halt {
    fn from(_error: AllocError) -> Self {
        Halt::Memory
    }
}
