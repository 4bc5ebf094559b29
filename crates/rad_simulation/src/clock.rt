//! The clock of all workers of a simulation.

use std::cell::Cell;
use std::io;
use std::time::{Clock, Duration};

/// What the wall clock shows when a simulation begins, in milliseconds since 1970.
const BEGINNING: u64 = 1_700_000_000_000;

/// A clock that goes on only where the simulation has it go on.
#[derive(Drop)]
pub struct VirtualClock {
    /// How many milliseconds passed since the simulation began.
    passed: Cell<u64>,
}

impl VirtualClock {
    /// Returns a clock that shows the beginning.
    pub fn new() -> VirtualClock {
        VirtualClock {
            passed: Cell::new(0),
        }
    }

    /// Returns how many milliseconds passed since the simulation began.
    pub fn passed(&self) -> u64 {
        self.passed.get()
    }

    /// Has this many milliseconds pass.
    pub fn pass(&self, milliseconds: u64) {
        self.passed.set(self.passed().saturating_add(milliseconds));
    }
}

/// Returns what the wall clock shows so many milliseconds after the beginning, in milliseconds since 1970.
pub fn wall_moment(passed: u64) -> u64 {
    BEGINNING.saturating_add(passed)
}

impl Clock for VirtualClock {
    fn monotonic(&self) -> io::Result<Duration> {
        Ok(Duration::from_millis(self.passed()))
    }

    fn since_1970(&self) -> io::Result<Duration> {
        Ok(Duration::from_millis(wall_moment(self.passed())))
    }
}
