//! The moments of a worker's turns.

use super::sleeping::SLEEP;
use rad_tables::Moment;
use std::time::{Clock, Instant};

/// The clock of a worker. It is read once in a turn: the moment stays the same from one receive to the next.
#[derive(Drop)]
pub(crate) struct TurnClock<'a, R> {
    clock: &'a R,
    start: Instant,
    /// The last moment that was returned.
    moment: Moment,
    /// Whether it was read in this turn.
    is_fresh: bool,
}

impl<'a, R> TurnClock<'a, R> {
    /// Makes a clock whose moments count from `start`.
    pub(crate) fn new(clock: &'a R, start: Instant) -> TurnClock<'a, R> {
        TurnClock {
            clock,
            start,
            moment: Moment::new(0).unwrap(),
            is_fresh: false,
        }
    }

    /// Begins a turn, in which the clock was not read yet.
    pub(crate) fn begin_turn(&mut self) {
        self.is_fresh = false;
    }

    /// Returns how many milliseconds the next wait may take: until the next multiple of [`SLEEP`] since the start, if
    /// the clock was read in this turn, and otherwise [`SLEEP`].
    pub(crate) fn longest_wait(&self) -> u64 {
        if self.is_fresh {
            SLEEP - self.moment.get() % SLEEP
        } else {
            SLEEP
        }
    }
}

impl<R: Clock> TurnClock<'_, R> {
    /// Returns the moment of the turn. If the clock fails, it is the last one that was read.
    pub(crate) fn now(&mut self) -> Moment {
        if !self.is_fresh {
            if let Some(moment) = self.read() {
                self.moment = moment;
                self.is_fresh = true;
            }
        }
        self.moment
    }

    /// Reads the clock. Returns `None` if that fails.
    fn read(&self) -> Option<Moment> {
        let passed = self.start.elapsed(self.clock).ok()?;
        let milliseconds = u64::try_from(passed.as_millis()).unwrap_or(u64::MAX);
        Moment::new(milliseconds)
    }
}
