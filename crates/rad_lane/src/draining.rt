//! Draining a lane.

ghost use Rattle.rad_lane.specs.Drains.{Drains};

use crate::{Lane, Record};
use block_queue::Fifo;

impl<Q: Fifo<Record>> Lane<Q> {
    /// Drains the lane: from now on it accepts no new request. Returns how many requests had been accepted in all
    /// when it was drained. A second call changes nothing.
    pub fn drain(&mut self) -> u64
        ensures { Drains self.old result self.new }
    {
        let count = self.drained_at();
        self.drain = Some(count);
        count
    }
}
