//! Closing a lane.

ghost use Rattle.rad_lane.specs.Lawful.{IsLawful};
ghost use Rattle.rad_lane.specs.Closes.{Leaves};

use crate::watch::free;
use crate::{Lane, Leftover, Record};
use block_queue::Fifo;

impl<Q: Fifo<Record>> Lane<Q> {
    /// Closes the lane and returns the requests and answers that its book holds, and the outstanding sendings. An
    /// outstanding probe is dropped. It takes no memory and moves no item.
    pub fn close(self) -> Leftover<Q>
        ensures leaves { Leaves self result }
        ensures lawful { IsLawful self }
    {
        let Lane {
            setup,
            opening,
            accepted,
            queued,
            answered,
            mut slots,
            watch,
            ..
        } = self;
        free(&mut slots, watch.probe());
        Leftover {
            lane: setup.lane(),
            opening,
            accepted,
            answered,
            outstanding: slots,
            queued,
        }
    }
}
