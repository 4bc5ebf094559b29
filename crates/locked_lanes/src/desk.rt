//! A lane with the sending end of its ring.

ghost use Rattle.std.specs.Prelude.{◌≡◌, ◌≤◌};
ghost use Rattle.std.proofs.Props.{props};
ghost use Rattle.rtrb.specs.Ring.{sent};
ghost use Rattle.locked_lanes.specs.Outlet.{IsOutlet};
ghost use Rattle.locked_lanes.specs.Fates.{AccountsForAll};

use crate::inlet::Inlet;
use crate::numbered::Numbered;
use block_queue::BlockQueue;
use rad_lane::{Lane, Leftover, Outgoing, Record, Setup};
use rad_realms::Limits;
use rtrb::{Producer, RingBuffer};
use std::alloc::Global;

/// The queue of a desk's lane.
pub type RecordQueue = BlockQueue<Record>;

/// Why no desk is made.
#[derive(Clone, Copy, Debug, PartialEq, Eq)]
pub enum OpenFault {
    /// Memory was refused.
    OutOfMemory,
}

/// A lane and the sending end of its ring.
///
/// Its type guarantees that each response that the lane served was added to the ring, in order of answering; that each
/// kept answer is the response that was added under its serial; that each request that the lane ever accepted is queued,
/// or outstanding, or answered by one of these responses, and that once; and that the lane's queue has a bound, so that
/// the queues of all lanes can be joined.
#[derive(Drop)]
pub struct Desk {
    pub(crate) lane: Lane<RecordQueue>,
    /// The number of the lane.
    pub(crate) number: u16,
    /// The limits of the lane.
    pub(crate) limits: Limits,
    /// The end of the ring to which responses are added.
    pub(crate) giver: Producer<Outgoing, Global, Numbered>,
    ghost outlet: { IsOutlet lane (sent giver) } by { Prim.hlevel props },
    ghost accounted: { AccountsForAll lane (sent giver) } by { Prim.hlevel props },
    ghost bounded: { lane.setup.limits.queue ≤ 65536 },
    ghost numbered: { lane.setup.lane ≡ number },
    ghost limited: { lane.setup.limits ≡ limits },
}

impl Desk {
    ghost use Rattle.std.specs.Prelude.{◌≡◌, ◌≤◌, [], ◌++◌, length, IfOk};
    ghost use Rattle.rad_lane.specs.Empty.{empty_book};
    ghost use Rattle.rad_lane.specs.Lawful.{IsLawful};
    ghost use Rattle.rad_lane.specs.Closes.{Leaves};
    ghost use Rattle.locked_lanes.specs.Desk.{book, given, free_places, SameRing};
    ghost use Rattle.locked_lanes.specs.Inlet.{lane_of, taken, seen, AreOfOneRing, SameInlet};

    /// Makes an empty lane over this setup, with a ring of as many places as its limits say, and the inlet of that
    /// ring.
    ///
    /// # Errors
    ///
    /// `OutOfMemory` if memory is refused. The setup is dropped.
    pub fn pair(alloc: Global, setup: Setup) -> Result<(Desk, Inlet), OpenFault>
        ensures book { IfOk result (λ pair. book pair.0 ≡ empty_book setup) }
        ensures given { IfOk result (λ pair. given pair.0 ≡ []) }
        ensures free { IfOk result (λ pair. free_places pair.0 ≡ setup.limits.ring) }
        ensures lane { IfOk result (λ pair. lane_of pair.1 ≡ setup.lane) }
        ensures taken { IfOk result (λ pair. taken pair.1 ≡ []) }
        ensures ring { IfOk result (λ pair. AreOfOneRing pair.0 pair.1) }
    {
        let number = setup.lane();
        let limits = *setup.limits();
        let places = limits.numbers().ring as usize;
        let Ok((giver, taker)) = RingBuffer::with_protocol::<Global, Numbered>(alloc, places) else {
            return Err(OpenFault::OutOfMemory);
        };
        let Ok(lane) = Lane::new(alloc, setup) else {
            return Err(OpenFault::OutOfMemory);
        };
        let desk = Desk {
            lane,
            number,
            limits,
            giver,
        };
        Ok((desk, Inlet::new(number, taker)))
    }

    /// Returns how many responses wait in the ring, for a caller that has both of its ends. What the inlet took,
    /// followed by these responses, is everything that was added to the ring.
    pub fn waiting(&mut self, inlet: &mut Inlet) -> usize
        requires { AreOfOneRing self.old inlet.old }
        ensures value { result ≡ length (seen inlet.new) }
        ensures waiting { taken inlet.new ++ seen inlet.new ≡ given self.new }
        ensures given { given self.new ≡ given self.old }
        ensures taken { taken inlet.new ≡ taken inlet.old }
        ensures book { book self.new ≡ book self.old }
        ensures ring { SameRing self.old self.new }
        ensures inlet { SameInlet inlet.old inlet.new }
    {
        inlet.taker.slots_beside(&mut self.giver)
    }

    /// Ends the lane, drops the sending end of its ring, and returns what its book holds.
    pub(crate) fn close(self) -> Leftover<RecordQueue>
        ensures leaves { Leaves (book self) result }
        ensures lawful { IsLawful (book self) }
        ensures bounded { (book self).setup.limits.queue ≤ 65536 }
    {
        let Desk {
            lane,
            number: _,
            limits: _,
            giver: _,
        } = self;
        lane.close()
    }
}
