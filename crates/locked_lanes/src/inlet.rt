//! The receiving end of a lane's ring.

ghost use Rattle.std.specs.Prelude.{◌≡◌, length};
ghost use Rattle.rtrb.specs.Ring.{received};
ghost use Rattle.rad_lane.specs.Outgoing.{InOrder};
ghost use Rattle.locked_lanes.specs.Outlet.{count_to};
ghost use Rattle.locked_lanes.specs.Fates.{EachOnce};

use crate::numbered::Numbered;
use rad_lane::Outgoing;
use rtrb::Consumer;
use std::alloc::{AllocError, Global};

/// The end of a lane's ring from which the front takes responses.
///
/// Its type guarantees, whatever other threads do, that the responses taken have the serials 0, 1, 2 and so on, and that
/// no two of them answer one request.
#[derive(Drop)]
pub struct Inlet {
    /// The number of the lane.
    lane: u16,
    pub(crate) taker: Consumer<Outgoing, Global, Numbered>,
    /// The serial of the response that was taken last. By the order of the ring it is how many were taken before it, so
    /// no count is kept that could exceed its type.
    last: Option<u64>,
    /// The room for the responses that are left at the end. It is allocated when it is needed.
    room: Option<Vec<Outgoing>>,
    ghost in_order: { InOrder (received taker) },
    ghost once: { EachOnce (received taker) },
    ghost counted: { length (received taker) ≡ count_to last },
}

impl Inlet {
    ghost use Rattle.std.specs.Prelude.{◌≡◌, ◌<◌, ◌↔◌, ◌∷◌, ◌++◌, [], length, IsTrue, IsSome, IfSome, IfNone, OnOk};
    ghost use mathlib.Core.List.{IsPrefix};
    ghost use Rattle.rad_lane.specs.Outgoing.{InOrder};
    ghost use Rattle.locked_lanes.specs.Fates.{AnswersARecord, EachOnce};
    ghost use Rattle.locked_lanes.specs.Inlet.{lane_of, taken, seen, SameInlet, IsUntouched, HasRoom, Empties};

    /// Makes an inlet that has taken nothing yet.
    pub(crate) fn new(lane: u16, taker: Consumer<Outgoing, Global, Numbered>) -> Inlet
        requires { received taker ≡ [] }
        ensures lane { lane_of result ≡ lane }
        ensures taker { result.taker ≡ taker }
    {
        Inlet {
            lane,
            taker,
            last: None,
            room: None,
        }
    }

    /// Returns the number of the lane.
    pub fn lane(&self) -> u16
        ensures { result ≡ lane_of self.now }
    {
        self.lane
    }

    /// Takes the next response, if there is one. It takes no lock and waits for nothing.
    pub fn take(&mut self) -> Option<Outgoing>
        ensures some { IfSome result (λ response. taken self.new ≡ taken self.old ++ response ∷ []) }
        ensures none { IfNone result (taken self.new ≡ taken self.old) }
        ensures nothing { IfNone result (seen self.new ≡ []) }
        ensures serial { IfSome result (λ response. response.serial ≡ length (taken self.old)) }
        ensures seen { IfSome result (λ response. IsPrefix (seen self.old) (response ∷ seen self.new)) }
        ensures succeeds { 0 < length (seen self.old) → IsSome result }
        ensures same { SameInlet self.old self.new }
        ensures in_order { InOrder (taken self.new) }
        ensures once { EachOnce (taken self.new) }
        ensures answers { IfSome result AnswersARecord }
    {
        match self.taker.pop() {
            Ok(response) => {
                self.last = Some(response.serial);
                Some(response)
            }
            Err(_) => None,
        }
    }

    /// Returns whether the inlet took exactly `count` responses.
    pub(crate) fn has_taken(&self, count: u64) -> bool
        ensures { IsTrue result ↔ (length (taken self.now) ≡ count) }
    {
        match self.last {
            Some(serial) => count > 0 && serial == count - 1,
            None => count == 0,
        }
    }

    /// Allocates room for as many responses as the ring can hold. `close` does so for each inlet before it takes any
    /// desk out of its lock, so that there is nothing to undo if memory is refused.
    ///
    /// # Errors
    ///
    /// `AllocError` if memory is refused.
    pub(crate) fn make_room(&mut self, alloc: Global) -> Result<(), AllocError>
        ensures untouched { IsUntouched self.old self.new }
        ensures room { OnOk result (HasRoom self.new) }
    {
        self.room = Some(Vec::with_capacity(alloc, self.taker.capacity())?);
        Ok(())
    }

    /// Takes all responses that are left, into the room that was allocated for them.
    pub(crate) fn empty(&mut self) -> Vec<Outgoing>
        requires { HasRoom self.old }
        ensures { Empties self.old result.items self.new }
    {
        let mut rest = self.room.take().unwrap();
        for _ in 0..self.taker.capacity() {
            match self.take() {
                Some(response) => rest.push_reserved(response),
                None => return rest,
            }
        }
        rest
    }
}
