//! The thread's ends of the two rings.

ghost use Rattle.std.specs.Prelude.{◌≡◌, ◌-◌, ◌^◌, min, length};
ghost use Rattle.rtrb.specs.Ring.{received};

use crate::parcel::Parcel;
use rtrb::Consumer;
use std::alloc::Global;

/// The thread's ends of the two rings. It takes what was put into them in the order in which it was put.
#[derive(Drop)]
pub(crate) struct SpoolOutlet {
    requests: Consumer<Parcel, Global>,
    responses: Consumer<Parcel, Global>,
    /// How many requests were taken.
    taken: u64,
    ghost counted: { taken ≡ min (length (received requests)) (2 ^ 64 - 1) },
}

impl SpoolOutlet {
    ghost use Rattle.std.specs.Prelude.{◌↔◌, [], IsTrue};
    ghost use Rattle.spool_writer.specs.Merging.{IsDue, Looks, Takes};

    /// Makes the ends of rings from which nothing was taken yet.
    pub(crate) fn new(
        requests: Consumer<Parcel, Global>,
        responses: Consumer<Parcel, Global>,
    ) -> SpoolOutlet
        requires { received requests ≡ [] }
        ensures { (result.requests ≡ requests) × (result.responses ≡ responses) }
    {
        SpoolOutlet {
            requests,
            responses,
            taken: 0,
        }
    }

    /// Looks how many requests there are, and then how many responses: so each response that was put before one of these
    /// requests is there. Returns how many parcels can be taken at most.
    pub(crate) fn look(&mut self) -> usize
        ensures { Looks self.old self.new }
    {
        let requests = self.requests.slots();
        requests.saturating_add(self.responses.slots())
    }

    /// Takes the parcel that was put first, if there is one that was seen.
    pub(crate) fn take(&mut self) -> Option<Parcel>
        ensures { Takes self.old result self.new }
    {
        if self.is_response_next() {
            return Some(self.responses.pop_known());
        }
        if self.requests.cached_slots() == 0 {
            return None;
        }
        self.taken = self.taken.saturating_add(1);
        Some(self.requests.pop_known())
    }

    /// Returns whether a response is there before which no more requests were put than were taken.
    fn is_response_next(&self) -> bool
        ensures due { IsTrue result ↔ IsDue self.now }
    {
        self.responses.cached_slots() > 0 && self.responses.peek_known().before <= self.taken
    }
}
