//! The front's ends of the two rings, with what was told and handed over.

ghost use Rattle.std.specs.Prelude.{◌≡◌, ◌∷◌, ◌++◌, [], ⊤, false, IsTrue, MatchBool, MatchOption, IfSome};
ghost use Rattle.rtrb.specs.Ring.{sent};
ghost use Rattle.rad_desk.specs.Handling.{outcome_of};
ghost use Rattle.rad_desk.specs.HandOver.{handed_at};
ghost use Rattle.spool_writer.specs.Parcels.{IsAnsweredOf, IsCameOf, IsPutInto, New, news_of};

use crate::parcel::Parcel;
use crate::room::wait_for_room;
use crate::state::SpoolState;
use rad_desk::{Handed, Handling, Outcomes, Wire};
use rad_lane::Outgoing;
use rad_realms::Incoming;
use rtrb::Producer;
use spool_files::{Answered, Came, Head};
use std::alloc::Global;
use std::marker::Model;
use std::sync::Arc;
use std::time::Clock;

/// The end of the ring of requests, with the list of what the front was told.
///
/// Its type guarantees that each request that a lane took as new was put into the ring as its parcel or lost, in order, and
/// that nothing else was put there.
#[derive(Drop)]
pub(crate) struct RequestGiver {
    ring: Producer<Parcel, Global>,
    outcomes: Outcomes,
}

impl Model for RequestGiver {
    ghost use Rattle.rtrb.specs.Ring.{sent};
    ghost use Rattle.spool_writer.specs.Accounted.{AreEntered, Entered};

    ghost Value = { Entered };

    ghost view = { λ g. record { put = sent g.ring; outcomes = g.outcomes.outcomes } };

    ghost invariant = { λ g. AreEntered (record { put = sent g.ring; outcomes = g.outcomes.outcomes }) };
}

impl RequestGiver {
    /// Makes the end of a ring into which nothing was put yet.
    pub(crate) fn new(ring: Producer<Parcel, Global>) -> RequestGiver
        requires { sent ring ≡ [] }
        ensures { result ≡ record { put = []; outcomes = [] } }
    {
        RequestGiver {
            ring,
            outcomes: Outcomes::new(),
        }
    }

    /// Notes what a datagram led to that no lane took as new.
    pub(crate) fn note(&mut self, asked: &Incoming<'_>, handling: &Handling)
        requires { news_of (outcome_of asked.now handling.now) ≡ [] }
        ensures outcomes { self.new.outcomes ≡ self.old.outcomes ++ outcome_of asked.now handling.now ∷ [] }
        ensures put { self.new.put ≡ self.old.put }
    {
        self.outcomes.add(asked, handling);
    }

    /// Waits for room as [`wait_for_room`] does.
    pub(crate) fn wait<R: Clock>(&mut self, clock: &R, state: &SpoolState)
        ensures { self.new ≡ self.old }
    {
        wait_for_room(&mut self.ring, clock, state);
    }

    /// Puts the parcel of a request that a lane took as new into the ring, if there is one and there is room for it, and
    /// returns whether it did.
    pub(crate) fn give(
        &mut self,
        asked: &Incoming<'_>,
        handling: &Handling,
        parcel: Option<Parcel>,
    ) -> bool
        requires { (its : New) × (news_of (outcome_of asked.now handling.now) ≡ its ∷ []) × MatchOption parcel ⊤ (IsCameOf its) }
        ensures outcomes { self.new.outcomes ≡ self.old.outcomes ++ outcome_of asked.now handling.now ∷ [] }
        ensures put { MatchBool result (IfSome parcel (λ p. self.new.put ≡ self.old.put ++ p ∷ [])) (self.new.put ≡ self.old.put) }
    {
        self.outcomes.add(asked, handling);
        let Some(parcel) = parcel else {
            return false;
        };
        if self.ring.is_full() {
            return false;
        }
        self.ring.push_reserved(parcel);
        true
    }
}

/// The end of the ring of responses, with the list of what was handed over.
///
/// Its type guarantees that each response that was handed over was put into the ring as its parcel or lost, in order, and that
/// nothing else was put there.
#[derive(Drop)]
pub(crate) struct ResponseGiver {
    ring: Producer<Parcel, Global>,
    handed: Handed,
}

impl Model for ResponseGiver {
    ghost use Rattle.rtrb.specs.Ring.{sent};
    ghost use Rattle.spool_writer.specs.Accounted.{AreKept, Kept};

    ghost Value = { Kept };

    ghost view = { λ g. record { put = sent g.ring; handed = g.handed.responses } };

    ghost invariant = { λ g. AreKept (record { put = sent g.ring; handed = g.handed.responses }) };
}

impl ResponseGiver {
    /// Makes the end of a ring into which nothing was put yet.
    pub(crate) fn new(ring: Producer<Parcel, Global>) -> ResponseGiver
        requires { sent ring ≡ [] }
        ensures { result ≡ record { put = []; handed = [] } }
    {
        ResponseGiver {
            ring,
            handed: Handed::new(),
        }
    }

    /// Waits for room as [`wait_for_room`] does.
    pub(crate) fn wait<R: Clock>(&mut self, clock: &R, state: &SpoolState)
        ensures { self.new ≡ self.old }
    {
        wait_for_room(&mut self.ring, clock, state);
    }

    /// Puts the parcel of a response into the ring, if there is one and there is room for it, and returns whether it did.
    pub(crate) fn give<W: Wire>(
        &mut self,
        outgoing: &Outgoing,
        wire: &W,
        parcel: Option<Parcel>,
    ) -> bool
        requires { MatchOption parcel ⊤ (IsAnsweredOf outgoing.now) }
        ensures handed { self.new.handed ≡ self.old.handed ++ handed_at (W.log wire.now) outgoing.now ∷ [] }
        ensures put { MatchBool result (IfSome parcel (λ p. self.new.put ≡ self.old.put ++ p ∷ [])) (self.new.put ≡ self.old.put) }
    {
        self.handed.add(outgoing, wire);
        let Some(parcel) = parcel else {
            return false;
        };
        if self.ring.is_full() {
            return false;
        }
        self.ring.push_reserved(parcel);
        true
    }
}

/// The ends of the rings of a writer that has no front, into which entries are put one by one.
#[derive(Drop)]
pub struct EntryGiver {
    alloc: Global,
    requests: Producer<Parcel, Global>,
    responses: Producer<Parcel, Global>,
    state: Arc<SpoolState>,
}

impl EntryGiver {
    ghost use Rattle.spool_files.specs.declared.entry.Head.TheVariants as heads;

    /// Makes the ends of these rings.
    pub(crate) fn new(
        alloc: Global,
        requests: Producer<Parcel, Global>,
        responses: Producer<Parcel, Global>,
        state: Arc<SpoolState>,
    ) -> EntryGiver
        ensures { (result.requests ≡ requests) × (result.responses ≡ responses) }
    {
        EntryGiver {
            alloc,
            requests,
            responses,
            state,
        }
    }

    /// Puts the entry of a request with this text into the ring of requests, and returns whether it did. It does not if the text is
    /// too short or too long for a request, if memory is refused, or if there is no room. Then the request is counted as lost.
    pub fn give_request(&mut self, came: Came, text: &[u8]) -> bool
        ensures put { IsTrue result → IsPutInto (heads.Came came) text.now (sent self.old.requests) (sent self.new.requests) }
        ensures same { result ≡ false → sent self.new.requests ≡ sent self.old.requests }
        ensures others { sent self.new.responses ≡ sent self.old.responses }
    {
        if self.put_request(Head::Came(came), text) {
            self.state.count_put();
            return true;
        }
        self.state.count_lost_request();
        false
    }

    fn put_request(&mut self, head: Head, text: &[u8]) -> bool
        ensures put { IsTrue result → IsPutInto head text.now (sent self.old.requests) (sent self.new.requests) }
        ensures same { result ≡ false → sent self.new.requests ≡ sent self.old.requests }
        ensures others { sent self.new.responses ≡ sent self.old.responses }
    {
        put_entry_into(&mut self.requests, self.alloc, head, text, self.state.put())
    }

    /// Puts the entry of a response into the ring of responses as [`EntryGiver::give_request`] does.
    pub fn give_answer(&mut self, answered: Answered, text: &[u8]) -> bool
        ensures put { IsTrue result → IsPutInto (heads.Answered answered) text.now (sent self.old.responses) (sent self.new.responses) }
        ensures same { result ≡ false → sent self.new.responses ≡ sent self.old.responses }
        ensures others { sent self.new.requests ≡ sent self.old.requests }
    {
        if self.put_answer(Head::Answered(answered), text) {
            return true;
        }
        self.state.count_lost_response();
        false
    }

    fn put_answer(&mut self, head: Head, text: &[u8]) -> bool
        ensures put { IsTrue result → IsPutInto head text.now (sent self.old.responses) (sent self.new.responses) }
        ensures same { result ≡ false → sent self.new.responses ≡ sent self.old.responses }
        ensures others { sent self.new.requests ≡ sent self.old.requests }
    {
        put_entry_into(
            &mut self.responses,
            self.alloc,
            head,
            text,
            self.state.put(),
        )
    }
}

/// Puts the parcel of an entry into a ring, if it has such a text, memory is had for it, and there is room.
fn put_entry_into(
    ring: &mut Producer<Parcel, Global>,
    alloc: Global,
    head: Head,
    text: &[u8],
    before: u64,
) -> bool
    ensures put { IsTrue result → IsPutInto head text.now (sent ring.old) (sent ring.new) }
    ensures same { result ≡ false → sent ring.new ≡ sent ring.old }
{
    let Some(parcel) = Parcel::of_entry(alloc, head, text, before) else {
        return false;
    };
    if ring.is_full() {
        return false;
    }
    ring.push_reserved(parcel);
    true
}
