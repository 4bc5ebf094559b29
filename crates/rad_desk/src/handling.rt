//! What a checked datagram of a NAS leads to: it is passed to the lane of its realm, or answered.

ghost use Rattle.std.specs.Prelude.{◌≡◌, List, [], ◌∷◌, ◌++◌};
ghost use Rattle.std.specs.Borrow.{ftrue};
ghost use Rattle.rad_lane.specs.Datagrams.{Datagrams};
ghost use Rattle.rad_desk.specs.Handling.{Handles, Outcome, outcome_of};

use locked_lanes::Proxy;
use rad_auth::answer_status;
use rad_lane::{Refusal, Taken};
use rad_packet::Datagram;
use rad_realms::Incoming;
use rad_tables::Moment;
use std::alloc::Global;
use std::marker::Model;
use std::sync::Wait;

/// The result of a checked datagram of a NAS.
#[derive(Clone, Copy, Debug, PartialEq, Eq)]
pub enum Handled {
    /// It is an Accounting-Request. The lane of this number took it like this.
    Taken(u16, Taken),
    /// It is a Status-Server. What is written answers it.
    Answered,
}

/// When a datagram was handled, and the result.
#[derive(Clone, Copy, Debug, PartialEq, Eq)]
pub struct Handling {
    /// The moment that the lane was told.
    pub moment: Moment,
    /// What the datagram led to, or why its lane refuses it.
    pub result: Result<Handled, Refusal>,
}

/// What the front tells what each datagram of a NAS led to that passed the checks.
///
/// Contracts see it as the list of what it was told so far, in order.
pub trait Entrance {
    ghost outcomes: { Self → List Outcome };

    /// Is told what a datagram led to that came to the socket of this index, right after the datagram was handled, and
    /// before anything is sent for it. It may wait for room, for a second at most, and for nothing else.
    fn tell(&mut self, socket: u16, asked: &Incoming<'_>, handling: &Handling)
        ensures { outcomes self.new ≡ outcomes self.old ++ outcome_of asked.now handling.now ∷ [] };
}

/// The list of the datagrams of NASes that were handled: what each of them led to, in order. Only clauses see it, and it
/// takes no memory. As an [`Entrance`] it keeps nothing else.
#[derive(Drop)]
pub struct Outcomes {
    pub ghost outcomes: { List Outcome },
}

impl Model for Outcomes {
    ghost also_owns = { λ _. ftrue };
}

// It owns nothing.
unsafe impl Send for Outcomes {}

impl Outcomes {
    /// Makes an empty list.
    pub fn new() -> Outcomes
        ensures { result.outcomes ≡ [] }
    {
        Outcomes {}
    }

    /// Adds what a datagram led to.
    pub fn add(&mut self, asked: &Incoming<'_>, handling: &Handling)
        ensures { self.new.outcomes ≡ self.old.outcomes ++ outcome_of asked.now handling.now ∷ [] }
    {
        *self = Outcomes::with(self, asked, handling);
    }

    fn with(_before: &Outcomes, _asked: &Incoming<'_>, _handling: &Handling) -> Outcomes
        ensures { result.outcomes ≡ _before.now.outcomes ++ outcome_of _asked.now _handling.now ∷ [] }
    {
        Outcomes {}
    }
}

impl Entrance for Outcomes {
    ghost outcomes = { λ list. list.outcomes };

    fn tell(&mut self, _socket: u16, asked: &Incoming<'_>, handling: &Handling) {
        self.add(asked, handling);
    }
}

/// Passes a NAS's request to the lane of its realm, or answers its Status-Server. What is to be sent to the NAS is
/// written to `written`. For a request, that is the response to a repeat of a request that was answered less than a
/// span ago and that the lane still holds.
///
/// # Errors
///
/// The reason for which the request's lane refuses it. Then nothing is written.
pub fn handle(
    rt: &impl Wait,
    alloc: Global,
    proxy: &Proxy,
    incoming: &Incoming<'_>,
    moment: Moment,
    written: &mut Datagram,
) -> Result<Handled, Refusal>
    ensures { Handles incoming.now moment proxy.now result (record { before = written.old; after = written.new }) }
{
    match incoming {
        Incoming::Request(request) => {
            let taken = proxy.accept(rt, alloc, request, moment, written)?;
            Ok(Handled::Taken(request.lane(), taken))
        }
        Incoming::Status(status) => {
            answer_status(status.packet(), status.secret(), written);
            Ok(Handled::Answered)
        }
    }
}
