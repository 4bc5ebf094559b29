//! The metrics that count events.

ghost use Rattle.std.specs.Prelude.{◌≡◌, IfSome};
ghost use Rattle.rad_metrics.specs.Reasons.{reason_place};

use crate::reason::Reason;
use rad_desk::{DeskFault, Repeat, UpReason};
use rad_lane::{HEAR_FAULTS, REFUSALS};
use rad_realms::{DROPPED, Dropped};

/// A metric that counts events: of the workers, or of each client. [`metrics`](crate::metrics) has its help text.
#[derive(Clone, Copy, PartialEq, Eq)]
pub enum Counted {
    Dropped,
    Refused,
    Unheard,
    SendFaults,
    ReceiveFaults,
    WentDown,
    Sent,
    Probed,
    Cut,
    Marked,
    ClientReceived,
    ClientAccepted,
    ClientRepeats,
    ClientResponses,
    ClientRefused,
    ClientDropped,
    WentUp,
}

const REPEATS: &[Repeat] = &[Repeat::Waiting, Repeat::Answered];

const UP_REASONS: &[UpReason] = &[
    UpReason::Answered,
    UpReason::ProbeAnswered,
    UpReason::DownWaitOver,
];

impl Counted {
    /// Returns the number of reasons by which the events of the metric differ.
    pub fn width(self) -> usize {
        match self {
            Counted::Dropped | Counted::ClientDropped => DROPPED.len(),
            Counted::Refused | Counted::ClientRefused => REFUSALS.len(),
            Counted::Unheard => HEAR_FAULTS.len() + 2,
            Counted::ClientRepeats => REPEATS.len(),
            Counted::WentUp => UP_REASONS.len(),
            _ => 1,
        }
    }

    /// Returns the reason at a place among those of the metric. No datagram of a client is dropped since it came from no
    /// client.
    pub fn reason_at(self, place: usize) -> Option<Reason>
        ensures { IfSome result (λ reason. reason_place reason ≡ place) }
    {
        match self {
            Counted::ClientDropped if place == Dropped::UnknownClient.place() => None,
            Counted::Dropped | Counted::ClientDropped => Some(Reason::Dropped(*DROPPED.get(
                place,
            )?)),
            Counted::Refused | Counted::ClientRefused => Some(Reason::Refused(*REFUSALS.get(
                place,
            )?)),
            Counted::Unheard => unheard_at(place),
            Counted::ClientRepeats => Some(Reason::Repeat(*REPEATS.get(place)?)),
            Counted::WentUp => Some(Reason::Up(*UP_REASONS.get(place)?)),
            _ => (place == 0).then_some(Reason::None),
        }
    }

    /// Returns whether the metric counts the events of each client.
    pub(crate) fn is_of_clients(self) -> bool {
        matches!(
            self,
            Counted::ClientReceived
                | Counted::ClientAccepted
                | Counted::ClientRepeats
                | Counted::ClientResponses
                | Counted::ClientRefused
                | Counted::ClientDropped
        )
    }

    /// Returns whether the metric counts the events of the front.
    pub(crate) fn is_of_front(self) -> bool {
        matches!(
            self,
            Counted::Dropped | Counted::Refused | Counted::SendFaults | Counted::ReceiveFaults
        )
    }

    /// Returns whether the metric, which counts the events of workers, counts those of each lane's.
    pub(crate) fn is_of_lanes(self) -> bool {
        !matches!(self, Counted::Dropped | Counted::Refused)
    }
}

fn unheard_at(place: usize) -> Option<Reason>
    ensures { IfSome result (λ reason. reason_place reason ≡ place) }
{
    match place {
        0 => Some(Reason::NotHome),
        1 => Some(Reason::Unheard(DeskFault::RingFull)),
        place => Some(Reason::Unheard(DeskFault::Lane(*HEAR_FAULTS.get(place - 2)?))),
    }
}
