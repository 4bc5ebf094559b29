//! The interface that a worker asks before each call, and to which it reports.

ghost use Rattle.std.specs.Prelude.{◌≡◌};
ghost use Rattle.rad_desk.specs.Reports.{note_of};

use locked_lanes::{DeskFault, Origin, Spent, Standing};
use rad_lane::Refusal;
use rad_realms::{Dropped, Endpoint};
use rad_tables::{Moment, Slot};

/// The worker that asks or reports.
#[derive(Clone, Copy, Debug, PartialEq, Eq)]
pub enum Worker {
    /// The worker of the clients' side.
    Front,
    /// The worker of the home server of this lane.
    Lane(u16),
}

/// A call that a worker is about to make.
#[derive(Clone, Copy, Debug, PartialEq, Eq)]
pub enum Call {
    /// Pass a request to its lane.
    Accept,
    /// Take a response from an inlet.
    Take,
    /// Pass a home server's datagram to its lane.
    Hear,
    /// Make a lane do its next step.
    Step,
    /// Remove what is over from the front of a lane's book.
    Turn,
}

/// Whether a worker goes on.
#[derive(Clone, Copy, Debug, PartialEq, Eq)]
pub enum Go {
    /// The worker makes the call.
    On,
    /// The worker makes no further call, and ends.
    Stop,
}

/// An event of a worker in short: what happened, and neither to which datagram nor with whom.
#[derive(Clone, Copy, Debug, PartialEq, Eq)]
pub enum Note {
    /// The datagram that the front received last was dropped, for this reason.
    Dropped(Dropped),
    /// The request that the front received last was refused, for this reason.
    Refused(Refusal),
    /// The datagram that a lane's worker received last was dropped, since its home server did not send it.
    NotHome,
    /// The datagram that a lane's worker received last from the home server was dropped, for this reason.
    Unheard(DeskFault),
    /// The home server is marked down from now on.
    WentDown,
    /// The home server is marked up from now on.
    WentUp,
    /// The response of this lane and serial was taken from the lane's ring, and its datagram was handed to the wire.
    Took(u16, u64),
    /// A receive failed.
    ReceiveFault,
    /// A send failed. The datagram is lost.
    SendFault,
    /// This number of requests was removed from the book, all of them over.
    Cut(u64),
}

/// Why a home server is marked up.
#[derive(Clone, Copy, Debug, PartialEq, Eq)]
pub enum UpReason {
    /// It answered a request.
    Answered,
    /// It answered the probe.
    ProbeAnswered,
    /// The time for which it is marked down is over, without an answer from it.
    DownWaitOver,
}

/// The state of the request that a repeat copies.
#[derive(Clone, Copy, Debug, PartialEq, Eq)]
pub enum Repeat {
    /// The request is unanswered.
    Waiting,
    /// The request was answered less than a span ago.
    Answered,
}

/// What a worker reports: an event, with all that belongs to it. The lane of an event on the home servers' side is the
/// worker's own.
#[derive(Clone, Copy)]
pub enum WorkerReport<'a> {
    /// A receive returned, with a datagram or without one. All that the worker does until its next receive counts as done
    /// at one time.
    Woke,
    /// A datagram was received from this address and port.
    Received {
        from: Endpoint,
        octets: &'a [u8],
    },
    /// A receive failed.
    ReceiveFault,
    /// A datagram is about to be sent to this address and port. If the gate asks for origins, a request to a home
    /// server has its own.
    Sends {
        to: Endpoint,
        octets: &'a [u8],
        origin: Option<&'a Origin>,
    },
    /// A datagram to this address and port could not be sent. It is lost.
    SendFault {
        to: Endpoint,
        octets: &'a [u8],
    },
    /// The front dropped a datagram that came from this address and port, for this reason.
    Dropped {
        reason: Dropped,
        from: Endpoint,
        octets: &'a [u8],
    },
    /// The front received, from this address and port, a request that leads to this lane and has this number of
    /// Proxy-States of this proxy's form, at least one: this proxy, or another one like it, sent the request before.
    Marked {
        lane: u16,
        from: Endpoint,
        marks: u64,
    },
    /// The front received a request for a lane, by the realm of this rank among those that lead to the lane.
    Requested {
        lane: u16,
        rank: usize,
    },
    /// The front received a request for a lane, by a realm that is in no row of the table of realms.
    RequestedUnlisted {
        lane: u16,
    },
    /// A lane accepted a new request of the front's under this number, so its worker has something to send.
    Accepted {
        lane: u16,
        number: u64,
        from: Endpoint,
        octets: &'a [u8],
    },
    /// A request that came to the front from this address and port is a repeat of a request in this state.
    Repeated {
        repeat: Repeat,
        from: Endpoint,
        octets: &'a [u8],
    },
    /// A request that came to the front from this address and port was refused, for this reason.
    Refused {
        reason: Refusal,
        from: Endpoint,
        octets: &'a [u8],
    },
    /// The response of this lane and serial was taken from the lane's ring, and its datagram was handed to the wire. It
    /// answers the request of this number of the client with this address, which was sent to the home server as this packet.
    Took {
        lane: u16,
        serial: u64,
        number: u64,
        client: [u8; 4],
        sent: &'a [u8],
    },
    /// A datagram to a lane's worker was dropped, since its home server did not send it.
    NotHome {
        from: Endpoint,
        octets: &'a [u8],
    },
    /// A datagram of the home server was dropped, for this reason. If the gate asks for origins, it has that of the
    /// request that was outstanding under the pair that it came to.
    Unheard {
        fault: DeskFault,
        octets: &'a [u8],
        origin: Option<&'a Origin>,
    },
    /// The request that was outstanding under this pair of source port and Identifier is answered. The response of this
    /// serial was added to the lane's ring, so the front has something to take. If the gate asks for origins, it has the
    /// request's.
    Answered {
        serial: u64,
        slot: Slot,
        origin: Option<&'a Origin>,
    },
    /// The standing of the lane at this moment, for which the gate asked. All that the lane has sent was reported before.
    Stands {
        moment: Moment,
        standing: Standing,
    },
    /// The lane's request of this number is about to be sent for the first time, under this pair of source port and
    /// Identifier.
    FirstSent {
        number: u64,
        slot: Slot,
    },
    /// The lane's request of this number is about to be sent again.
    SentAgain {
        number: u64,
    },
    /// The home server is marked down from now on, since this request is unanswered. If several requests are spent, it is
    /// the one with the earliest due time; ties go to the lowest number.
    WentDown(Option<&'a Spent>),
    /// The home server is marked up from now on, for this reason. No worker can report that an answer to a request marked
    /// it up: whoever saw that it was down learns that from [`WorkerReport::Answered`].
    WentUp(UpReason),
    /// This number of requests was removed from the book, all of them over.
    Cut(u64),
}

impl WorkerReport<'_> {
    /// Returns the note of the report, if its event is noted.
    pub fn note(&self) -> Option<Note>
        ensures { result ≡ note_of self.now }
    {
        match *self {
            WorkerReport::ReceiveFault => Some(Note::ReceiveFault),
            WorkerReport::SendFault { .. } => Some(Note::SendFault),
            WorkerReport::Dropped { reason, .. } => Some(Note::Dropped(reason)),
            WorkerReport::Refused { reason, .. } => Some(Note::Refused(reason)),
            WorkerReport::Took { lane, serial, .. } => Some(Note::Took(lane, serial)),
            WorkerReport::NotHome { .. } => Some(Note::NotHome),
            WorkerReport::Unheard { fault, .. } => Some(Note::Unheard(fault)),
            WorkerReport::WentDown(_) => Some(Note::WentDown),
            WorkerReport::WentUp(_) => Some(Note::WentUp),
            WorkerReport::Cut(count) => Some(Note::Cut(count)),
            WorkerReport::Woke
            | WorkerReport::Received { .. }
            | WorkerReport::Sends { .. }
            | WorkerReport::Marked { .. }
            | WorkerReport::Requested { .. }
            | WorkerReport::RequestedUnlisted { .. }
            | WorkerReport::Accepted { .. }
            | WorkerReport::Repeated { .. }
            | WorkerReport::Answered { .. }
            | WorkerReport::Stands { .. }
            | WorkerReport::FirstSent { .. }
            | WorkerReport::SentAgain { .. } => None,
        }
    }
}

/// What the worker of a lane is to report beside the events.
#[derive(Clone, Copy, Debug, PartialEq, Eq)]
pub struct Asked {
    /// Whether it reports the lane's standing.
    pub standing: bool,
    /// Whether its reports have the origins of requests.
    pub origins: bool,
}

/// The interface that a worker asks for permission before each call, and to which it reports. A gate that wants no more
/// than the notes leaves out [`Gate::report`]; one that wants all that is known of an event has it, and no
/// [`Gate::note`].
pub trait Gate {
    /// Returns whether a worker goes on to a call.
    fn before(&self, worker: Worker, call: Call) -> Go;

    /// A worker made a call.
    fn after(&self, worker: Worker, call: Call);

    /// A worker notes an event.
    fn note(&self, _worker: Worker, _note: Note) {}

    /// Returns what the worker of a lane is to report beside the events. The default is nothing.
    fn asks(&self, _lane: u16) -> Asked {
        Asked {
            standing: false,
            origins: false,
        }
    }

    /// Returns whether a lane may have a response for the front, which otherwise does not look for one. The default is that it
    /// may.
    fn may_have_response(&self, _lane: u16) -> bool {
        true
    }

    /// A worker reports an event. A worker makes no other report; the default passes on the note of it, if it has one.
    fn report(&self, worker: Worker, report: &WorkerReport<'_>) {
        if let Some(note) = report.note() {
            self.note(worker, note);
        }
    }
}
