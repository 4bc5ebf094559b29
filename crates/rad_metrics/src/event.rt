//! Which events are counted of what the workers report, and of whom.

ghost use Rattle.std.specs.Prelude.{◌≡◌};
ghost use Rattle.rad_metrics.specs.Events.{plain, event_of, sent_metric, client_event_of, peer_of, row_of, worker_place};

use crate::counted::Counted;
use crate::reason::Reason;
use rad_desk::{Worker, WorkerReport as Report};
use rad_realms::{Dropped, Endpoint};

/// A report of a worker, and as what it is counted.
#[derive(Clone, Copy)]
pub struct Classified<'a> {
    pub worker: Worker,
    pub report: &'a Report<'a>,
    /// The row of the worker or lane that it is about.
    pub row: usize,
    /// The event as which it is counted for that worker or lane.
    pub event: Option<CountedEvent>,
    /// The address and port of the other end of what is reported.
    pub peer: Option<Endpoint>,
}

impl<'a> Classified<'a> {
    /// Classifies a report of a worker.
    pub fn of(worker: Worker, report: &'a Report<'a>) -> Classified<'a>
        ensures row { result.row ≡ row_of worker report.now }
        ensures event { result.event ≡ event_of report.now }
        ensures peer { result.peer ≡ peer_of report.now }
    {
        Classified {
            worker,
            report,
            row: row_of_report(worker, report),
            event: CountedEvent::of(report),
            peer: peer_of_report(report),
        }
    }
}

/// An event that is counted: the metric that counts it, and the reason by which it differs from others there.
#[derive(Clone, Copy)]
pub struct CountedEvent {
    pub metric: Counted,
    pub reason: Reason,
}

impl CountedEvent {
    /// Makes an event of a metric whose events do not differ.
    pub fn plain(metric: Counted) -> CountedEvent
        ensures { result ≡ plain metric }
    {
        let reason = Reason::None;
        CountedEvent { metric, reason }
    }

    fn of(report: &Report<'_>) -> Option<CountedEvent>
        ensures { result ≡ event_of report.now }
    {
        let (metric, reason) = match *report {
            Report::Sends { octets, .. } => (sent_as(octets.first().copied())?, Reason::None),
            Report::SendFault { .. } => (Counted::SendFaults, Reason::None),
            Report::ReceiveFault => (Counted::ReceiveFaults, Reason::None),
            Report::Dropped { reason, .. } => (Counted::Dropped, Reason::Dropped(reason)),
            Report::Refused { reason, .. } => (Counted::Refused, Reason::Refused(reason)),
            Report::NotHome { .. } => (Counted::Unheard, Reason::NotHome),
            Report::Unheard { fault, .. } => (Counted::Unheard, Reason::Unheard(fault)),
            Report::WentDown(_) => (Counted::WentDown, Reason::None),
            Report::WentUp(reason) => (Counted::WentUp, Reason::Up(reason)),
            Report::Cut(_) => (Counted::Cut, Reason::None),
            Report::Marked { .. } => (Counted::Marked, Reason::None),
            _ => return None,
        };
        Some(CountedEvent { metric, reason })
    }

    /// Returns the event as which a report of the front is counted for the client that it is about. A datagram that is
    /// dropped since it came from no client is counted for none.
    pub(crate) fn of_client(report: &Report<'_>) -> Option<CountedEvent>
        ensures { result ≡ client_event_of report.now }
    {
        let (metric, reason) = match *report {
            Report::Received { .. } => (Counted::ClientReceived, Reason::None),
            Report::Accepted { .. } => (Counted::ClientAccepted, Reason::None),
            Report::Repeated { repeat, .. } => (Counted::ClientRepeats, Reason::Repeat(repeat)),
            Report::Sends { .. } => (Counted::ClientResponses, Reason::None),
            Report::Refused { reason, .. } => (Counted::ClientRefused, Reason::Refused(reason)),
            Report::Dropped {
                reason: Dropped::UnknownClient,
                ..
            } => return None,
            Report::Dropped { reason, .. } => (Counted::ClientDropped, Reason::Dropped(reason)),
            _ => return None,
        };
        Some(CountedEvent { metric, reason })
    }
}

fn sent_as(code: Option<u8>) -> Option<Counted>
    ensures { result ≡ sent_metric code }
{
    match code {
        Some(4) => Some(Counted::Sent),
        Some(12) => Some(Counted::Probed),
        _ => None,
    }
}

fn peer_of_report(report: &Report<'_>) -> Option<Endpoint>
    ensures { result ≡ peer_of report.now }
{
    match *report {
        Report::Received { from, .. }
        | Report::Dropped { from, .. }
        | Report::Marked { from, .. }
        | Report::Accepted { from, .. }
        | Report::Repeated { from, .. }
        | Report::Refused { from, .. }
        | Report::NotHome { from, .. } => Some(from),
        Report::Sends { to, .. } | Report::SendFault { to, .. } => Some(to),
        _ => None,
    }
}

fn row_of_report(worker: Worker, report: &Report<'_>) -> usize
    ensures { result ≡ row_of worker report.now }
{
    match *report {
        Report::Marked { lane, .. } | Report::Accepted { lane, .. } | Report::Took { lane, .. } =>
            worker_row(Worker::Lane(lane)),
        _ => worker_row(worker),
    }
}

/// Returns the row of a worker: 0 is the front's, then come the lanes in order.
pub fn worker_row(worker: Worker) -> usize
    ensures { result ≡ worker_place worker }
{
    match worker {
        Worker::Front => 0,
        Worker::Lane(lane) => usize::from(lane) + 1,
    }
}
