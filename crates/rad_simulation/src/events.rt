//! The events of a call of a worker: each call of its wire and of its gate.

use rad_desk::{Call, DeskFault, Go, Repeat, UpReason, WorkerReport};
use rad_lane::Refusal;
use rad_realms::{Dropped, Endpoint};
use rad_tables::{Key, Slot};
use std::alloc::{AllocError, Global};

/// The result of a receive.
#[derive(Drop)]
pub enum Came {
    /// A datagram.
    Datagram(Mail),
    /// Nothing.
    Nothing,
    /// A failure of the receive.
    Fault,
}

/// A datagram on its way.
#[derive(Drop)]
pub struct Mail {
    /// The endpoint that sent it.
    pub from: Endpoint,
    /// The index of the socket at which it arrives.
    pub socket: u16,
    pub octets: Vec<u8>,
}

impl Mail {
    /// Returns a copy.
    pub fn copy(&self, alloc: Global) -> Result<Mail, AllocError> {
        Ok(Mail {
            from: self.from,
            socket: self.socket,
            octets: self.octets.to_vec(alloc)?,
        })
    }
}

/// A datagram that was sent.
#[derive(Drop)]
pub struct Gone {
    /// The index of the socket from which it was sent.
    pub socket: u16,
    pub to: Endpoint,
    pub octets: Vec<u8>,
    /// Whether it was handed over. If not, the send failed.
    pub is_handed_over: bool,
}

/// What a gate is asked, or what is reported to it, without octets.
#[derive(Clone, Copy, PartialEq, Eq)]
pub enum Sign {
    /// The gate is asked before a call.
    Before(Call, Go),
    /// The gate is notified that a call was made.
    After(Call),
    Woke,
    Received(Endpoint),
    ReceiveFault,
    Sends(Endpoint),
    SendFault(Endpoint),
    Dropped(Dropped, Endpoint),
    Marked(u16, Endpoint, u64),
    Accepted(u16, u64, Endpoint),
    Repeated(Repeat, Endpoint),
    Requested(u16, usize),
    RequestedUnlisted(u16),
    Refused(Refusal, Endpoint),
    Took(u16, u64),
    NotHome(Endpoint),
    Unheard(DeskFault),
    Answered(u64, Slot),
    Stands,
    FirstSent(u64, Slot),
    SentAgain(u64),
    WentDown,
    WentUp(UpReason),
    Cut(u64),
    /// The gate is asked, or something is reported to it, in the name of another worker.
    OfAnother,
}

impl Sign {
    /// Returns a report without its octets, and without the request that marked a home server down.
    pub fn of(report: &WorkerReport<'_>) -> Sign {
        match *report {
            WorkerReport::Woke => Sign::Woke,
            WorkerReport::Received { from, .. } => Sign::Received(from),
            WorkerReport::ReceiveFault => Sign::ReceiveFault,
            WorkerReport::Sends { to, .. } => Sign::Sends(to),
            WorkerReport::SendFault { to, .. } => Sign::SendFault(to),
            WorkerReport::Dropped { reason, from, .. } => Sign::Dropped(reason, from),
            WorkerReport::Marked { lane, from, marks } => Sign::Marked(lane, from, marks),
            WorkerReport::Accepted {
                lane,
                number,
                from,
                ..
            } => Sign::Accepted(lane, number, from),
            WorkerReport::Repeated { repeat, from, .. } => Sign::Repeated(repeat, from),
            WorkerReport::Requested { lane, rank } => Sign::Requested(lane, rank),
            WorkerReport::RequestedUnlisted { lane } => Sign::RequestedUnlisted(lane),
            WorkerReport::Refused { reason, from, .. } => Sign::Refused(reason, from),
            WorkerReport::Took { lane, serial, .. } => Sign::Took(lane, serial),
            WorkerReport::NotHome { from, .. } => Sign::NotHome(from),
            WorkerReport::Unheard { fault, .. } => Sign::Unheard(fault),
            WorkerReport::Answered { serial, slot, .. } => Sign::Answered(serial, slot),
            WorkerReport::Stands { .. } => Sign::Stands,
            WorkerReport::FirstSent { number, slot } => Sign::FirstSent(number, slot),
            WorkerReport::SentAgain { number } => Sign::SentAgain(number),
            WorkerReport::WentDown(_) => Sign::WentDown,
            WorkerReport::WentUp(reason) => Sign::WentUp(reason),
            WorkerReport::Cut(count) => Sign::Cut(count),
        }
    }
}

/// Returns the octets of a report, or none if it has none.
pub fn octets_of<'a>(report: &WorkerReport<'a>) -> &'a [u8] {
    match *report {
        WorkerReport::Received { octets, .. }
        | WorkerReport::Sends { octets, .. }
        | WorkerReport::Dropped { octets, .. }
        | WorkerReport::Accepted { octets, .. }
        | WorkerReport::Repeated { octets, .. }
        | WorkerReport::Refused { octets, .. }
        | WorkerReport::NotHome { octets, .. }
        | WorkerReport::Unheard { octets, .. } => octets,
        _ => &[],
    }
}

/// The request that marked a home server down, as it is reported to the gate.
#[derive(Drop)]
pub struct DownBy {
    pub number: u64,
    pub client: Endpoint,
    pub session: Option<Vec<u8>>,
    pub age: u64,
}

/// A response that the front hands over to the spool.
#[derive(Drop)]
pub struct Keeping {
    /// The key of the request that it answers.
    pub key: Key,
    pub response: Vec<u8>,
    /// How many milliseconds had passed since the beginning.
    pub passed: u64,
}

/// One call of a wire or of a gate, or of a ledger.
#[derive(Drop)]
pub enum TraceEvent {
    /// The wire returned this from a receive, and from then on it is this moment.
    Received(u64, Came),
    /// The wire drew these octets.
    Drew([u8; 16]),
    /// The wire sent this.
    Went(Gone),
    /// The gate was asked or notified of this, with these octets.
    Signed(Sign, Vec<u8>),
    /// The gate was notified that the home server is marked down, by this request.
    WentDown(Option<DownBy>),
    /// The ledger was given this.
    Kept(Keeping),
}
