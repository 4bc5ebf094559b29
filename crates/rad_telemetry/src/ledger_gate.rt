//! The gate that also tells the ledger how requests are handled, and the spool which lanes have room.

ghost use Rattle.std.specs.Prelude.{◌≡◌};

use crate::telemetry::Telemetry;
use ledger_state::LedgerState;
use rad_desk::{Asked, Call, Gate, Go, Worker, WorkerReport};
use rad_log::Log;
use rad_metrics::time_since_1970;
use rad_realms::Endpoint;
use rad_server::{PortsFault, SocketReports};
use spool_writer::OfferNotes;
use std::io::Error;
use std::sync::Wait;
use std::time::Clock;

/// Counts and logs what the workers do, and tells the ledger, if there is one, when each request is accepted, each time that
/// it is sent, and which responses could not be sent. Tells the spool, if there is one, when a queue or a book is shorter.
#[derive(Drop)]
pub struct LedgerGate<'a, L, R> {
    pub(crate) rt: &'a R,
    pub(crate) telemetry: &'a Telemetry<'a, L, R>,
    pub(crate) ledger: Option<&'a LedgerState>,
    pub(crate) notes: Option<&'a OfferNotes>,
}

impl<L: Log, R: Clock> Gate for LedgerGate<'_, L, R> {
    fn before(&self, worker: Worker, call: Call) -> Go {
        self.telemetry.before(worker, call)
    }

    fn after(&self, worker: Worker, call: Call) {
        self.telemetry.after(worker, call);
    }

    fn asks(&self, lane: u16) -> Asked {
        self.telemetry.asks(lane)
    }

    fn report(&self, worker: Worker, report: &WorkerReport<'_>) {
        if let Some(ledger) = self.ledger {
            tell(self.rt, ledger, worker, report);
        }
        if let Some(notes) = self.notes {
            notes.see(worker, report);
        }
        self.telemetry.report(worker, report);
    }
}

impl<L: Log, R: Wait> SocketReports for LedgerGate<'_, L, R> {
    fn bound(&self, worker: Worker, place: usize, at: Endpoint, buffer: u32) {
        self.telemetry.bound(worker, place, at, buffer);
    }

    fn unbound(&self, at: Endpoint, tried: u32, error: &Error) {
        self.telemetry.unbound(at, tried, error);
    }

    fn ports_tried(&self, lane: Worker, tried: u32) {
        self.telemetry.ports_tried(lane, tried);
    }

    fn ports_refused(&self, fault: &PortsFault) {
        self.telemetry.ports_refused(fault);
    }

    fn addresses_unread(&self, error: &Error) {
        self.telemetry.addresses_unread(error);
    }

    fn address_unbound(&self, address: [u8; 4]) {
        self.telemetry.address_unbound(address);
    }
}

/// Tells a ledger what a worker reports of the handling of a request or of a response, if the report is of that.
fn tell<R: Clock>(rt: &R, ledger: &LedgerState, worker: Worker, report: &WorkerReport<'_>) {
    match (worker, report) {
        (_, WorkerReport::Accepted { lane, number, .. }) => {
            if let Some(now) = time_since_1970(rt) {
                ledger.accept(*lane, *number, now);
            }
        }
        (Worker::Lane(lane), WorkerReport::FirstSent { number, .. }) => {
            ledger.send_first(lane, *number);
        }
        (Worker::Lane(lane), WorkerReport::SentAgain { number }) => {
            ledger.send_again(lane, *number);
        }
        (Worker::Front, WorkerReport::SendFault { octets, .. }) => ledger.lose_response(octets),
        _ => {}
    }
}
