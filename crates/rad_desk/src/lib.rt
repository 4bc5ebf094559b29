//! The workers of the proxy (own): the front, which serves the clients, and a worker for each lane, which serves its
//! home server. They make the calls of `locked_lanes`, whose items are passed on here: [`open`] makes the [`Proxy`], which
//! holds the lanes behind their locks, and an [`Inlet`] for each lane, from which the front takes responses without a
//! lock.
//!
//! The definitions that the contracts cite are in specs. `Marks` is how many Proxy-States of this proxy's form a
//! request has, and `Handling` what a checked datagram leads to. `Traffic` is what passes over a wire, `Resuming` what comes in
//! over one on which requests that wait come in too, `Working` what a
//! lane's worker may send over it, `Once` what the front may send, and `HandOver` what the front hands over to a ledger.
//! `Leaving` is what a ledger is told of the requests that are left at the end, and `ToldValues` which values of a request
//! are told.
//! `Keeping` is what a call leaves as it was of what a worker has, and `Reports` the note of a report.
#![tactic(auto)]

mod front;
mod gate;
mod handling;
mod lanes;
pub mod laws;
mod leaving;
mod ledger;
mod marks;
mod memory;
mod resuming;
mod shift;
mod tally;
mod told_values;
mod wire;

pub use front::{front_worker, front_worker_with};
pub use gate::{Asked, Call, Gate, Go, Note, Repeat, UpReason, Worker, WorkerReport};
pub use handling::{Entrance, Handled, Handling, Outcomes};
pub use lanes::lane_worker;
pub use leaving::{LeftRecord, tell_left};
pub use ledger::{AcceptedRecord, Earlier, Handed, Ledger, LeftList, NoLedger};
pub use locked_lanes::{
    CloseFault, DeskFault, Inlet, LaneEnd, OpenFault, Origin, Proxy, Report, Rest, Session, Spent,
    Standing, Stepped, Told, open,
};
pub use marks::count_marks;
pub use memory::{Memory, NothingRemembered};
pub use resuming::{Hold, NoneWaits, ResumedWire, WaitingRequests};
pub use tally::Tally;
pub use told_values::{status_of, user_of};
pub use wire::{Delivery, Received, Traffic, Wire};
