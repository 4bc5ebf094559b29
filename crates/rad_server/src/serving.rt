//! Serving a configuration: the threads of the workers, the gate that they ask, and the end.

mod beginning;
mod bounds;
mod lingering;
mod running;
mod supervising;
mod threads;
mod working;

pub use bounds::{
    Host, Keepers, OwnedEntrance, OwnedLedger, OwnedMemory, OwnedWaiting, OwnedWire, SharedGate,
};
pub(crate) use lingering::{has_passed, linger};
pub use running::{run, run_with, serve, serve_with};
pub(crate) use working::Service;
