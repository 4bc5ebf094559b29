//! Serving a configuration over UDP: one thread for the clients and one for each home server, each with sockets of its
//! own, while commands are read and obeyed.
//!
//! [`run`] binds the sockets and serves over them. [`serve`] serves over any wires. Their contract is that they end
//! with what is left of as many lanes as the configuration has home servers. [`run_with`] and [`serve_with`] do the same
//! and hand their work over to what keeps it. What the workers send is in the contracts of the workers of `rad_desk`. What
//! happens is reported to the gate only, and that as its [`SocketReports`]: this crate contains no log and no counters.
#![tactic(auto)]

mod console;
mod faults;
mod sending;
mod serving;
mod sockets;
mod waking;
mod wires;

pub use console::{Descriptors, Interruptible, Streams};
pub use faults::ServeFault;
pub use serving::{
    Host, Keepers, OwnedEntrance, OwnedLedger, OwnedMemory, OwnedWaiting, OwnedWire, SharedGate,
    run, run_with, serve, serve_with,
};
pub use sockets::{
    PortRange, PortSettings, PortsFault, SocketReports, choose_port, is_kept, read_pinned,
    read_reserved, read_system_range,
};
pub use waking::{Notifier, Notifiers};
pub use wires::{NotifiedWires, Wires};
