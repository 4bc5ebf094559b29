//! The sockets of each worker as its wire.

mod heap_room;
mod polling;
mod udp_wire;
mod wiring;

pub use wiring::{NotifiedWires, Wires};
pub(crate) use wiring::{WireMaker, make_reader};
