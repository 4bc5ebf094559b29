//! The sockets of the proxy: how they are bound, which ports the lanes send from, and what a socket received.

mod address_monitor;
mod answering;
mod bound_sockets;
mod client_sockets;
mod datagram_socket;
mod endpoints;
mod port_range;
mod raw_sockets;
mod ready_socket;
mod socket_reports;
mod source_ports;

pub(crate) use address_monitor::AddressMonitor;
pub(crate) use answering::Answering;
pub(crate) use bound_sockets::{BoundSockets, lane_fault};
pub(crate) use client_sockets::{ClientSockets, fault_at};
pub(crate) use datagram_socket::{DatagramSocket, Handed, SystemSocket};
pub use port_range::{
    PortRange, PortsFault, choose_port, is_kept, read_pinned, read_reserved, read_system_range,
};
pub(crate) use ready_socket::{
    ReadySocket, is_full, receive_from, send_from, set_each_waiting, set_returned_waiting, try_anew,
};
pub use socket_reports::SocketReports;
pub use source_ports::PortSettings;
