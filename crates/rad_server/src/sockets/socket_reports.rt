//! The interface to which a service reports its sockets.

use super::port_range::PortsFault;
use rad_desk::Worker;
use rad_realms::Endpoint;
use std::io::Error;

/// The interface to which a service reports where its sockets are bound, and what can't be bound or read. What is received
/// and sent over them is reported to the `Gate`. An implementation may leave out any of it.
pub trait SocketReports {
    /// A socket of this worker is bound to this address and port, after `place` others of the same worker. The system
    /// granted it a receive buffer of this many octets.
    fn bound(&self, _worker: Worker, _place: usize, _at: Endpoint, _buffer: u32) {}

    /// No socket can be bound to this address and port, for this reason of the system's. For a lane so many ports were tried
    /// by number before. The service ends.
    fn unbound(&self, _at: Endpoint, _tried: u32, _error: &Error) {}

    /// The sockets of this lane are bound, after so many ports were tried by number, since the system had none left or others
    /// hold some of those to which the environment pins the lanes.
    fn ports_tried(&self, _lane: Worker, _tried: u32) {}

    /// The environment pins the lanes to no ports that they can be bound to. The service ends.
    fn ports_refused(&self, _fault: &PortsFault) {}

    /// The addresses of this machine can't be read. A response is sent from whichever of them the system chooses.
    fn addresses_unread(&self, _error: &Error) {}

    /// This machine has this address, and no socket is bound to it alone. A datagram sent to it is answered from
    /// whichever address the system chooses.
    fn address_unbound(&self, _address: [u8; 4]) {}
}
