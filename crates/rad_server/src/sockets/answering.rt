//! The front's sockets as one: a datagram is answered from the socket that it came to.

ghost use Rattle.rad_desk.specs.Traffic.{FitsRoom};

use super::address_monitor::AddressMonitor;
use super::socket_reports::SocketReports;
use rad_addresses::{LocalAddresses, Origins};
use rad_desk::Received;
use rad_realms::Endpoint;
use std::time::Clock;

/// Presents the front's sockets as one, and keeps to which of them each client's last datagram came.
#[derive(Drop)]
pub(crate) struct Answering<'a, R, G, A> {
    origins: Origins,
    monitor: AddressMonitor<'a, R, G, A>,
}

impl<'a, R, G, A> Answering<'a, R, G, A> {
    /// Makes it from these origins and this monitor, before any datagram came.
    pub(crate) fn new(
        origins: Origins,
        monitor: AddressMonitor<'a, R, G, A>,
    ) -> Answering<'a, R, G, A> {
        Answering { origins, monitor }
    }

    pub(crate) fn socket_of(&self, peer: Endpoint) -> u16 {
        self.origins.socket_of(peer)
    }

    /// Notes that a datagram came from `peer` to this socket. Socket 0 is the one that is bound to all addresses.
    fn note(&mut self, peer: Endpoint, socket: u16) {
        self.origins.note(peer, socket);
        if socket == 0 {
            self.monitor.set_come();
        }
    }
}

impl<R: Clock, G: SocketReports, A: LocalAddresses> Answering<'_, R, G, A> {
    /// Returns this receive as if the front had one socket. If no datagram came, it looks for new addresses, if that is
    /// due.
    pub(crate) fn received(&mut self, received: Received) -> Received
        requires { FitsRoom received }
        ensures { FitsRoom result }
    {
        match received {
            Received::Got {
                address,
                port,
                socket,
                count,
            } => {
                self.note(Endpoint { address, port }, socket);
                Received::Got {
                    address,
                    port,
                    socket: 0,
                    count,
                }
            }
            Received::Nothing => {
                self.monitor.look_if_due();
                Received::Nothing
            }
            Received::Fault => Received::Fault,
        }
    }
}
