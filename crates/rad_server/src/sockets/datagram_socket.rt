//! A socket that sends datagrams.

ghost use Rattle.std.specs.Prelude.{◌≡◌, List, [], Option, Some, None};
ghost use Rattle.rad_server.specs.internal.Taken.{Datagram, listed_in, took_after};

use super::endpoints::socket_address;
use mio::net::UdpSocket;
use rad_desk::{Delivery, Traffic};
use rad_realms::Endpoint;
use std::io::ErrorKind;

/// What became of a datagram that was handed to the system.
#[derive(Clone, Copy, PartialEq, Eq)]
pub(crate) enum Handed {
    Accepted,
    /// The send buffer of the socket has no room now.
    Full,
    Refused,
}

/// A socket that sends datagrams.
///
/// It may keep a list of the datagrams that it took. Contracts see that list. They say nothing of a socket without one.
pub(crate) trait DatagramSocket {
    ghost took: { Self → Option (List Datagram) } = { λ _. None };

    /// Hands a datagram to the system.
    fn hand(&mut self, to: Endpoint, octets: &[u8]) -> Handed
        ensures { took self.new ≡ took_after (took self.old) to octets.now result };
}

/// A socket, and the list of the datagrams that it took. Only clauses see the list, and it takes no memory.
#[derive(Drop)]
pub(crate) struct Listed<S> {
    pub(crate) socket: S,
    taken: Traffic,
}

impl<S> Listed<S> {
    /// Makes it of a socket that took nothing yet.
    pub(crate) fn new(socket: S) -> Listed<S>
        ensures { listed_in result.taken.passed ≡ [] }
    {
        Listed {
            socket,
            taken: Traffic::new(),
        }
    }
}

impl<S: DatagramSocket> DatagramSocket for Listed<S> {
    ghost took = { λ s. Some (listed_in s.taken.passed) };

    fn hand(&mut self, to: Endpoint, octets: &[u8]) -> Handed {
        match self.socket.hand(to, octets) {
            Handed::Accepted => {
                let Endpoint { address, port } = to;
                self.taken
                    .departed(0, address, port, octets, Delivery::Sent);
                Handed::Accepted
            }
            other => other,
        }
    }
}

/// What the system takes is not listed.
impl DatagramSocket for UdpSocket {
    fn hand(&mut self, to: Endpoint, octets: &[u8]) -> Handed {
        match self.send_to(octets, socket_address(to)) {
            Ok(_) => Handed::Accepted,
            Err(error) => match error.kind() {
                ErrorKind::WouldBlock => Handed::Full,
                _ => Handed::Refused,
            },
        }
    }
}

/// A socket of the system.
pub(crate) type SystemSocket = Listed<UdpSocket>;
