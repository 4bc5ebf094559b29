//! A socket that is received from until it has no more datagrams.

ghost use Rattle.std.specs.Prelude.{◌≡◌, [], IfOk, Some};
ghost use Rattle.rad_desk.specs.Traffic.{FitsRoom};
ghost use Rattle.rad_server.specs.internal.Taken.{SameTook, Sends, list_of, took_after};

use super::datagram_socket::{DatagramSocket, Handed, Listed, SystemSocket};
use super::endpoints::endpoint_of;
use crate::sending::Sent;
use mio::net::UdpSocket;
use mio::{Events, Interest, Registry, Token};
use rad_desk::Received;
use rad_realms::Endpoint;
use std::alloc::Global;
use std::io::{self, ErrorKind};
use std::net::{self, SocketAddr};

/// A socket, and whether datagrams may wait there. The system reports a socket only once, when datagrams arrive at one
/// that was empty. So it is received from until it has no more.
#[derive(Drop)]
pub(crate) struct ReadySocket<S> {
    socket: S,
    waiting: bool,
    /// Whether the last send found no room.
    is_full: bool,
}

impl ReadySocket<SystemSocket> {
    /// Registers this socket, which is non-blocking. The poll reports it under this index.
    ///
    /// # Errors
    ///
    /// The system's error.
    pub(crate) fn register(
        registry: &Registry,
        index: usize,
        socket: net::UdpSocket,
    ) -> io::Result<ReadySocket<SystemSocket>>
        ensures { IfOk result (λ socket. list_of socket.socket ≡ Some []) }
    {
        let mut socket = UdpSocket::from_std(socket);
        registry.register(&mut socket, Token(index), Interest::READABLE)?;
        Ok(ReadySocket {
            socket: Listed::new(socket),
            waiting: true,
            is_full: false,
        })
    }

    /// Receives a datagram, if one waits. The socket has this index among those of its worker.
    fn receive(&mut self, index: u16, room: &mut [u8; 4096]) -> Received
        ensures fits { FitsRoom result }
        ensures took { self.new.socket.taken ≡ self.old.socket.taken }
    {
        if !self.waiting {
            return Received::Nothing;
        }
        match self.socket.socket.recv_from(room) {
            Ok((count, SocketAddr::V4(from))) => {
                let Endpoint { address, port } = endpoint_of(from);
                Received::Got {
                    address,
                    port,
                    socket: index,
                    count,
                }
            }
            Ok(_) => Received::Nothing,
            Err(error) => {
                self.waiting = false;
                match error.kind() {
                    ErrorKind::WouldBlock => Received::Nothing,
                    _ => Received::Fault,
                }
            }
        }
    }
}

impl<S> ReadySocket<S> {
    fn set_waiting(&mut self)
        ensures { self.new.socket ≡ self.old.socket }
    {
        self.waiting = true;
    }
}

impl<S: DatagramSocket> ReadySocket<S> {
    fn send(&mut self, to: Endpoint, octets: &[u8]) -> Handed
        ensures { S.took self.new.socket ≡ took_after (S.took self.old.socket) to octets.now result }
    {
        let handed = self.socket.hand(to, octets);
        self.is_full = handed == Handed::Full;
        handed
    }
}

/// Receives a datagram from the socket of this index, if one waits there.
pub(crate) fn receive_from(
    sockets: &mut [ReadySocket<SystemSocket>],
    index: u16,
    room: &mut [u8; 4096],
) -> Received
    ensures fits { FitsRoom result }
    ensures took { SameTook list_of sockets.old sockets.new }
{
    let place = usize::from(index);
    if place >= sockets.len() {
        return Received::Nothing;
    }
    let socket = &mut sockets[place];
    socket.receive(index, room)
}

/// Sets that datagrams may wait at each of these sockets.
pub(crate) fn set_each_waiting<S: DatagramSocket>(sockets: &mut [ReadySocket<S>])
    ensures { SameTook S.took sockets.old sockets.new }
{
    for socket in sockets {
        socket.set_waiting();
    }
}

/// Sets that datagrams may wait at the sockets that a sleep returned.
pub(crate) fn set_returned_waiting<S: DatagramSocket>(
    sockets: &mut [ReadySocket<S>],
    events: &Events<Global>,
)
    ensures { SameTook S.took sockets.old sockets.new }
{
    for event in events.iter() {
        let Token(index) = event.token();
        set_waiting_at(sockets, index);
    }
}

/// Sets that datagrams may wait at the socket at this place, if there is one.
fn set_waiting_at<S: DatagramSocket>(sockets: &mut [ReadySocket<S>], place: usize)
    ensures { SameTook S.took sockets.old sockets.new }
{
    if place < sockets.len() {
        let socket = &mut sockets[place];
        socket.set_waiting();
    }
}

/// Hands a datagram to the system, by the socket of its index.
pub(crate) fn send_from<S: DatagramSocket>(sockets: &mut [ReadySocket<S>], sent: Sent<'_>) -> Handed
    ensures { Sends S.took sockets.old sockets.new sent.entry.socket sent.entry.to sent.entry.octets.now result }
{
    let place = usize::from(sent.socket);
    if place >= sockets.len() {
        return Handed::Refused;
    }
    let socket = &mut sockets[place];
    socket.send(sent.to, sent.octets)
}

/// Returns whether the last send from the socket of this index found no room, and it was not given a new try.
pub(crate) fn is_full<S>(sockets: &[ReadySocket<S>], socket: u16) -> bool {
    match sockets.get(usize::from(socket)) {
        Some(socket) => socket.is_full,
        None => false,
    }
}

/// Gives each of these sockets a new try: it may have room.
pub(crate) fn try_anew<S: DatagramSocket>(sockets: &mut [ReadySocket<S>])
    ensures { SameTook S.took sockets.old sockets.new }
{
    for socket in sockets {
        socket.is_full = false;
    }
}
