//! The sockets of a worker as its wire.

ghost use Rattle.std.specs.Prelude.{◌≡◌, [], None, Some, map};
ghost use Rattle.rad_desk.specs.Traffic.{FitsRoom};
ghost use Rattle.rad_server.specs.internal.Taken.{plain, taken};

use super::heap_room::HeapRoom;
use super::polling::PolledSockets;
use crate::sockets::{Answering, SocketReports};
use crate::waking::TurnClock;
use rad_addresses::LocalAddresses;
use rad_desk::{Delivery, Gate, Received, Traffic, Wire};
use rad_realms::Endpoint;
use rad_tables::Moment;
use rand::Rng;
use rand::rngs::StdRng;
use std::alloc::Global;
use std::time::{Clock, Instant};

/// The Code of a Status-Server, which is its first octet (RFC 5997 section 3).
const STATUS_SERVER: u8 = 12;

/// Random octets that nobody saw. They are drawn anew once a Status-Server was sent, which has them as its Authenticator.
#[derive(Drop)]
struct Unseen {
    random: StdRng,
    octets: Option<[u8; 16]>,
}

impl Unseen {
    fn get(&mut self) -> [u8; 16] {
        match self.octets {
            Some(octets) => octets,
            None => self.draw(),
        }
    }

    fn draw(&mut self) -> [u8; 16] {
        let mut octets = [0; 16];
        octets[..8].copy_from_slice(&self.random.next_u64().to_be_bytes());
        octets[8..].copy_from_slice(&self.random.next_u64().to_be_bytes());
        self.octets = Some(octets);
        octets
    }

    /// Records that a datagram is sent.
    fn sent(&mut self, datagram: &[u8]) {
        if datagram.first() == Some(&STATUS_SERVER) {
            self.octets = None;
        }
    }
}

/// The sockets of a worker, with its clock and its random octets.
///
/// A receive waits for at most 20 milliseconds. In the turn after a send it does not wait at all, since there may be
/// more to send. Whoever has work for the worker ends the wait by a notification. Otherwise the waits of idle workers
/// end together, once in 20 milliseconds since their common start.
///
/// The wire of a lane receives nothing while the lane's ring is full, and that of the front does not receive at every second
/// time while a ring is more than half full.
///
/// The worker knows a lane's sockets by the numbers of its source ports. If the front has several, the worker knows them
/// all as 0: each answers what came to it.
///
/// A datagram that is sent is handed to the system a little later, together with others: [`PolledSockets`] says when.
/// If the system refuses it, that is reported to the gate. What the log has as sent is exactly what these took on.
#[derive(Drop)]
pub(crate) struct UdpWire<'a, R, G: Gate, A> {
    clock: TurnClock<'a, R>,
    unseen: Unseen,
    polled: PolledSockets<'a, G>,
    /// Present if the worker knows all sockets as 0.
    answering: Option<Answering<'a, R, G, A>>,
    heap: HeapRoom,
    traffic: Traffic,
    ghost passed: { map plain (taken traffic.passed) ≡ map plain (taken polled.sent.passed) },
    ghost places: { answering ≡ None → taken traffic.passed ≡ taken polled.sent.passed },
}

impl<'a, R, G: Gate, A> UdpWire<'a, R, G, A> {
    /// Makes a wire over these sockets, each with its index as its number, or all as one. Its moments count from `start`.
    pub(crate) fn new(
        alloc: Global,
        clock: &'a R,
        start: Instant,
        random: StdRng,
        polled: PolledSockets<'a, G>,
        answering: Option<Answering<'a, R, G, A>>,
    ) -> UdpWire<'a, R, G, A>
        requires { polled.sent.passed ≡ [] }
    {
        let clock = TurnClock::new(clock, start);
        let unseen = Unseen {
            random,
            octets: None,
        };
        let heap = HeapRoom::new(alloc);
        let traffic = Traffic::new();
        UdpWire {
            clock,
            unseen,
            polled,
            answering,
            heap,
            traffic,
        }
    }

    /// Returns the index of the socket for a datagram that the worker sends to a peer from the socket of this number.
    fn index_of(&self, socket: u16, peer: Endpoint) -> u16
        ensures { self.now.answering ≡ None → result ≡ socket }
    {
        match &self.answering {
            Some(answering) if socket == 0 => answering.socket_of(peer),
            _ => socket,
        }
    }
}

impl<R: Clock, G: Gate + SocketReports, A: LocalAddresses> UdpWire<'_, R, G, A> {
    /// Begins a turn, and receives a datagram. Waits for one if there is nothing else to do.
    fn receive_next(&mut self, room: &mut [u8; 4096]) -> Received
        ensures fits { FitsRoom result }
        ensures log { self.new.traffic ≡ self.old.traffic }
    {
        let longest = self.clock.longest_wait();
        self.clock.begin_turn();
        if self.polled.has_kept() {
            self.tell_moment();
        }
        let received = self.receive_one(longest, room);
        self.answer(received)
    }

    /// Tells the sockets the moment, and begins a turn anew.
    fn tell_moment(&mut self)
        ensures { self.new.traffic ≡ self.old.traffic }
    {
        self.polled.set_moment(self.clock.now().get());
        self.clock.begin_turn();
    }

    fn receive_one(&mut self, milliseconds: u64, room: &mut [u8; 4096]) -> Received
        ensures fits { FitsRoom result }
        ensures log { self.new.traffic ≡ self.old.traffic }
    {
        self.polled.receive(milliseconds, room)
    }

    /// Returns this receive as the worker knows it.
    fn answer(&mut self, received: Received) -> Received
        requires { FitsRoom received }
        ensures fits { FitsRoom result }
        ensures log { self.new.traffic ≡ self.old.traffic }
    {
        known_receive(&mut self.answering, received)
    }
}

/// Returns a receive as if all sockets were one, if the worker knows them so.
fn known_receive<R: Clock, G: SocketReports, A: LocalAddresses>(
    answering: &mut Option<Answering<'_, R, G, A>>,
    received: Received,
) -> Received
    requires { FitsRoom received }
    ensures fits { FitsRoom result }
    ensures none { answering.new ≡ None → answering.old ≡ None }
{
    match answering {
        Some(answering) => answering.received(received),
        None => received,
    }
}

impl<R: Clock, G: Gate + SocketReports, A: LocalAddresses> Wire for UdpWire<'_, R, G, A> {
    ghost log = { λ w. Some w.traffic.passed };

    fn now(&mut self) -> Moment {
        let moment = self.clock.now();
        self.traffic.told(moment);
        moment
    }

    fn random(&mut self) -> [u8; 16] {
        let octets = self.unseen.get();
        self.traffic.drew(&octets);
        octets
    }

    fn receive(&mut self, datagram: &mut [u8; 4096]) -> Received {
        let received = self.receive_next(datagram);
        if let Received::Got {
            address,
            port,
            socket,
            count,
        } = received
        {
            self.heap.count_datagram();
            self.traffic
                .arrived(socket, address, port, &datagram[..count]);
        }
        received
    }

    fn send(&mut self, socket: u16, address: [u8; 4], port: u16, octets: &[u8]) -> Delivery {
        let to = Endpoint { address, port };
        let from = self.index_of(socket, to);
        self.unseen.sent(octets);
        self.polled.set_moment(self.clock.now().get());
        let delivery = self.polled.send(from, to, octets);
        self.traffic
            .departed(socket, address, port, octets, delivery);
        delivery
    }
}
