//! The sockets of a worker, and its sleep while none of them has a datagram.

ghost use Rattle.std.specs.Prelude.{◌≡◌, ◌++◌, [], Some, false, IfOk, IsTrue};
ghost use Rattle.std.specs.List.{All};
ghost use Rattle.std.proofs.Props.{props};
ghost use Rattle.rad_desk.specs.Traffic.{FitsRoom};
ghost use Rattle.rad_server.specs.internal.Accounts.{IsAccounted, came_if};
ghost use Rattle.rad_server.specs.internal.Taken.{TookThese, list_of, taken};

use crate::sending::{Departures, Reports};
use crate::sockets::{
    ReadySocket, SystemSocket, receive_from, set_each_waiting, set_returned_waiting,
};
use crate::waking::{Neighbours, RingRoom, Sleeper};
use mio::Poll;
use rad_desk::{Delivery, Gate, Received, Traffic};
use rad_realms::Endpoint;
use std::alloc::Global;
use std::io;
use std::net::UdpSocket;

/// The number of receives for each socket that a worker may do without a sleep before it tries every socket again.
const RECEIVES: usize = 16;

/// What a worker sleeps over, the others that it has work for, and the ring that it adds to.
#[derive(Drop)]
pub(crate) struct Links {
    pub(crate) sleeper: Sleeper,
    pub(crate) neighbours: Neighbours,
    /// The ring that the worker adds responses to, if it is a lane's.
    pub(crate) ring: Option<RingRoom>,
}

/// The sockets of a worker, and its sleep while none of them has a datagram.
///
/// A sleep returns which sockets have datagrams. A worker does not sleep while one socket always has datagrams, or
/// while there is always something to send. It then tries every socket again after some receives.
///
/// A lane's worker receives nothing while its ring is full: what comes waits at the sockets. It sleeps until the front took
/// a response. While a ring that the front takes from is more than half full, every second receive of the front finds
/// nothing, so that it takes two responses for each datagram.
///
/// What the worker sends is handed to the system at the next receive that finds nothing, at the latest after some
/// receives, and at the end of the worker.
///
/// Each datagram that it took on is in order gone, to its socket or lost, or kept, or waits. The sockets took nothing
/// else.
pub(crate) struct PolledSockets<'a, G: Gate> {
    /// The sockets in the order of a lane's source ports. The front's first socket is that of `listen`.
    sockets: Vec<ReadySocket<SystemSocket>>,
    /// The index of the socket that is received from next.
    turn: u16,
    sleeper: Sleeper,
    neighbours: Neighbours,
    /// Whether a receive failed since every socket was last tried again. Datagrams may then wait at a socket that no
    /// sleep reports.
    has_failed: bool,
    /// The number of receives since the worker last slept or tried every socket again.
    receives: usize,
    /// Whether a datagram was sent since the last receive.
    has_sent: bool,
    departures: Departures<'a, G>,
    /// The ring that the worker adds responses to, if it is a lane's.
    ring: Option<RingRoom>,
    /// Whether the last receive was left out, since the worker was behind.
    has_skipped: bool,
    /// What the worker sent, with the index of the socket. Only clauses see it, and it takes no memory.
    sent: Traffic,
    ghost accounted: { IsAccounted (taken sent.passed) departures } by { Prim.hlevel props },
    ghost took: { TookThese sockets.items (taken departures.account.gone.passed) },
}

impl<G: Gate> Drop for PolledSockets<'_, G> {
    fn drop(self) {
        let Self {
            mut sockets,
            turn: _,
            sleeper: _,
            neighbours: _,
            has_failed: _,
            receives: _,
            has_sent: _,
            mut departures,
            ring: _,
            has_skipped: _,
            sent: _,
        } = self;
        departures.end(sockets.as_mut_slice());
    }
}

impl<'a, G: Gate> PolledSockets<'a, G> {
    /// Registers these sockets, which are non-blocking.
    ///
    /// # Errors
    ///
    /// The system's error, and `OutOfMemory` if memory is refused.
    pub(crate) fn new(
        alloc: Global,
        sockets: Vec<UdpSocket>,
        links: Links,
        reports: Reports<'a, G>,
    ) -> io::Result<PolledSockets<'a, G>>
        ensures { IfOk result (λ polled. polled.sent.passed ≡ []) }
    {
        let Links {
            sleeper,
            neighbours,
            ring,
        } = links;
        let sockets = register_each(alloc, &sleeper.poll, sockets)?;
        let departures = Departures::new(alloc, reports);
        let sent = Traffic::new();
        let polled = PolledSockets {
            sockets,
            turn: 0,
            sleeper,
            neighbours,
            has_failed: false,
            receives: 0,
            has_sent: false,
            departures,
            ring,
            has_skipped: false,
            sent,
        };
        Ok(polled)
    }

    pub(crate) fn has_kept(&self) -> bool {
        self.departures.has_kept()
    }

    pub(crate) fn set_moment(&mut self, moment: u64)
        ensures { self.new.sent ≡ self.old.sent }
    {
        self.departures.set_moment(moment);
    }

    /// Receives a datagram, and waits for one if there is nothing else to do, for at most so many milliseconds. The
    /// worker looks for work afterwards.
    pub(crate) fn receive(&mut self, milliseconds: u64, room: &mut [u8; 4096]) -> Received
        ensures fits { FitsRoom result }
        ensures sent { self.new.sent ≡ self.old.sent }
    {
        if self.skips() {
            return Received::Nothing;
        }
        self.count_receive();
        let received = self.wait(milliseconds, room);
        self.sleeper.notifier.set_awake();
        self.has_sent = false;
        received
    }

    /// Returns whether this receive is left out: the worker is behind, and the last receive was not left out.
    fn skips(&mut self) -> bool
        ensures never_twice { IsTrue self.old.has_skipped → result ≡ false }
        ensures noted { self.new.has_skipped ≡ result }
        ensures sent { self.new.sent ≡ self.old.sent }
    {
        let is_behind = self.sleeper.notifier.was_behind();
        self.has_skipped = is_behind && !self.has_skipped;
        self.has_skipped
    }

    /// Returns whether the worker adds responses to a ring that is full.
    fn is_held_back(&mut self) -> bool
        ensures { self.new.sent ≡ self.old.sent }
    {
        is_full(&mut self.ring)
    }

    /// Counts a receive, and marks every socket for another try if there were too many receives without a sleep.
    fn count_receive(&mut self)
        ensures { self.new.sent ≡ self.old.sent }
    {
        self.receives = self.receives.saturating_add(1);
        if self.receives > self.sockets.len().saturating_mul(RECEIVES) {
            self.set_each_waiting();
        }
    }

    fn set_each_waiting(&mut self)
        ensures { self.new.sent ≡ self.old.sent }
    {
        self.receives = 0;
        self.has_failed = false;
        set_each_waiting(self.sockets.as_mut_slice());
    }

    /// Receives a datagram, and waits for one if there is nothing else to do. Before it waits, it hands over what was
    /// sent, and wakes the other workers that are due.
    fn wait(&mut self, milliseconds: u64, room: &mut [u8; 4096]) -> Received
        ensures fits { FitsRoom result }
        ensures sent { self.new.sent ≡ self.old.sent }
    {
        let received = self.try_each(room);
        if received != Received::Nothing {
            self.went_on();
            return received;
        }
        self.hand_over();
        self.neighbours.paused();
        if self.has_sent || !self.sleeper.notifier.try_sleep() {
            return received;
        }
        let longest = self.departures.longest_sleep(milliseconds);
        self.sleep(longest);
        self.try_each(room)
    }

    fn hand_over(&mut self)
        ensures { self.new.sent ≡ self.old.sent }
    {
        self.departures.hand_over(self.sockets.as_mut_slice());
    }

    /// Receives a datagram from the first socket, in turn, that has one, unless the worker is held back.
    fn try_each(&mut self, room: &mut [u8; 4096]) -> Received
        ensures fits { FitsRoom result }
        ensures sent { self.new.sent ≡ self.old.sent }
    {
        if self.is_held_back() {
            return Received::Nothing;
        }
        for _ in 0..self.sockets.len() {
            let received = self.try_next(room);
            if received != Received::Nothing {
                return received;
            }
        }
        Received::Nothing
    }

    /// Receives a datagram from the socket whose turn it is, if it has one, and passes the turn to the next socket.
    fn try_next(&mut self, room: &mut [u8; 4096]) -> Received
        ensures fits { FitsRoom result }
        ensures sent { self.new.sent ≡ self.old.sent }
    {
        let index = self.turn;
        let next = index.saturating_add(1);
        self.turn = if usize::from(next) < self.sockets.len() {
            next
        } else {
            0
        };
        let received = receive_from(self.sockets.as_mut_slice(), index, room);
        self.has_failed = self.has_failed || received == Received::Fault;
        received
    }

    /// Sleeps until a datagram arrives, the worker is notified, or so many milliseconds have passed. Every socket is
    /// tried again if the system allowed no sleep, or if neither a socket nor a notification ended it and a receive
    /// failed before.
    fn sleep(&mut self, milliseconds: u64)
        ensures { self.new.sent ≡ self.old.sent }
    {
        let has_slept = self.sleeper.sleep(milliseconds);
        self.receives = 0;
        if !has_slept || (self.has_failed && self.sleeper.events.is_empty()) {
            self.set_each_waiting();
        }
        self.set_returned_waiting();
    }

    fn set_returned_waiting(&mut self)
        ensures { self.new.sent ≡ self.old.sent }
    {
        set_returned_waiting(self.sockets.as_mut_slice(), &self.sleeper.events);
    }

    /// Records that a datagram was received without a sleep before it. What was sent some receives ago is handed over.
    fn went_on(&mut self)
        ensures { self.new.sent ≡ self.old.sent }
    {
        self.neighbours.went_on();
        self.departures.count_receive(self.sockets.as_mut_slice());
    }

    pub(crate) fn send(&mut self, socket: u16, to: Endpoint, octets: &[u8]) -> Delivery
        ensures { taken self.new.sent.passed ≡ taken self.old.sent.passed ++ came_if result (record { socket = socket; to = to; octets = octets.now }) }
    {
        self.has_sent = true;
        if usize::from(socket) >= self.sockets.len() {
            return Delivery::Fault;
        }
        let sockets = self.sockets.as_mut_slice();
        let delivery = self.departures.send(sockets, socket, to, octets);
        let Endpoint { address, port } = to;
        self.sent.departed(socket, address, port, octets, delivery);
        delivery
    }
}

fn is_full(ring: &mut Option<RingRoom>) -> bool {
    match ring {
        Some(ring) => ring.is_full(),
        None => false,
    }
}

/// Registers these sockets at a poll.
///
/// # Errors
///
/// The system's error, and `OutOfMemory` if memory is refused.
fn register_each(
    alloc: Global,
    poll: &Poll,
    sockets: Vec<UdpSocket>,
) -> io::Result<Vec<ReadySocket<SystemSocket>>>
    ensures { IfOk result (λ registered. All (λ socket. list_of socket.socket ≡ Some []) registered.items) }
{
    let mut registered = Vec::with_capacity(alloc, sockets.len())?;
    for socket in sockets {
        let index = registered.len();
        registered.push(ReadySocket::register(poll.registry(), index, socket)?)?;
    }
    Ok(registered)
}
