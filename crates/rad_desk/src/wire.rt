//! The network as a worker sees it, and the log of all that passed over it.

ghost use Rattle.std.specs.Prelude.{◌≡◌, List, [], ◌∷◌, ◌++◌, Option, None};
ghost use Rattle.std.specs.Borrow.{ftrue};
ghost use Rattle.rad_desk.specs.Traffic.{Event, event, arrived, departed, told, drew, endpoint, noted, Receives};

use rad_realms::Endpoint;
use rad_tables::Moment;
use std::marker::Model;

/// The result of a receive.
#[derive(Clone, Copy, Debug, PartialEq, Eq)]
pub enum Received {
    /// A datagram was received.
    Got {
        /// The sender's IPv4 address.
        address: [u8; 4],
        /// The sender's UDP port.
        port: u16,
        /// The index of the socket that received it, counted from 0.
        socket: u16,
        /// How many octets it has, at most 4096. Of a longer datagram only the first 4096 octets count.
        count: usize,
    },
    /// No datagram came for now.
    Nothing,
    /// The receive failed.
    Fault,
}

/// The outcome of a send.
#[derive(Clone, Copy, Debug, PartialEq, Eq)]
pub enum Delivery {
    /// The datagram was handed over.
    Sent,
    /// The send failed.
    Fault,
}

/// The sockets of a worker, its clock and its random octets.
///
/// A wire may keep a log. Contracts see all that passed over such a wire so far, in order. They say nothing of what
/// passes over a wire without a log.
pub trait Wire {
    ghost log: { Self → Option (List Event) } = { λ _. None };

    /// Returns the moment. It must not wait for anything.
    fn now(&mut self) -> Moment
        ensures { log self.new ≡ noted (log self.old) (told result) };

    /// Draws the Authenticator of a probe (RFC 5997 section 3): octets that nobody can predict.
    fn random(&mut self) -> [u8; 16]
        ensures { log self.new ≡ noted (log self.old) (drew result) };

    /// Receives a datagram, or waits for a while.
    fn receive(&mut self, datagram: &mut [u8; 4096]) -> Received
        ensures { Receives (log self.old) result datagram.new (log self.new) };

    /// Sends a datagram from a socket to an IPv4 address and a UDP port.
    fn send(&mut self, socket: u16, address: [u8; 4], port: u16, octets: &[u8]) -> Delivery
        ensures { log self.new ≡ noted (log self.old) (departed socket (endpoint address port) octets.now result) };
}

/// The log of a wire: all that passed over it so far. Only clauses see it, and it takes no memory.
#[derive(Drop)]
pub struct Traffic {
    pub ghost passed: { List Event },
}

/// An event of a wire, without its octets.
#[derive(Clone, Copy)]
pub(crate) enum Passing {
    /// A datagram was received on this socket, counted from 0, from this address and port.
    Arrived(u16, Endpoint),
    /// A datagram was given to this socket, to be sent to this address and port, with this outcome.
    Departed(u16, Endpoint, Delivery),
    /// The moment was read.
    Told(Moment),
    /// Random octets were drawn.
    Drew,
}

impl Model for Traffic {
    ghost also_owns = { λ _. ftrue };
}

// It owns nothing.
unsafe impl Send for Traffic {}

impl Traffic {
    /// Makes an empty log.
    pub fn new() -> Traffic
        ensures { result.passed ≡ [] }
    {
        Traffic {}
    }

    /// Adds that a datagram was received on a socket, from an IPv4 address and a UDP port.
    pub fn arrived(&mut self, socket: u16, address: [u8; 4], port: u16, octets: &[u8])
        ensures { self.new.passed ≡ self.old.passed ++ arrived socket (endpoint address port) octets.now ∷ [] }
    {
        let passing = Passing::Arrived(socket, Endpoint { address, port });
        *self = Traffic::with(self, &passing, octets);
    }

    /// Adds that a datagram was given to a socket, to be sent to an IPv4 address and a UDP port, with this outcome.
    pub fn departed(
        &mut self,
        socket: u16,
        address: [u8; 4],
        port: u16,
        octets: &[u8],
        delivery: Delivery,
    )
        ensures { self.new.passed ≡ self.old.passed ++ departed socket (endpoint address port) octets.now delivery ∷ [] }
    {
        let passing = Passing::Departed(socket, Endpoint { address, port }, delivery);
        *self = Traffic::with(self, &passing, octets);
    }

    /// Adds that this moment was read.
    pub fn told(&mut self, moment: Moment)
        ensures { self.new.passed ≡ self.old.passed ++ told moment ∷ [] }
    {
        *self = Traffic::with(self, &Passing::Told(moment), &[]);
    }

    /// Adds that these random octets were drawn.
    pub fn drew(&mut self, octets: &[u8; 16])
        ensures { self.new.passed ≡ self.old.passed ++ drew octets.now ∷ [] }
    {
        *self = Traffic::with(self, &Passing::Drew, octets);
    }

    fn with(_before: &Traffic, _passing: &Passing, _octets: &[u8]) -> Traffic
        ensures { result.passed ≡ _before.now.passed ++ event _passing.now _octets.now ∷ [] }
    {
        Traffic {}
    }
}
