//! A wire over which requests come in again that an earlier run left.

ghost use Rattle.std.specs.Prelude.{◌≡◌, ℕ, Bool, false, List, Option, None, Some};
ghost use Rattle.rad_config.specs.declared.reading.address.Endpoint.{Endpoint as EndpointModel};
ghost use Rattle.rad_desk.specs.Traffic.{Event, FitsRoom, Receives, departed, endpoint, noted};
ghost use Rattle.rad_desk.specs.Resuming.{ComesIn, ComesOver, is_held};

use crate::gate::{Gate, Repeat, Worker, WorkerReport};
use crate::wire::{Delivery, Received, Traffic, Wire};
use rad_lane::Refusal;
use rad_realms::Endpoint;
use rad_tables::Moment;

/// What becomes of a datagram that came while requests wait.
#[derive(Clone, Copy, Debug, PartialEq, Eq)]
pub enum Hold {
    /// It does not have to wait.
    Passes,
    /// It waits behind them.
    Waits,
    /// It repeats a request that waits.
    Repeats,
    /// It would have to wait, and is refused for this reason.
    Refused(Refusal),
}

/// Requests that wait to come in again, from where they first came.
///
/// Contracts see by which relation a datagram has to wait behind them, or does not. They may have a list: what they gave so far, in order, as what
/// came over a wire. Contracts say nothing of what is given without such a list.
pub trait WaitingRequests {
    ghost given: { Self → Option (List Event) } = { λ _. None };

    ghost waits: { Self → EndpointModel → List ℕ → Bool → Type 0 };

    /// Gives the next request that may come in now, if there is one. Its octets are the first of `datagram`. It must not
    /// wait for anything.
    fn give(&mut self, datagram: &mut [u8; 4096]) -> Received
        ensures { Receives (given self.old) result datagram.new (given self.new) };

    /// Keeps a datagram that came from here to the socket of this index if it has to wait, since requests of its lane wait that
    /// came before it: it comes in behind them, unless it repeats one of them or is refused. It must not wait for anything.
    fn hold(&mut self, from: Endpoint, socket: u16, octets: &[u8]) -> Hold
        ensures waits { waits self.new from octets.now (is_held result) }
        ensures given { given self.new ≡ given self.old };
}

/// No requests wait.
#[derive(Clone, Copy, Debug, Drop)]
pub struct NoneWaits;

impl WaitingRequests for NoneWaits {
    ghost waits = { λ _ _ _ result. result ≡ false };

    fn give(&mut self, _datagram: &mut [u8; 4096]) -> Received {
        Received::Nothing
    }

    fn hold(&mut self, _from: Endpoint, _socket: u16, _octets: &[u8]) -> Hold {
        Hold::Passes
    }
}

/// A wire over which requests that wait come in too, each as if the network had brought it late.
///
/// A receive gives the next one of them that may come in now. Only if there is none it receives over the wire. What is
/// received so and has to wait behind them is not passed on. If it is a repeat of one of them, or is refused, that is reported.
#[derive(Drop)]
pub struct ResumedWire<'a, W: Drop, S: Drop, G> {
    wire: W,
    waiting: S,
    gate: &'a G,
    /// What passed over both together. Only clauses see it, and it takes no memory.
    traffic: Traffic,
}

impl<'a, W: Drop, S: Drop, G> ResumedWire<'a, W, S, G> {
    /// Makes a wire over this one, with these requests. The front reports to this gate.
    pub fn new(wire: W, waiting: S, gate: &'a G) -> ResumedWire<'a, W, S, G>
        ensures wire { result.wire ≡ wire }
        ensures waiting { result.waiting ≡ waiting }
    {
        let traffic = Traffic::new();
        ResumedWire {
            wire,
            waiting,
            gate,
            traffic,
        }
    }
}

impl<W: Wire + Drop, S: WaitingRequests + Drop, G: Gate> ResumedWire<'_, W, S, G> {
    /// Gives a request that waits, or receives a datagram if none may come in.
    fn take_next(&mut self, datagram: &mut [u8; 4096]) -> Received
        ensures comes { ComesIn (S.waits self.new.waiting) result datagram.new (S.given self.old.waiting) (S.given self.new.waiting) (W.log self.old.wire) (W.log self.new.wire) }
        ensures fits { FitsRoom result }
        ensures log { self.new.traffic ≡ self.old.traffic }
    {
        let given = self.waiting.give(datagram);
        if let Received::Got { .. } = given {
            return given;
        }
        self.receive_over(datagram)
    }

    /// Receives a datagram over the wire, and passes it on unless it has to wait.
    fn receive_over(&mut self, datagram: &mut [u8; 4096]) -> Received
        ensures comes { ComesOver (S.waits self.new.waiting) result datagram.new (W.log self.old.wire) (W.log self.new.wire) }
        ensures given { S.given self.new.waiting ≡ S.given self.old.waiting }
        ensures fits { FitsRoom result }
        ensures log { self.new.traffic ≡ self.old.traffic }
    {
        let received = self.wire.receive(datagram);
        if let Received::Got {
            address,
            port,
            socket,
            count,
        } = received
        {
            let from = Endpoint { address, port };
            let octets = &datagram[..count];
            let hold = self.waiting.hold(from, socket, octets);
            if hold != Hold::Passes {
                self.tell(hold, from, octets);
                return Received::Nothing;
            }
        }
        received
    }

    /// Reports a datagram that was not passed on, and will not come in.
    fn tell(&self, hold: Hold, from: Endpoint, octets: &[u8]) {
        let report = match hold {
            Hold::Passes | Hold::Waits => return,
            Hold::Repeats => WorkerReport::Repeated {
                repeat: Repeat::Waiting,
                from,
                octets,
            },
            Hold::Refused(reason) => WorkerReport::Refused {
                reason,
                from,
                octets,
            },
        };
        self.gate
            .report(Worker::Front, &WorkerReport::Received { from, octets });
        self.gate.report(Worker::Front, &report);
    }

    /// Sends a datagram over the wire.
    fn send_over(&mut self, socket: u16, address: [u8; 4], port: u16, octets: &[u8]) -> Delivery
        ensures sends { W.log self.new.wire ≡ noted (W.log self.old.wire) (departed socket (endpoint address port) octets.now result) }
        ensures given { S.given self.new.waiting ≡ S.given self.old.waiting }
        ensures log { self.new.traffic ≡ self.old.traffic }
    {
        self.wire.send(socket, address, port, octets)
    }
}

impl<W: Wire + Drop, S: WaitingRequests + Drop, G: Gate> Wire for ResumedWire<'_, W, S, G> {
    ghost log = { λ w. Some w.traffic.passed };

    fn now(&mut self) -> Moment {
        let moment = self.wire.now();
        self.traffic.told(moment);
        moment
    }

    fn random(&mut self) -> [u8; 16] {
        let octets = self.wire.random();
        self.traffic.drew(&octets);
        octets
    }

    fn receive(&mut self, datagram: &mut [u8; 4096]) -> Received {
        let received = self.take_next(datagram);
        if let Received::Got {
            address,
            port,
            socket,
            count,
        } = received
        {
            self.traffic
                .arrived(socket, address, port, &datagram[..count]);
        }
        received
    }

    fn send(&mut self, socket: u16, address: [u8; 4], port: u16, octets: &[u8]) -> Delivery {
        let delivery = self.send_over(socket, address, port, octets);
        self.traffic
            .departed(socket, address, port, octets, delivery);
        delivery
    }
}
