//! A worker at work: what it works with, and its receives, sends and reports.

ghost use Rattle.std.specs.Prelude.{◌≡◌, MatchOption};
ghost use Rattle.rad_desk.specs.Traffic.{arrived, noted};
ghost use Rattle.rad_desk.specs.Calls.{Passes, IsSent};
ghost use Rattle.rad_desk.specs.Keeping.{Keeps};

use crate::gate::{Call, Gate, Go, Worker, WorkerReport};
use crate::tally::Tally;
use crate::wire::{Delivery, Received, Wire};
use locked_lanes::{Origin, Proxy};
use rad_packet::Datagram;
use rad_realms::Endpoint;
use std::alloc::Global;

/// What a worker has while it works, but its buffers: what is in them is lent while the rest is used.
#[derive(Drop)]
pub(crate) struct Shift<'a, R, W, G> {
    pub(crate) rt: &'a R,
    pub(crate) alloc: Global,
    pub(crate) proxy: &'a Proxy,
    pub(crate) wire: &'a mut W,
    pub(crate) gate: &'a G,
    pub(crate) worker: Worker,
    pub(crate) tally: Tally,
}

/// The buffers of a worker.
#[derive(Drop)]
pub(crate) struct Buffers {
    /// What was received.
    pub(crate) octets: [u8; 4096],
    /// What is to be sent.
    pub(crate) datagram: Datagram,
    /// The origin of the request that the worker reports of, if the gate asks for it.
    pub(crate) origin: Option<Origin>,
}

impl Buffers {
    pub(crate) fn new() -> Buffers {
        Buffers {
            octets: [0; 4096],
            datagram: Datagram::new(),
            origin: None,
        }
    }
}

/// A datagram that was received.
#[derive(Clone, Copy)]
pub(crate) struct Arrival<'a> {
    pub(crate) from: Endpoint,
    /// The index of the socket that received it.
    pub(crate) socket: u16,
    pub(crate) octets: &'a [u8],
}

impl<'a, R, W: Wire, G: Gate> Shift<'a, R, W, G> {
    /// Makes a shift with an empty tally.
    pub(crate) fn new(
        rt: &'a R,
        alloc: Global,
        proxy: &'a Proxy,
        wire: &'a mut W,
        gate: &'a G,
        worker: Worker,
    ) -> Shift<'a, R, W, G>
        ensures wire { result.wire.ghost_name ≡ wire.entry.ghost_name }
        ensures log { result.wire.now ≡ wire.old }
        ensures proxy { result.proxy.now ≡ proxy.now }
        ensures turns { result.tally.turns ≡ 0 }
    {
        let tally = Tally {
            turns: 0,
            received: 0,
            sent: 0,
            faults: 0,
        };
        Shift {
            rt,
            alloc,
            proxy,
            wire,
            gate,
            worker,
            tally,
        }
    }

    /// Asks the gate whether the worker goes on to a call.
    pub(crate) fn may(&self, call: Call) -> bool {
        self.gate.before(self.worker, call) == Go::On
    }

    /// Reports that the worker made a call.
    pub(crate) fn made(&self, call: Call) {
        self.gate.after(self.worker, call);
    }

    pub(crate) fn report(&self, report: &WorkerReport<'_>) {
        self.gate.report(self.worker, report);
    }

    /// Receives a datagram, reports it and counts it.
    pub(crate) fn receive<'b>(&mut self, octets: &'b mut [u8; 4096]) -> Option<Arrival<'b>>
        ensures receives { MatchOption result (W.log self.new.wire.now ≡ W.log self.old.wire.now) (λ arrival. W.log self.new.wire.now ≡ noted (W.log self.old.wire.now) (arrived arrival.socket arrival.from arrival.octets.now)) }
        ensures keeps { Keeps self.old self.new }
    {
        let received = self.wire.receive(octets);
        self.report(&WorkerReport::Woke);
        match received {
            Received::Got {
                address,
                port,
                socket,
                count,
            } => {
                let from = Endpoint { address, port };
                let octets = &octets[..count];
                self.tally.received = self.tally.received.saturating_add(1);
                self.report(&WorkerReport::Received { from, octets });
                Some(Arrival {
                    from,
                    socket,
                    octets,
                })
            }
            Received::Nothing => None,
            Received::Fault => {
                self.tally.faults = self.tally.faults.saturating_add(1);
                self.report(&WorkerReport::ReceiveFault);
                None
            }
        }
    }

    /// Reports a datagram, sends it and counts it. If the send fails, the datagram is lost.
    pub(crate) fn send(&mut self, socket: u16, to: Endpoint, octets: &[u8]) -> Delivery
        ensures sends { Passes (IsSent socket to octets.now) (W.log self.old.wire.now) (W.log self.new.wire.now) }
        ensures keeps { Keeps self.old self.new }
    {
        self.send_of(socket, to, octets, None)
    }

    /// Does the same, and reports the origin of the request that is sent, if that is known.
    pub(crate) fn send_of<'b>(
        &mut self,
        socket: u16,
        to: Endpoint,
        octets: &'b [u8],
        origin: Option<&'b Origin>,
    ) -> Delivery
        ensures sends { Passes (IsSent socket to octets.now) (W.log self.old.wire.now) (W.log self.new.wire.now) }
        ensures keeps { Keeps self.old self.new }
    {
        self.report(&WorkerReport::Sends { to, octets, origin });
        let delivery = self.wire.send(socket, to.address, to.port, octets);
        match delivery {
            Delivery::Sent => self.tally.sent = self.tally.sent.saturating_add(1),
            Delivery::Fault => {
                self.tally.faults = self.tally.faults.saturating_add(1);
                self.report(&WorkerReport::SendFault { to, octets });
            }
        }
        delivery
    }
}
