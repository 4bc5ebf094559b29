//! Datagrams that a worker sends together.

ghost use Rattle.std.specs.Prelude.{◌≡◌, [], ◌∷◌, ◌++◌, IfOk, IsTrue, MatchResult, map};
ghost use Rattle.rad_server.specs.internal.Keeping.{IsWaiting, departure_of, sent_departure, waiting_in};

use rad_realms::Endpoint;
use std::alloc::{AllocError, Global};

/// The most datagrams that an outbox holds.
const MOST: usize = 8;

/// A datagram that a worker sends.
#[derive(Clone, Copy)]
pub(crate) struct Sent<'a> {
    /// When it was sent, in milliseconds since the start.
    pub(crate) moment: u64,
    /// The index of the socket that it is sent from.
    pub(crate) socket: u16,
    /// Where it goes.
    pub(crate) to: Endpoint,
    pub(crate) octets: &'a [u8],
}

/// A datagram that waits to be handed to the system.
#[derive(Drop)]
pub(crate) struct Waiting {
    moment: u64,
    socket: u16,
    to: Endpoint,
    octets: Vec<u8>,
}

impl Waiting {
    /// Copies a datagram.
    ///
    /// # Errors
    ///
    /// `AllocError` if memory is refused.
    pub(crate) fn copy_of(alloc: Global, sent: Sent<'_>) -> Result<Waiting, AllocError>
        ensures { IfOk result (λ waiting. IsWaiting sent.entry waiting) }
    {
        let mut octets = Vec::new(alloc);
        octets.extend_from_slice(sent.octets)?;
        Ok(Waiting {
            moment: sent.moment,
            socket: sent.socket,
            to: sent.to,
            octets,
        })
    }

    /// Returns the datagram.
    pub(crate) fn sent(&self) -> Sent<'_>
        ensures { IsWaiting result self.now }
    {
        Sent {
            moment: self.moment,
            socket: self.socket,
            to: self.to,
            octets: self.octets.as_slice(),
        }
    }
}

/// The datagrams that a worker sent and that the system was not handed yet, in order.
///
/// The system wakes a receiver that sleeps. If one datagram is handed over right behind another, the receiver is woken
/// once for both.
#[derive(Drop)]
pub(crate) struct Outbox {
    alloc: Global,
    /// The datagrams, and behind them room for others. It grows to [`MOST`].
    datagrams: Vec<Waiting>,
    /// How many of them wait.
    count: usize,
}

impl Outbox {
    /// Makes an empty outbox. It allocates nothing before a datagram is added.
    pub(crate) fn new(alloc: Global) -> Outbox
        ensures { waiting_in result ≡ [] }
    {
        Outbox {
            alloc,
            datagrams: Vec::new(alloc),
            count: 0,
        }
    }

    /// Returns whether it holds no datagram.
    pub(crate) fn is_empty(&self) -> bool
        ensures { IsTrue result → waiting_in self.now ≡ [] }
    {
        self.count == 0
    }

    /// Returns whether its datagrams have to be handed over before another one is added.
    pub(crate) fn is_full(&self) -> bool {
        self.count >= MOST
    }

    /// Adds a datagram behind the others.
    ///
    /// # Errors
    ///
    /// `AllocError` if memory is refused. The datagram is not added.
    pub(crate) fn add(&mut self, sent: Sent<'_>) -> Result<(), AllocError>
        ensures { MatchResult result (λ _. waiting_in self.new ≡ waiting_in self.old ++ sent_departure sent.entry ∷ []) (λ _. waiting_in self.new ≡ waiting_in self.old) }
    {
        if let Some(room) = self.datagrams.get_mut(self.count) {
            room.moment = sent.moment;
            room.socket = sent.socket;
            room.to = sent.to;
            room.octets.clear();
            room.octets.extend_from_slice(sent.octets)?;
        } else {
            self.datagrams.push(Waiting::copy_of(self.alloc, sent)?)?;
        }
        self.count = self.count.saturating_add(1);
        Ok(())
    }

    /// Returns the datagrams that wait, in order.
    pub(crate) fn waiting(&self) -> &[Waiting]
        ensures { map departure_of result.now ≡ waiting_in self.now }
    {
        let count = self.count.min(self.datagrams.len());
        &self.datagrams[..count]
    }

    /// Removes the datagrams that wait, and keeps their room for others.
    pub(crate) fn clear(&mut self)
        ensures { waiting_in self.new ≡ [] }
    {
        self.count = 0;
    }
}
