//! The datagrams that are kept for one client, in order.

ghost use Rattle.std.specs.Prelude.{◌≡◌, [], MatchOption, MatchResult, bytes_eq, length, slice_get};
ghost use Rattle.rad_server.specs.internal.Queues.{PutsBehind, TakesFirst};

use super::outbox::Waiting;
use std::alloc::{AllocError, Global};

/// The most datagrams that are kept for a client.
const MOST: usize = 64;

/// The datagrams that are kept for one client, in the order in which they were sent.
#[derive(Drop)]
pub(crate) struct ClientQueue {
    /// The client's address.
    client: [u8; 4],
    datagrams: Vec<Waiting>,
}

impl ClientQueue {
    /// Makes an empty queue for the client that has this address.
    pub(crate) fn new(alloc: Global, client: [u8; 4]) -> ClientQueue
        ensures client { result.client ≡ client }
        ensures none { result.datagrams.items ≡ [] }
    {
        ClientQueue {
            client,
            datagrams: Vec::new(alloc),
        }
    }

    pub(crate) fn is_of(&self, client: [u8; 4]) -> bool
        ensures { result ≡ bytes_eq self.now.client client }
    {
        self.client == client
    }

    pub(crate) fn len(&self) -> usize
        ensures { result ≡ length self.now.datagrams.items }
    {
        self.datagrams.len()
    }

    /// Puts a datagram behind the others. If there are [`MOST`] of them, the oldest is lost: it is returned.
    ///
    /// # Errors
    ///
    /// `AllocError` if memory is refused. The queue is unchanged then.
    pub(crate) fn put(&mut self, datagram: Waiting) -> Result<Option<Waiting>, AllocError>
        ensures client { self.new.client ≡ self.old.client }
        ensures puts { MatchResult result (λ lost. PutsBehind 64 self.old.datagrams.items datagram lost self.new.datagrams.items) (λ _. self.new.datagrams.items ≡ self.old.datagrams.items) }
    {
        self.datagrams.push(datagram)?;
        if self.datagrams.len() <= MOST {
            return Ok(None);
        }
        Ok(Some(self.datagrams.remove(0)))
    }

    pub(crate) fn first(&self) -> Option<&Waiting>
        ensures { MatchOption result (slice_get self.now.datagrams.items 0 ≡ None) (λ first. slice_get self.now.datagrams.items 0 ≡ Some first.now) }
    {
        self.datagrams.first()
    }

    /// Takes the oldest datagram, if there is one.
    pub(crate) fn take(&mut self) -> Option<Waiting>
        ensures client { self.new.client ≡ self.old.client }
        ensures takes { TakesFirst self.old.datagrams.items result self.new.datagrams.items }
    {
        if self.datagrams.is_empty() {
            return None;
        }
        Some(self.datagrams.remove(0))
    }
}
