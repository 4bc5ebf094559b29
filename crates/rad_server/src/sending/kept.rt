//! The datagrams that the system did not accept yet, for each client in order.

ghost use Rattle.std.specs.Prelude.{◌≡◌, ◌≤◌, length};
ghost use Rattle.rad_server.specs.internal.Keeping.{kept_in};

use super::client_queues::ClientQueues;
use super::outbox::{Sent, Waiting};
use crate::sockets::ReadySocket;
use std::alloc::{AllocError, Global};

/// The most datagrams that are kept in all.
const MOST: usize = 2048;

/// How long a datagram is kept, in milliseconds.
pub(crate) const LONGEST: u64 = 2000;

/// The datagrams that the system did not accept, since the send buffer of their socket had no room.
///
/// A client's are kept in the order in which they were sent. Of each client there are as many as its queue holds, in all
/// [`MOST`], and none that was sent [`LONGEST`] milliseconds ago. What is beyond that is lost.
#[derive(Drop)]
pub(crate) struct Kept {
    queues: ClientQueues,
    /// How many datagrams are kept in all.
    count: usize,
    ghost counted: { count ≡ length (kept_in queues.list.items) },
    ghost bound: { count ≤ 2048 },
}

impl Kept {
    ghost use Rattle.std.specs.Prelude.{◌+◌, false, [], ◌∷◌, None, IfOk, IfSome, MatchOption, MatchResult};
    ghost use Rattle.rad_server.specs.internal.Accounts.{IsFull, kept_list};
    ghost use Rattle.rad_server.specs.internal.Keeping.{IsFirst, KeepsOrder, first_at, for_client, one_or_none, sent_departure};

    /// Makes it empty. It allocates nothing before a datagram is kept.
    pub(crate) fn new(alloc: Global) -> Kept
        ensures { kept_list result ≡ [] }
    {
        let queues = ClientQueues::new(alloc);
        Kept { queues, count: 0 }
    }

    pub(crate) fn is_empty(&self) -> bool {
        self.count == 0
    }

    pub(crate) fn has(&self, client: [u8; 4]) -> bool
        ensures { result ≡ false → for_client client (kept_list self.now) ≡ [] }
    {
        self.queues.has(client)
    }

    /// Keeps a datagram behind those of its client, and returns the one that is lost by that, if one is: the client's oldest
    /// if its queue is full, and the oldest of the client with the most if there are too many in all.
    ///
    /// # Errors
    ///
    /// `AllocError` if memory is refused. The datagram is not kept.
    pub(crate) fn keep(&mut self, sent: Sent<'_>) -> Result<Option<Waiting>, AllocError>
        ensures order { MatchResult result (λ lost. KeepsOrder (kept_list self.old) (sent_departure sent.entry ∷ []) (one_or_none lost) (kept_list self.new)) (λ _. kept_list self.new ≡ kept_list self.old) }
        ensures full { IfOk result (λ lost. IfSome lost (λ _. IsFull sent.entry.to.address (kept_list self.old))) }
    {
        match self.queues.keep(sent)? {
            Some(lost) => return Ok(Some(lost)),
            None => {}
        }
        if self.count < MOST {
            self.count += 1;
            return Ok(None);
        }
        Ok(self.queues.lose_of_most(sent.to.address))
    }

    /// Takes a datagram that was sent too long before `now`. It is lost.
    pub(crate) fn lose_old(&mut self, now: u64) -> Option<Waiting>
        ensures order { KeepsOrder (kept_list self.old) [] (one_or_none result) (kept_list self.new) }
        ensures old { IfSome result (λ lost. lost.moment + 2000 ≤ now) }
    {
        let place = self.queues.place_of_old(now)?;
        self.take(place)
    }

    /// Takes the oldest datagram of the queue at a place.
    pub(crate) fn take(&mut self, place: usize) -> Option<Waiting>
        ensures order { KeepsOrder (kept_list self.old) [] (one_or_none result) (kept_list self.new) }
        ensures first { result ≡ first_at self.old.queues.list.items place }
    {
        let datagram = self.queues.take(place)?;
        self.count = self.count.saturating_sub(1);
        Some(datagram)
    }

    /// Returns the oldest datagram of the queue at a place.
    pub(crate) fn first(&self, place: usize) -> Option<Sent<'_>>
        ensures { MatchOption result (first_at self.now.queues.list.items place ≡ None) (λ sent. IsFirst (first_at self.now.queues.list.items place) sent) }
    {
        self.queues.first(place)
    }

    /// Returns the place of the queue to try next.
    pub(crate) fn next<S>(&self, sockets: &[ReadySocket<S>]) -> Option<usize> {
        self.queues.next(sockets)
    }

    /// Returns the most tries that a hand-over takes: each ends with a datagram less, or with a socket less that may have
    /// room.
    pub(crate) fn tries(&self) -> usize {
        self.count.saturating_add(self.queues.len())
    }
}
