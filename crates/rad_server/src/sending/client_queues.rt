//! The queues of the clients for which datagrams are kept.

ghost use Rattle.std.specs.Prelude.{◌≡◌, ◌≢◌, ◌≤◌, ◌<◌, false, IsTrue, [], ◌∷◌, None, vec_len, length, bytes_eq, IfOk, IfSome, MatchOption, MatchResult};
ghost use Rattle.std.specs.List.{All, HoldsAt, position};
ghost use Rattle.rad_server.specs.internal.Keeping.{AreApart, AreOfClients, IsFirst, IsPlaceOf, KeepsOrder, departure_of, first_at, first_in, for_client, is_old, kept_in, len_at, one_or_none, sent_departure};

use super::client_queue::ClientQueue;
use super::kept::LONGEST;
use super::outbox::{Sent, Waiting};
use crate::sockets::{ReadySocket, is_full};
use std::alloc::{AllocError, Global};

/// The queues of the clients for which datagrams are kept, each in the order in which they were sent.
#[derive(Drop)]
pub(crate) struct ClientQueues {
    alloc: Global,
    list: Vec<ClientQueue>,
    ghost own: { AreOfClients list.items },
    ghost apart: { AreApart list.items },
}

impl ClientQueues {
    /// Makes it empty. It allocates nothing before a datagram is kept.
    pub(crate) fn new(alloc: Global) -> ClientQueues
        ensures { kept_in result.list.items ≡ [] }
    {
        ClientQueues {
            alloc,
            list: Vec::new(alloc),
        }
    }

    /// Returns how many clients have a queue.
    pub(crate) fn len(&self) -> usize {
        self.list.len()
    }

    pub(crate) fn has(&self, client: [u8; 4]) -> bool
        ensures { result ≡ false → for_client client (kept_in self.now.list.items) ≡ [] }
    {
        self.place_of(client).is_some()
    }

    fn place_of(&self, client: [u8; 4]) -> Option<usize>
        ensures { result ≡ position (λ queue. bytes_eq queue.client client) self.now.list.items }
    {
        self.list.iter().position(|queue| queue.is_of(client))
    }

    /// Keeps a datagram behind those of its client, and returns the client's oldest if its queue is full: it is lost.
    ///
    /// # Errors
    ///
    /// `AllocError` if memory is refused. The datagram is not kept.
    pub(crate) fn keep(&mut self, sent: Sent<'_>) -> Result<Option<Waiting>, AllocError>
        ensures order { MatchResult result (λ lost. KeepsOrder (kept_in self.old.list.items) (sent_departure sent.entry ∷ []) (one_or_none lost) (kept_in self.new.list.items)) (λ _. kept_in self.new.list.items ≡ kept_in self.old.list.items) }
        ensures full { IfOk result (λ lost. IfSome lost (λ _. 64 ≤ length (for_client sent.entry.to.address (kept_in self.old.list.items)))) }
    {
        let datagram = Waiting::copy_of(self.alloc, sent)?;
        self.put_or_add(sent.to.address, datagram)
    }

    /// Puts a datagram into the queue of its client, or adds a queue with it.
    fn put_or_add(
        &mut self,
        client: [u8; 4],
        datagram: Waiting,
    ) -> Result<Option<Waiting>, AllocError>
        requires { datagram.to.address ≡ client }
        ensures order { MatchResult result (λ lost. KeepsOrder (kept_in self.old.list.items) (departure_of datagram ∷ []) (one_or_none lost) (kept_in self.new.list.items)) (λ _. kept_in self.new.list.items ≡ kept_in self.old.list.items) }
        ensures full { IfOk result (λ lost. IfSome lost (λ _. 64 ≤ length (for_client datagram.to.address (kept_in self.old.list.items)))) }
    {
        match self.place_of(client) {
            Some(place) => self.put(place, datagram),
            None => self.add(client, datagram),
        }
    }

    fn put(&mut self, place: usize, datagram: Waiting) -> Result<Option<Waiting>, AllocError>
        requires { IsPlaceOf datagram.to.address self.old.list.items place }
        ensures order { MatchResult result (λ lost. KeepsOrder (kept_in self.old.list.items) (departure_of datagram ∷ []) (one_or_none lost) (kept_in self.new.list.items)) (λ _. kept_in self.new.list.items ≡ kept_in self.old.list.items) }
        ensures full { IfOk result (λ lost. IfSome lost (λ _. 64 ≤ length (for_client datagram.to.address (kept_in self.old.list.items)))) }
    {
        match self.list.get_mut(place) {
            Some(queue) => queue.put(datagram),
            None => Err(AllocError),
        }
    }

    fn add(&mut self, client: [u8; 4], datagram: Waiting) -> Result<Option<Waiting>, AllocError>
        requires others { All (λ queue. queue.client ≢ client) self.old.list.items }
        requires client { datagram.to.address ≡ client }
        ensures order { MatchResult result (λ lost. KeepsOrder (kept_in self.old.list.items) (departure_of datagram ∷ []) (one_or_none lost) (kept_in self.new.list.items)) (λ _. kept_in self.new.list.items ≡ kept_in self.old.list.items) }
        ensures full { IfOk result (λ lost. IfSome lost (λ _. 64 ≤ length (for_client datagram.to.address (kept_in self.old.list.items)))) }
    {
        let mut queue = ClientQueue::new(self.alloc, client);
        let lost = queue.put(datagram)?;
        self.list.push(queue)?;
        Ok(lost)
    }

    /// Takes the oldest datagram of the client for which the most are kept, which is this one if no other has more. It is
    /// lost.
    pub(crate) fn lose_of_most(&mut self, client: [u8; 4]) -> Option<Waiting>
        ensures order { KeepsOrder (kept_in self.old.list.items) [] (one_or_none result) (kept_in self.new.list.items) }
        ensures some { result ≡ None → kept_in self.old.list.items ≡ [] }
    {
        let place = self.place_of_most(client);
        self.take(place)
    }

    /// Returns the place of a queue with the most datagrams, which is this client's if no other has more.
    fn place_of_most(&self, client: [u8; 4]) -> usize
        ensures { All (λ queue. length queue.datagrams.items ≤ len_at self.now.list.items result) self.now.list.items }
    {
        let mut most = self.place_of(client).unwrap_or(0);
        for place in 0..self.list.len() {
            most = self.longer_of(most, place);
        }
        most
    }

    /// Returns the place of these two whose queue has more datagrams, and the first if they have as many.
    fn longer_of(&self, place: usize, other: usize) -> usize
        ensures one { len_at self.now.list.items place ≤ len_at self.now.list.items result }
        ensures other { len_at self.now.list.items other ≤ len_at self.now.list.items result }
    {
        if self.len_at(other) > self.len_at(place) {
            other
        } else {
            place
        }
    }

    fn len_at(&self, place: usize) -> usize
        ensures { result ≡ len_at self.now.list.items place }
    {
        match self.list.get(place) {
            Some(queue) => queue.len(),
            None => 0,
        }
    }

    /// Returns the place of a queue whose oldest datagram was sent too long before `now`.
    pub(crate) fn place_of_old(&self, now: u64) -> Option<usize>
        ensures { result ≡ position (λ queue. is_old now (first_in queue)) self.now.list.items }
    {
        self.list.iter().position(|queue| is_old(queue, now))
    }

    /// Takes the oldest datagram of the queue at a place. A queue that is empty then is removed.
    pub(crate) fn take(&mut self, place: usize) -> Option<Waiting>
        ensures order { KeepsOrder (kept_in self.old.list.items) [] (one_or_none result) (kept_in self.new.list.items) }
        ensures first { result ≡ first_at self.old.list.items place }
    {
        let datagram = self.take_first(place);
        self.remove_empty(place);
        datagram
    }

    fn take_first(&mut self, place: usize) -> Option<Waiting>
        ensures order { KeepsOrder (kept_in self.old.list.items) [] (one_or_none result) (kept_in self.new.list.items) }
        ensures first { result ≡ first_at self.old.list.items place }
    {
        match self.list.get_mut(place) {
            Some(queue) => queue.take(),
            None => None,
        }
    }

    /// Removes the queue at a place if it is empty.
    fn remove_empty(&mut self, place: usize)
        ensures { kept_in self.new.list.items ≡ kept_in self.old.list.items }
    {
        if self.is_empty_at(place) {
            self.list.remove(place);
        }
    }

    /// Returns whether there is a queue at a place, and it is empty.
    fn is_empty_at(&self, place: usize) -> bool
        ensures within { IsTrue result → place < vec_len self.now.list }
        ensures none { IsTrue result → HoldsAt (λ queue. queue.datagrams.items ≡ []) self.now.list.items place }
    {
        match self.list.get(place) {
            Some(queue) => queue.len() == 0,
            None => false,
        }
    }

    /// Returns the oldest datagram of the queue at a place.
    pub(crate) fn first(&self, place: usize) -> Option<Sent<'_>>
        ensures { MatchOption result (first_at self.now.list.items place ≡ None) (λ sent. IsFirst (first_at self.now.list.items place) sent) }
    {
        match self.list.get(place) {
            Some(queue) => first_sent(queue),
            None => None,
        }
    }

    /// Returns the place of the queue to try next: of those whose first datagram leaves from a socket that may have room,
    /// one with the fewest datagrams.
    pub(crate) fn next<S>(&self, sockets: &[ReadySocket<S>]) -> Option<usize> {
        let mut found = None;
        let mut fewest = usize::MAX;
        for (place, queue) in self.list.as_slice().iter().enumerate() {
            if queue.len() < fewest && may_leave(queue, sockets) {
                fewest = queue.len();
                found = Some(place);
            }
        }
        found
    }
}

/// Returns the oldest datagram of a queue.
fn first_sent(queue: &ClientQueue) -> Option<Sent<'_>>
    ensures { MatchOption result (first_in queue.now ≡ None) (λ sent. IsFirst (first_in queue.now) sent) }
{
    match queue.first() {
        Some(first) => Some(first.sent()),
        None => None,
    }
}

/// Returns whether the oldest datagram of a queue was sent too long before `now`.
fn is_old(queue: &ClientQueue, now: u64) -> bool
    ensures { result ≡ is_old now (first_in queue.now) }
{
    match queue.first() {
        Some(first) => now.saturating_sub(first.sent().moment) >= LONGEST,
        None => false,
    }
}

/// Returns whether the first datagram of a queue leaves from a socket that may have room.
fn may_leave<S>(queue: &ClientQueue, sockets: &[ReadySocket<S>]) -> bool {
    match queue.first() {
        Some(first) => !is_full(sockets, first.sent().socket),
        None => false,
    }
}
