use crate::{Answered, Entry, Held, Record, Stamp};
use block_queue::{Fifo, SlidingList};
use rad_tables::Slots;
use std::marker::Model;

/// What is left of a closed lane: the requests and answers that its book held, and the outstanding sendings.
#[derive(Drop)]
pub struct Leftover<Q: Fifo<Record>> {
    /// The lane's number.
    pub(crate) lane: u16,
    /// The number of the first request that the book still held.
    pub(crate) opening: u64,
    /// The stamps of the requests, in order: first those that were sent, then those that are queued.
    pub(crate) accepted: SlidingList<Stamp>,
    /// The answers, in order.
    pub(crate) answered: SlidingList<Answered>,
    /// The sendings that are unanswered, each under its pair. There is no probe among them.
    pub(crate) outstanding: Slots<Entry>,
    /// The records of the requests that were never sent, in order.
    pub(crate) queued: Q,
}

/// The parts of a [`Leftover`].
#[derive(Drop)]
pub struct LeftoverParts<Q: Fifo<Record>> {
    /// The lane's number.
    pub lane: u16,
    /// The number of the first request that the book still held.
    pub opening: u64,
    /// The stamps of the requests that the book held, in order.
    pub accepted: Held<Stamp>,
    /// The answers, in order.
    pub answered: Held<Answered>,
    /// The sendings that are unanswered, each under its pair. There is no probe among them.
    pub outstanding: Slots<Entry>,
    /// The records of the requests that were never sent, in order.
    pub queued: Q,
}

/// The state in which a request is left.
#[derive(Clone, Copy, Debug, PartialEq, Eq)]
pub enum LeftState {
    /// It was never sent.
    Queued,
    /// It was sent, and is unanswered.
    Outstanding,
    /// It is answered, and nobody took the response.
    Untaken,
}

impl<Q: Fifo<Record>> Model for Leftover<Q> {
    ghost use Rattle.std.specs.Prelude.{◌≤◌, length};
    ghost use Rattle.std.specs.Coded.{codes};
    ghost use Rattle.std.specs.FinMap as map;
    ghost use Rattle.rad_tables.specs.Pairs.{slot_cmp, coded_slot};
    ghost use Rattle.rad_lane.specs.contracts.entry.Entry as entry;
    ghost use Rattle.rad_lane.specs.Closes.{Left, left_of};

    ghost Value = { Left };

    ghost coded = { Prim.hlevel (codes, map.code {R = slot_cmp} coded_slot entry.the_row.coded) };

    ghost view = { λ l. left_of l.lane l.opening l.accepted.items (Q.items l.queued) l.answered.items l.outstanding };

    ghost invariant = { λ l. length (Q.items l.queued) ≤ length l.accepted.items };
}

impl<Q: Fifo<Record>> Leftover<Q> {
    ghost use Rattle.std.specs.Prelude.{◌≡◌, ◌≤◌, length, map as each};
    ghost use Rattle.rad_lane.specs.Closes.{left_of};

    /// Returns the lane's number.
    pub fn lane(&self) -> u16
        ensures { result ≡ self.now.lane }
    {
        self.lane
    }

    /// Returns the number of the first request that the book still held.
    pub fn opening(&self) -> u64
        ensures { result ≡ self.now.opening }
    {
        self.opening
    }

    /// Returns the stamps of the requests that the book held, in order.
    pub fn accepted(&self) -> &[Stamp]
        ensures { result.now ≡ self.now.accepted }
    {
        self.accepted.as_slice()
    }

    /// Returns the stamps of those requests that were sent, in order.
    pub fn sent(&self) -> &[Stamp]
        ensures { result.now ≡ self.now.sent }
    {
        let accepted = self.accepted();
        &accepted[..accepted.len() - self.queued.len()]
    }

    /// Returns the answers, in order.
    pub fn answered(&self) -> &[Answered]
        ensures { result.now ≡ self.now.answered }
    {
        self.answered.as_slice()
    }

    /// Returns the sendings that are unanswered, each under its pair. There is no probe among them.
    pub fn outstanding(&self) -> &Slots<Entry>
        ensures { result.now ≡ self.now.outstanding }
    {
        &self.outstanding
    }

    /// Returns the records of the requests that were never sent, in order.
    pub fn queued(&self) -> &Q
        ensures { each (λ k. k.recorded) (Q.items result.now) ≡ self.now.queued }
    {
        &self.queued
    }

    /// Returns the parts. It takes no memory.
    pub fn into_parts(self) -> LeftoverParts<Q>
        ensures { self ≡ left_of result.lane result.opening result.accepted (Q.items result.queued) result.answered result.outstanding }
    {
        let Leftover {
            lane,
            opening,
            accepted,
            answered,
            outstanding,
            queued,
        } = self;
        LeftoverParts {
            lane,
            opening,
            accepted: Held::over(accepted),
            answered: Held::over(answered),
            outstanding,
            queued,
        }
    }
}
