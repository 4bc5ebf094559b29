ghost use Rattle.std.specs.Prelude.{◌≡◌, ◌≤◌, ◌^◌, max, IfOk};
ghost use Rattle.rad_lane.specs.Book.{moment_in, next_number};
ghost use Rattle.rad_lane.specs.Drains.{drained_at};
ghost use Rattle.rad_lane.specs.Empty.{empty_book};

use crate::answered::AnswerIndex;
use crate::earlier_keys::EarlierKeys;
use crate::{Answered, Entry, Record, Setup, Stamp, Watch};
use block_queue::{Fifo, SlidingList};
use rad_tables::{Duplicates, Moment, Slots};
use std::alloc::{AllocError, Global};
use std::marker::Model;

/// The lane of one home server: the requests that it accepted, in order, and their answers.
///
/// It has no socket and no clock: a moment is passed to each call that needs one, and the call returns what is to be
/// done. A moment before the last one counts as the last one.
///
/// Its calls are of five kinds:
///
/// - Input: [`Lane::accept`] takes a request that the lane [`Lane::takes`], and [`Lane::hear`] takes a datagram from
///   the home server.
/// - Output: [`Lane::step`] takes the next step and writes what is to be sent into the datagram. Call it after each
///   request and each reply, and at the moment that it returned, repeatedly until it is idle.
/// - Removal: [`Lane::turn`] removes the first requests, once they are answered and too old to be repeated.
/// - The end: after [`Lane::drain`] no new request is accepted. Go on with the other calls until [`Lane::is_done`].
///   Then [`Lane::close`] returns what the book holds.
/// - Views, at any time: [`Lane::counts`], [`Lane::is_draining`], and the parts of the book: [`Lane::accepted`],
///   [`Lane::sent`] and [`Lane::answered`].
#[derive(Drop)]
pub struct Lane<Q: Fifo<Record>> {
    /// The lane's number and realms, with its home server's secret and limits.
    pub(crate) setup: Setup,
    /// The number of the first request that the book still holds.
    pub(crate) opening: u64,
    /// The stamps of the requests, in order: first those that were sent, then those that are queued.
    pub(crate) accepted: SlidingList<Stamp>,
    /// The records of the queued requests, in order.
    pub(crate) queued: Q,
    /// The answers, in the order in which they were given.
    pub(crate) answered: SlidingList<Answered>,
    /// For each accepted request that the book holds, the index of its answer, if it is answered.
    pub(crate) indices: SlidingList<Option<AnswerIndex>>,
    /// How many answers the lane has given.
    pub(crate) served: u64,
    /// The outstanding sendings and probe, each under its pair of source port and Identifier. The probe is due at no
    /// moment and never spent, and there is one only while the home server is marked down. So no search for the sending
    /// that is due has a case for it.
    pub(crate) slots: Slots<Entry>,
    /// How many of the entries are sendings.
    pub(crate) outstanding: usize,
    /// A moment before which no entry is due, in milliseconds. It saves the look at each of them.
    pub(crate) none_before: u64,
    /// The number of the last request of each key, if it was accepted recently.
    pub(crate) recent: Duplicates,
    /// The same of each key whose last request was accepted before these.
    pub(crate) earlier: EarlierKeys,
    /// How many requests had been accepted when the lane was drained.
    pub(crate) drain: Option<u64>,
    /// Whether the home server is marked up.
    pub(crate) watch: Watch,
    /// The last moment of a call.
    pub(crate) last: Moment,
}

impl<Q: Fifo<Record>> Model for Lane<Q> {
    ghost use Rattle.rad_lane.specs.Book.{Book};
    ghost use Rattle.std.specs.Coded.{codes};
    ghost use Rattle.std.specs.FinMap as map;
    ghost use Rattle.rad_tables.specs.Pairs.{slot_cmp, coded_slot};
    ghost use Rattle.rad_lane.specs.contracts.entry.Entry as entry;

    ghost Value = { Book };

    ghost coded = { Prim.hlevel (codes, map.code {R = slot_cmp} coded_slot entry.the_row.coded) };

    ghost use Rattle.rad_lane.specs.internal.Invariant.{book_of, Stands};

    ghost view = { λ l. book_of l.setup l.opening l.accepted.items (Q.items l.queued) l.answered.items l.served l.slots l.drain l.watch l.last };

    ghost invariant = { λ l. Stands (book_of l.setup l.opening l.accepted.items (Q.items l.queued) l.answered.items l.served l.slots l.drain l.watch l.last) (Q.items l.queued) l.slots.ports l.recent l.earlier.numbers l.earlier.end l.indices.items l.outstanding l.none_before };
}

/// Why no lane is made.
#[derive(Clone, Copy, Debug, PartialEq, Eq)]
pub enum SetupFault {
    /// Memory was refused.
    OutOfMemory,
}

impl<Q: Fifo<Record>> Lane<Q> {
    /// Makes a lane with an empty book. A refusal drops the setup.
    ///
    /// # Errors
    ///
    /// `OutOfMemory` if memory is refused.
    pub fn new(alloc: Global, setup: Setup) -> Result<Lane<Q>, SetupFault>
        ensures { IfOk result (λ lane. lane ≡ empty_book setup) }
    {
        match Slots::new(alloc, setup.ports()) {
            Err(AllocError) => Err(SetupFault::OutOfMemory),
            Ok(slots) => Ok(Lane {
                setup,
                opening: 0,
                accepted: SlidingList::new(alloc),
                queued: Q::new(alloc),
                answered: SlidingList::new(alloc),
                indices: SlidingList::new(alloc),
                served: 0,
                slots,
                outstanding: 0,
                none_before: 0,
                recent: Duplicates::new(alloc),
                earlier: EarlierKeys::new(alloc),
                drain: None,
                watch: Watch::Up,
                last: Moment::new(0).unwrap(),
            }),
        }
    }

    /// Returns the number of the next request.
    pub(crate) fn next_number(&self) -> u64
        ensures value { result ≡ next_number self.now }
        ensures fits { next_number self.now ≤ 2 ^ 62 }
    {
        self.opening + self.accepted.as_slice().len() as u64
    }

    /// Returns how many requests had been accepted when the lane was drained, or so far if it is not drained.
    pub(crate) fn drained_at(&self) -> u64
        ensures { result ≡ drained_at self.now self.now.drain }
    {
        match self.drain {
            Some(count) => count,
            None => self.next_number(),
        }
    }

    /// Returns the moment that counts in a call: the last one if the given one is before it.
    pub(crate) fn moment_of(&self, moment: Moment) -> Moment
        ensures value { result ≡ moment_in self.now moment }
        ensures later { self.now.last ≤ result }
    {
        later_of(self.last, moment)
    }

    /// Sets the last moment, for calls that change nothing else. A call that changes more writes the field itself,
    /// together with the others, since the fields agree only once all are written.
    pub(crate) fn set_last(&mut self, now: Moment)
        requires { self.old.last ≤ now }
        ensures { self.new ≡ record self.old { last = now } }
    {
        self.last = now;
    }
}

fn later_of(last: Moment, moment: Moment) -> Moment
    ensures { result ≡ max last moment }
{
    if moment.get() < last.get() {
        last
    } else {
        moment
    }
}
