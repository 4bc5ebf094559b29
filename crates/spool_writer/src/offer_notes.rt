//! What became of the request that was given last, and how many places became free in each lane.

use rad_desk::{Earlier, Handled, Worker, WorkerReport};
use rad_lane::{Refusal, Taken};
use rad_tables::Key;
use std::alloc::{AllocError, Global};
use std::sync::atomic::{AtomicU64, Ordering};

/// What becomes of a request that comes in again.
#[derive(Clone, Copy, Debug, PartialEq, Eq)]
pub(crate) enum Fate {
    /// Its lane took it as new.
    Taken,
    /// Its lane has it already.
    Known,
    /// Its lane refuses it for another reason than want of room, or it was dropped.
    Over,
    /// Its queue is full.
    QueueFull,
    /// Its book is full.
    BookFull,
    /// Memory was refused.
    NoMemory,
    /// Its lane is drained.
    Drained,
}

/// Each fate, at its place.
const FATES: &[Fate] = &[
    Fate::Taken,
    Fate::Known,
    Fate::Over,
    Fate::QueueFull,
    Fate::BookFull,
    Fate::NoMemory,
    Fate::Drained,
];

impl Fate {
    ghost use Rattle.std.specs.Prelude.{◌≡◌};
    ghost use Rattle.spool_writer.specs.Offers.{is_done_with};

    /// Returns whether a lane is done with a request of which this became.
    pub(crate) fn is_done(self) -> bool
        ensures { result ≡ is_done_with self }
    {
        matches!(self, Fate::Taken | Fate::Known | Fate::Over)
    }

    /// Returns what this outcome says of a request.
    fn of(outcome: Result<Handled, Refusal>) -> Fate {
        match outcome {
            Ok(Handled::Taken(_, Taken::New(_))) => Fate::Taken,
            Ok(_) => Fate::Known,
            Err(Refusal::QueueFull) => Fate::QueueFull,
            Err(Refusal::BookFull) => Fate::BookFull,
            Err(Refusal::OutOfMemory) => Fate::NoMemory,
            Err(Refusal::Draining) => Fate::Drained,
            Err(Refusal::TooLong | Refusal::WrongLane) => Fate::Over,
        }
    }
}

/// How many places became free in a lane while requests waited.
#[derive(Clone, Copy)]
pub(crate) struct Freed {
    /// Of its queue.
    pub(crate) queue: u64,
    /// Of its book.
    pub(crate) book: u64,
}

#[derive(Drop)]
struct FreedPlaces {
    queue: AtomicU64,
    book: AtomicU64,
}

/// What names the first acceptance of a request.
#[derive(Drop)]
struct FirstNote {
    /// 1 if a request is noted.
    is_noted: AtomicU64,
    run: AtomicU64,
    lane: AtomicU64,
    number: AtomicU64,
}

/// What the front and the workers of the lanes note for [`crate::Offers`].
#[derive(Drop)]
pub struct OfferNotes {
    /// How many requests wait.
    waiting: AtomicU64,
    /// The place of the fate of the datagram that was handled last.
    fate: AtomicU64,
    /// What names the first acceptance of the request that was given last, if that was in an earlier run and no lane took it yet.
    first: FirstNote,
    /// How many places became free in each lane while requests waited.
    freed: Vec<FreedPlaces>,
    /// How many datagrams had to wait.
    held: AtomicU64,
    /// The keys of the requests that earlier runs answered.
    answered: Vec<Key>,
}

impl OfferNotes {
    /// Makes the notes of so many lanes, with the keys of the requests that earlier runs answered.
    ///
    /// # Errors
    ///
    /// `AllocError` if memory is refused.
    pub(crate) fn new(
        alloc: Global,
        lanes: usize,
        answered: Vec<Key>,
    ) -> Result<OfferNotes, AllocError> {
        let mut freed = Vec::with_capacity(alloc, lanes)?;
        for _ in 0..lanes {
            freed.push(FreedPlaces {
                queue: AtomicU64::new(0),
                book: AtomicU64::new(0),
            })?;
        }
        Ok(OfferNotes {
            waiting: AtomicU64::new(0),
            fate: AtomicU64::new(0),
            first: FirstNote {
                is_noted: AtomicU64::new(0),
                run: AtomicU64::new(0),
                lane: AtomicU64::new(0),
                number: AtomicU64::new(0),
            },
            freed,
            held: AtomicU64::new(0),
            answered,
        })
    }

    /// Notes how many requests wait.
    pub(crate) fn set_waiting(&self, count: u64) {
        self.waiting.store(count, Ordering::SeqCst);
    }

    /// Returns how many requests wait for room, of those that earlier runs left and of those behind them.
    pub fn waiting(&self) -> u64 {
        self.waiting.load(Ordering::SeqCst)
    }

    /// Forgets what became of the datagram before, since a request is given. An earlier run accepted that first, if so.
    pub(crate) fn begin(&self, first: Option<Earlier>) {
        self.note(Fate::Over);
        if let Some(Earlier { run, lane, number }) = first {
            self.first.run.store(run, Ordering::SeqCst);
            self.first.lane.store(u64::from(lane), Ordering::SeqCst);
            self.first.number.store(number, Ordering::SeqCst);
            self.first.is_noted.store(1, Ordering::SeqCst);
        }
    }

    /// Takes what names the first acceptance of the request that was given last, if that was in an earlier run.
    pub(crate) fn take_first(&self) -> Option<Earlier> {
        if self.first.is_noted.load(Ordering::SeqCst) == 0 {
            return None;
        }
        self.first.is_noted.store(0, Ordering::SeqCst);
        let lane = self.first.lane.load(Ordering::SeqCst);
        Some(Earlier {
            run: self.first.run.load(Ordering::SeqCst),
            lane: u16::try_from(lane).ok()?,
            number: self.first.number.load(Ordering::SeqCst),
        })
    }

    fn note(&self, fate: Fate) {
        let place = FATES.iter().position(|other| *other == fate);
        self.fate.store(place.unwrap_or(0) as u64, Ordering::SeqCst);
    }

    /// Notes the result of a datagram.
    pub(crate) fn handled(&self, outcome: Result<Handled, Refusal>) {
        if self.waiting() != 0 {
            self.note(Fate::of(outcome));
        }
    }

    /// Returns what became of the datagram that was handled since [`OfferNotes::begin`]. If none was, it was dropped.
    pub(crate) fn fate(&self) -> Fate {
        let place = self.fate.load(Ordering::SeqCst) as usize;
        FATES.get(place).copied().unwrap_or(Fate::Over)
    }

    /// Notes what the worker of a lane reports, if places became free by that.
    pub fn see(&self, worker: Worker, report: &WorkerReport<'_>) {
        let Worker::Lane(lane) = worker else {
            return;
        };
        if self.waiting() == 0 {
            return;
        }
        let Some(freed) = self.freed.get(usize::from(lane)) else {
            return;
        };
        match report {
            WorkerReport::FirstSent { .. } => {
                freed.queue.fetch_add(1, Ordering::SeqCst);
            }
            WorkerReport::Cut(count) => {
                freed.book.fetch_add(*count, Ordering::SeqCst);
            }
            _ => {}
        }
    }

    /// Returns how many places became free in a lane while requests waited.
    pub(crate) fn freed(&self, lane: usize) -> Freed {
        match self.freed.get(lane) {
            Some(freed) => Freed {
                queue: freed.queue.load(Ordering::SeqCst),
                book: freed.book.load(Ordering::SeqCst),
            },
            None => Freed { queue: 0, book: 0 },
        }
    }

    /// Returns the keys of the requests that earlier runs answered.
    pub(crate) fn answered(&self) -> &[Key] {
        self.answered.as_slice()
    }

    /// Counts a datagram that has to wait.
    pub(crate) fn hold(&self) {
        self.held.fetch_add(1, Ordering::SeqCst);
    }

    /// Returns how many datagrams had to wait.
    pub fn held(&self) -> u64 {
        self.held.load(Ordering::SeqCst)
    }
}
