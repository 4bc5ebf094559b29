//! How full the ring of a lane is, by the reports of the two workers that share it.

ghost use Rattle.std.specs.Prelude.{◌<◌, ◌≤◌, ◌+◌, ◌*◌, ◌↔◌, IsTrue};

use super::apart::{Apart, LINE};
use std::alloc::{AllocError, Global};
use std::sync::Arc;
use std::sync::atomic::{AtomicU64, Ordering};

/// What the two workers of a ring share.
#[derive(Drop)]
struct Shared {
    /// The number of responses that the ring has places for.
    places: u64,
    /// The number of responses that the lane's worker added.
    answered: Apart<AtomicU64>,
    /// The number of responses that the front took and sent.
    taken: Apart<AtomicU64>,
}

/// How full the ring of a lane is, by the reports of the lane's worker and of the front.
///
/// The lane's worker reports what it adds before it looks, and the front reports what it took after it took it. So the
/// lane's worker sees at least as many places in use as there are.
///
/// It looks before it sleeps, and the front notifies it after a report if the ring was full. In any other order a
/// notification may be lost.
#[derive(Drop)]
pub(crate) struct RingLevel {
    shared: Arc<Shared>,
    /// Room, since one worker may write what stands behind this while the other one reads it.
    behind: [u64; LINE],
}

/// How full the ring is that a lane's worker adds to, as that worker knows.
#[derive(Drop)]
pub(crate) struct RingRoom {
    level: RingLevel,
    /// How many responses the front had taken when the worker last looked.
    taken: u64,
}

impl RingRoom {
    /// Makes it of a level, before the worker looked.
    pub(crate) fn of(level: RingLevel) -> RingRoom {
        RingRoom { level, taken: 0 }
    }

    /// Returns whether the ring has no free place. The lane's worker alone may ask that: a turn of it adds at most one
    /// response. It looks at what the front took only if the ring would be full without what it took since.
    pub(crate) fn is_full(&mut self) -> bool {
        if !self.level.is_full_after(self.taken) {
            return false;
        }
        self.taken = self.level.taken();
        self.level.is_full_after(self.taken)
    }
}

/// How full a ring was when the front took a response, and is now.
#[derive(Clone, Copy)]
pub(crate) struct RingReading {
    /// Whether no place was free, so that the lane's worker may wait for one.
    pub(crate) was_full: bool,
    /// Whether more than half of the places are in use.
    pub(crate) is_crowded: bool,
}

impl RingReading {
    fn from(before: u64, places: u64) -> RingReading
        ensures full { IsTrue result.was_full ↔ (places ≤ before) }
        ensures crowded { IsTrue result.is_crowded ↔ (places + 2 < 2 * before) }
    {
        RingReading {
            was_full: before >= places,
            is_crowded: before > 0 && before - 1 > places / 2,
        }
    }
}

impl RingLevel {
    /// Makes the level of an empty ring.
    ///
    /// # Errors
    ///
    /// `AllocError` if memory is refused.
    pub(crate) fn new(alloc: Global, places: u32) -> Result<RingLevel, AllocError> {
        let shared = Shared {
            places: u64::from(places),
            answered: Apart::new(AtomicU64::new(0)),
            taken: Apart::new(AtomicU64::new(0)),
        };
        Ok(RingLevel {
            shared: Arc::new(alloc, shared)?,
            behind: [0; LINE],
        })
    }

    /// Returns the level of the same ring.
    ///
    /// # Errors
    ///
    /// `AllocError` if memory is refused.
    pub(crate) fn share(&self) -> Result<RingLevel, AllocError> {
        Ok(RingLevel {
            shared: self.shared.clone()?,
            behind: [0; LINE],
        })
    }

    /// Counts a response that the lane's worker added.
    pub(crate) fn count_answered(&self) {
        self.shared.answered.value.fetch_add(1, Ordering::SeqCst);
    }

    /// Counts a response that the front took and sent.
    pub(crate) fn count_taken(&self) -> RingReading {
        let taken = self.shared.taken.value.fetch_add(1, Ordering::SeqCst);
        RingReading::from(self.in_use_after(taken), self.shared.places)
    }

    pub(crate) fn taken(&self) -> u64 {
        self.shared.taken.value.load(Ordering::SeqCst)
    }

    /// Returns whether the front took all responses that the lane's worker reported.
    pub(crate) fn is_empty(&self) -> bool {
        self.in_use_after(self.taken()) == 0
    }

    fn is_full_after(&self, taken: u64) -> bool {
        self.in_use_after(taken) >= self.shared.places
    }

    /// Returns how many places are in use once the front took `taken` responses.
    fn in_use_after(&self, taken: u64) -> u64 {
        let answered = self.shared.answered.value.load(Ordering::SeqCst);
        answered.saturating_sub(taken)
    }
}
