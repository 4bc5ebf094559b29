//! What is told of a lane: which entries are handed over to the ledger, written and lost, and which requests are left.

use crate::handlings::Handlings;
use std::alloc::{AllocError, Global};
use std::sync::atomic::{AtomicU64, Ordering};

/// The entries of a lane that are lost.
#[derive(Clone, Copy, Debug, PartialEq, Eq)]
pub(crate) struct LostSerials {
    /// How many there are.
    pub(crate) count: u64,
    /// The serial of the first one.
    pub(crate) from: u64,
    /// The serial of the last one.
    pub(crate) to: u64,
}

/// What the front and the thread that writes the ledger tell of a lane.
#[derive(Drop)]
pub(crate) struct LaneState {
    /// The serial behind the last response that was handed over.
    handed: AtomicU64,
    /// The serial behind the last entry that was written.
    written: AtomicU64,
    /// How many are lost and not logged yet.
    count: AtomicU64,
    /// The serial of the first one of these.
    from: AtomicU64,
    /// The serial of the last one.
    to: AtomicU64,
    /// How many requests were told as left.
    left: AtomicU64,
    /// One more than how many requests the lane accepted, once all that is left of it was told; 0 before.
    accepted: AtomicU64,
    pub(crate) handlings: Handlings,
}

impl LaneState {
    /// Makes it for lanes, none of whose entries is lost, each with so many places for how requests are handled.
    ///
    /// # Errors
    ///
    /// `AllocError` if memory is refused.
    pub(crate) fn of_lanes(alloc: Global, places: &[usize]) -> Result<Vec<LaneState>, AllocError> {
        let mut all = Vec::with_capacity(alloc, places.len())?;
        for places in places {
            let handlings = Handlings::new(alloc, *places)?;
            all.push(LaneState {
                handed: AtomicU64::new(0),
                written: AtomicU64::new(0),
                count: AtomicU64::new(0),
                from: AtomicU64::new(0),
                to: AtomicU64::new(0),
                left: AtomicU64::new(0),
                accepted: AtomicU64::new(0),
                handlings,
            })?;
        }
        Ok(all)
    }

    /// Records that the response of this serial was handed over. A lane's serials are 0, 1, 2 and so on.
    pub(crate) fn hand_over(&self, serial: u64) {
        self.handed
            .store(serial.saturating_add(1), Ordering::SeqCst);
    }

    /// Returns how many responses were handed over.
    pub(crate) fn handed(&self) -> u64 {
        self.handed.load(Ordering::SeqCst)
    }

    /// Records that the entry of this serial was written.
    pub(crate) fn write(&self, serial: u64) {
        self.written
            .store(serial.saturating_add(1), Ordering::SeqCst);
    }

    /// Returns the first and the last serial behind the last entry that was written, if there are any.
    pub(crate) fn missing(&self) -> Option<(u64, u64)> {
        let from = self.written.load(Ordering::SeqCst);
        let behind = self.handed();
        if from < behind {
            Some((from, behind - 1))
        } else {
            None
        }
    }

    /// Records that entries are lost, beside those that are not logged yet.
    pub(crate) fn lose(&self, lost: LostSerials) {
        if self.count.load(Ordering::SeqCst) == 0 {
            self.from.store(lost.from, Ordering::SeqCst);
        }
        self.to.store(lost.to, Ordering::SeqCst);
        self.count.fetch_add(lost.count, Ordering::SeqCst);
    }

    /// Returns what is lost and not logged yet, if anything is. From now on it counts as logged.
    pub(crate) fn take_lost(&self) -> Option<LostSerials> {
        match self.count.swap(0, Ordering::SeqCst) {
            0 => None,
            count => Some(LostSerials {
                count,
                from: self.from.load(Ordering::SeqCst),
                to: self.to.load(Ordering::SeqCst),
            }),
        }
    }

    /// Counts a request that is left.
    pub(crate) fn leave(&self) {
        self.left.fetch_add(1, Ordering::SeqCst);
    }

    /// Records how many requests the lane accepted. All that is left of it was counted before.
    pub(crate) fn end(&self, accepted: u64) {
        self.accepted
            .store(accepted.saturating_add(1), Ordering::SeqCst);
    }

    /// Returns how many requests were accepted, and how many of them are left, once all that is left was told.
    pub(crate) fn ended(&self) -> Option<(u64, u64)> {
        match self.accepted.load(Ordering::SeqCst) {
            0 => None,
            told => Some((told - 1, self.left.load(Ordering::SeqCst))),
        }
    }
}
