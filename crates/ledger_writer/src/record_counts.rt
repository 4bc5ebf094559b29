//! How often responses could not be sent, or were sent again, until lines tell it.

use crate::parcel::CountKey;
use std::alloc::{AllocError, Global};
use std::collections::{BTreeMap, VecDeque};

/// For how many milliseconds more of a record and kind is counted before a line tells it. A request may be repeated while
/// the response waits in the ring. Then its entry comes meanwhile, and stands before that line.
const PAUSE: u64 = 5000;

/// The most records and kinds that are counted at once.
const MOST: usize = 65_536;

/// What no line told yet of each record and kind.
#[derive(Drop)]
pub(crate) struct RecordCounts {
    counts: BTreeMap<CountKey, u64>,
    /// Since when each is counted, the oldest first.
    begun: VecDeque<Begun>,
    /// Of each lane, whether its last entry was dropped. Until an entry behind it is there, nothing in the ledger tells
    /// that one is missing, so no line may name its record.
    gaps: Vec<bool>,
}

/// When the count of a record and kind began, in milliseconds since 1970.
#[derive(Clone, Copy)]
struct Begun {
    time: u64,
    key: CountKey,
}

impl RecordCounts {
    /// Makes the counts of so many lanes. Nothing is counted yet.
    pub(crate) fn new(alloc: Global, lanes: usize) -> Result<RecordCounts, AllocError> {
        let mut gaps = Vec::with_capacity(alloc, lanes)?;
        gaps.resize(lanes, false)?;
        Ok(RecordCounts {
            counts: BTreeMap::new(alloc),
            begun: VecDeque::new(alloc),
            gaps,
        })
    }

    /// Records whether the last entry of a lane was dropped.
    pub(crate) fn set_gap(&mut self, lane: u16, is_gap: bool) {
        if let Some(gap) = self.gaps.get_mut(usize::from(lane)) {
            *gap = is_gap;
        }
    }

    /// Returns whether the last entry of a lane was dropped.
    pub(crate) fn is_gap(&self, lane: u16) -> bool {
        self.gaps.get(usize::from(lane)).copied().unwrap_or(false)
    }

    /// Counts one more of a record and kind of which some are counted, and returns whether that is so.
    pub(crate) fn add(&mut self, key: CountKey) -> bool {
        match self.counts.get_mut(&key) {
            Some(count) => {
                *count = count.saturating_add(1);
                true
            }
            None => false,
        }
    }

    /// Begins a count of so many of a record and kind. If memory is refused, they are forgotten.
    pub(crate) fn remember(&mut self, time: u64, key: CountKey, count: u64) {
        if self.counts.insert(key, count).is_ok()
            && self.begun.push_back(Begun { time, key }).is_err()
        {
            self.counts.remove(&key);
        }
    }

    /// Returns whether as many are counted as may be.
    pub(crate) fn is_full(&self) -> bool {
        self.begun.len() >= MOST
    }

    /// Takes the oldest count, if it began so long ago.
    pub(crate) fn take_due(&mut self, time: u64) -> Option<(CountKey, u64)> {
        let first = self.begun.front()?;
        if time >= first.time && time - first.time < PAUSE {
            return None;
        }
        self.take()
    }

    /// Takes the oldest count.
    pub(crate) fn take(&mut self) -> Option<(CountKey, u64)> {
        let Begun { key, .. } = self.begun.pop_front()?;
        Some((key, self.counts.remove(&key).unwrap_or(0)))
    }

    /// Returns of how many records and kinds some are counted.
    pub(crate) fn len(&self) -> usize {
        self.begun.len()
    }
}
