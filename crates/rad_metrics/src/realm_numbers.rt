//! How many requests came for each realm, and for all that are in no row of the table.

use crate::counts::{atomics, word_or_0};
use rad_realms::{Config, Realm};
use std::alloc::{AllocError, Global};
use std::sync::atomic::{AtomicU64, Ordering};

/// How many requests came for each realm of a configuration, and for all other realms together: new ones, repeats, and
/// those that were refused.
#[derive(Drop)]
pub struct RealmNumbers {
    /// Those of the realms of one lane stand together, in the order of the configuration.
    counts: Vec<AtomicU64>,
    /// The place of the first one of each lane.
    firsts: Vec<usize>,
    /// Those of the realms that are in no row of the table.
    unlisted: AtomicU64,
}

impl RealmNumbers {
    /// Makes the numbers of a configuration's realms, all 0.
    ///
    /// # Errors
    ///
    /// `AllocError` if memory is refused.
    pub fn new(alloc: Global, config: &Config) -> Result<RealmNumbers, AllocError> {
        let mut firsts = Vec::new(alloc);
        let mut first = 0_usize;
        for lane in 0..config.homes().len() {
            firsts.push(first)?;
            first = first.saturating_add(realms_of(config.realms(), lane));
        }
        Ok(RealmNumbers {
            counts: atomics(alloc, first, 0)?,
            firsts,
            unlisted: AtomicU64::new(0),
        })
    }

    /// Counts a request for the realm of this rank among those of a lane.
    pub(crate) fn count(&self, lane: u16, rank: usize) {
        if let Some(count) = self.count_of(lane, rank) {
            count.fetch_add(1, Ordering::SeqCst);
        }
    }

    /// Returns how many requests came for the realm of this rank among those of a lane; 0 if there is no such one.
    pub fn get(&self, lane: u16, rank: usize) -> u64 {
        word_or_0(self.count_of(lane, rank))
    }

    /// Counts a request for a realm that is in no row of the table.
    pub(crate) fn count_unlisted(&self) {
        self.unlisted.fetch_add(1, Ordering::SeqCst);
    }

    /// Returns how many requests came for realms that are in no row of the table.
    pub fn unlisted(&self) -> u64 {
        self.unlisted.load(Ordering::SeqCst)
    }

    fn count_of(&self, lane: u16, rank: usize) -> Option<&AtomicU64> {
        let first = *self.firsts.get(usize::from(lane))?;
        self.counts.get(first.checked_add(rank)?)
    }
}

/// Returns how many of these realms lead to a lane.
pub(crate) fn realms_of(realms: &[Realm], lane: usize) -> usize {
    let mut count = 0_usize;
    for realm in realms {
        if usize::from(realm.lane()) == lane {
            count = count.saturating_add(1);
        }
    }
    count
}
