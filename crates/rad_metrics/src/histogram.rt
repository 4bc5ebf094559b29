//! A histogram: how often something took no longer than each of some bounds.

ghost use Rattle.std.specs.Prelude.{◌≡◌, ◌<◌, ◌≤◌, ◌-◌};
ghost use Rattle.rad_metrics.specs.Buckets.{bound_of, bound_text};

use crate::counts::{APART, atomics, word_or_0};
use std::alloc::{AllocError, Global};
use std::sync::atomic::{AtomicU64, Ordering};

/// The number of buckets: one for each bound, and one for what took longer than all of them.
pub(crate) const BUCKETS: usize = 18;

/// The place of the first bucket's word.
const FIRST: usize = APART;

/// The place of the word with the sum of all durations, in microseconds.
const SUM: usize = FIRST + BUCKETS;

/// How often something took how long. Counting takes no lock and no memory.
///
/// The words are apart from all else, so no worker waits for what another one counts.
#[derive(Drop)]
pub(crate) struct Histogram {
    words: Vec<AtomicU64>,
}

impl Histogram {
    /// Makes a histogram without any duration.
    ///
    /// # Errors
    ///
    /// `AllocError` if memory is refused.
    pub(crate) fn new(alloc: Global) -> Result<Histogram, AllocError> {
        Ok(Histogram {
            words: atomics(alloc, SUM + 1 + APART, 0)?,
        })
    }

    /// Counts a duration of `microseconds` microseconds.
    pub(crate) fn count(&self, microseconds: u64) {
        self.add(FIRST + bucket_of(microseconds), 1);
        self.add(SUM, microseconds);
    }

    fn add(&self, place: usize, more: u64) {
        if let Some(word) = self.words.get(place) {
            word.fetch_add(more, Ordering::SeqCst);
        }
    }

    /// Returns how many durations are in a bucket: above the bound of the bucket before it, and not above its own.
    pub(crate) fn get(&self, bucket: usize) -> u64 {
        word_or_0(self.words.get(bucket.saturating_add(FIRST)))
    }

    /// Returns the sum of all durations, in microseconds.
    pub(crate) fn sum(&self) -> u64 {
        word_or_0(self.words.get(SUM))
    }
}

/// Returns the bucket of a duration of `microseconds` microseconds: the first whose bound is not below it, or the last
/// if all bounds are below it.
pub(crate) fn bucket_of(microseconds: u64) -> usize
    ensures most { result ≤ 17 }
    ensures within { result < 17 → microseconds ≤ bound_of result }
    ensures above { 0 < result → bound_of (result - 1) < microseconds }
{
    match microseconds {
        ..=250 => 0,
        ..=500 => 1,
        ..=1000 => 2,
        ..=2500 => 3,
        ..=5000 => 4,
        ..=10000 => 5,
        ..=25000 => 6,
        ..=50000 => 7,
        ..=100000 => 8,
        ..=250000 => 9,
        ..=500000 => 10,
        ..=1000000 => 11,
        ..=2500000 => 12,
        ..=5000000 => 13,
        ..=10000000 => 14,
        ..=30000000 => 15,
        ..=60000000 => 16,
        _ => 17,
    }
}

/// Returns the bound of a bucket in seconds, as a label.
pub(crate) fn bound_label(bucket: usize) -> &'static str
    ensures { result.now ≡ bound_text bucket }
{
    match bucket {
        0 => "0.00025",
        1 => "0.0005",
        2 => "0.001",
        3 => "0.0025",
        4 => "0.005",
        5 => "0.01",
        6 => "0.025",
        7 => "0.05",
        8 => "0.1",
        9 => "0.25",
        10 => "0.5",
        11 => "1",
        12 => "2.5",
        13 => "5",
        14 => "10",
        15 => "30",
        16 => "60",
        _ => "+Inf",
    }
}
