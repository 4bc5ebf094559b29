//! Words for events: one for each event of each worker and of each client. They are counted or written without a lock, and
//! without memory.

use crate::event::CountedEvent;
use crate::metric::{Metric, metrics};
use std::alloc::{AllocError, Global};
use std::sync::atomic::{AtomicU64, Ordering};

/// How many words keep what one worker writes apart from what another one reads: those of two lines of a processor's cache.
/// So no worker waits for the words of another one.
pub(crate) const APART: usize = 16;

/// A word for each event, in a row for each worker and each client. All are 0 at first.
#[derive(Drop)]
pub struct Counts {
    workers: Vec<AtomicU64>,
    clients: Vec<AtomicU64>,
    /// The place of the first word of each metric in a row, in the order of [`Counted`].
    firsts: Vec<usize>,
    /// How many words a row has.
    width: usize,
}

impl Counts {
    /// Makes the words of the front and of `lanes` lanes, and of `clients` clients.
    ///
    /// # Errors
    ///
    /// `AllocError` if memory is refused.
    pub fn new(alloc: Global, lanes: usize, clients: usize) -> Result<Counts, AllocError> {
        let mut firsts = Vec::new(alloc);
        let mut width = APART;
        for row in metrics() {
            if let Metric::Counted(metric) = row.metric {
                firsts.push(width)?;
                width = width.saturating_add(metric.width());
            }
        }
        let workers = lanes.saturating_add(1);
        Ok(Counts {
            workers: atomics(alloc, workers.saturating_mul(width), 0)?,
            clients: atomics(alloc, clients.saturating_mul(width), 0)?,
            firsts,
            width,
        })
    }

    /// Returns the word of an event in a row.
    pub fn word(&self, row: usize, event: CountedEvent) -> Option<&AtomicU64> {
        let rows = if event.metric.is_of_clients() {
            &self.clients
        } else {
            &self.workers
        };
        let first = *self.firsts.get(event.metric as usize)?;
        let place = row.checked_mul(self.width)?.checked_add(first)?;
        rows.get(place.checked_add(event.reason.place())?)
    }

    /// Adds `times` to the word of an event in a row.
    pub fn add(&self, row: usize, event: CountedEvent, times: u64) {
        if let Some(word) = self.word(row, event) {
            word.fetch_add(times, Ordering::SeqCst);
        }
    }

    /// Returns the word of an event in a row, or 0 if there is no such row.
    pub fn get(&self, row: usize, event: CountedEvent) -> u64 {
        word_or_0(self.word(row, event))
    }

    /// Writes the word of an event in a row, and returns what it was; 0 if there is no such row.
    pub fn swap(&self, row: usize, event: CountedEvent, value: u64) -> u64 {
        match self.word(row, event) {
            Some(word) => word.swap(value, Ordering::SeqCst),
            None => 0,
        }
    }
}

/// Returns what a word holds; 0 if there is no such word.
pub(crate) fn word_or_0(word: Option<&AtomicU64>) -> u64 {
    match word {
        Some(word) => word.load(Ordering::SeqCst),
        None => 0,
    }
}

/// Makes `count` words with the content `first`.
///
/// # Errors
///
/// `AllocError` if memory is refused.
pub(crate) fn atomics(
    alloc: Global,
    count: usize,
    first: u64,
) -> Result<Vec<AtomicU64>, AllocError> {
    let mut words = Vec::new(alloc);
    for _ in 0..count {
        words.push(AtomicU64::new(first))?;
    }
    Ok(words)
}
