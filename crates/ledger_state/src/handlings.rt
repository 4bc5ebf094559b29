//! How the requests of a lane were handled so far: when each was accepted, and how often it was sent.

ghost use Rattle.std.specs.Prelude.{◌≡◌};
ghost use Rattle.ledger_state.specs.Handlings.{moment_in, moment_word, sendings_in, sendings_word};

use std::alloc::{AllocError, Global};
use std::sync::atomic::{AtomicU64, Ordering};

/// How many times a word distinguishes: the milliseconds of 139 years.
const TIMES: u64 = 1 << 42;

/// How many rows of requests a word with a time distinguishes.
const ROWS: u64 = 1 << 22;

/// How many counts a word distinguishes, and how many rows of requests a word with a count does.
const COUNTS: u64 = 1 << 32;

/// The content of a place that was not written yet. No request of the first rows matches it.
const UNTOLD: u64 = u64::MAX;

/// How a request was handled, as far as that is known.
#[derive(Clone, Copy, Debug, PartialEq, Eq)]
pub struct Handling {
    /// How often it was sent to the home server, in all its rounds.
    pub sendings: Option<u32>,
    /// When it was accepted, in milliseconds since 1970.
    pub accepted: Option<u64>,
}

/// Nothing is known.
pub(crate) const UNKNOWN: Handling = Handling {
    sendings: None,
    accepted: None,
};

/// How the requests of a lane were handled. A request's number, divided by the number of places, gives its row, and the
/// remainder is its place. A word has the row and what is known, so that of another request is not taken for it.
#[derive(Drop)]
pub(crate) struct Handlings {
    /// When the request was accepted that has the place now.
    accepted: Vec<AtomicU64>,
    /// How often the request was sent that has the place now.
    sendings: Vec<AtomicU64>,
}

impl Handlings {
    /// Makes so many places, none of which is written yet.
    ///
    /// # Errors
    ///
    /// `AllocError` if memory is refused.
    pub(crate) fn new(alloc: Global, places: usize) -> Result<Handlings, AllocError> {
        Ok(Handlings {
            accepted: untold(alloc, places)?,
            sendings: untold(alloc, places)?,
        })
    }

    /// Records that the request of this number was accepted at this time, in milliseconds since 1970.
    pub(crate) fn accept(&self, number: u64, time: u64) {
        if let Some((place, row)) = place_by(&self.accepted, number) {
            place.store(word_of_moment(row, time), Ordering::SeqCst);
        }
    }

    /// Records that the request of this number is sent for the first time.
    pub(crate) fn send_first(&self, number: u64) {
        if let Some((place, row)) = place_by(&self.sendings, number) {
            place.store(word_of_sendings(row, 1), Ordering::SeqCst);
        }
    }

    /// Records that the request of this number is sent again, if it has its place still.
    pub(crate) fn send_again(&self, number: u64) {
        if let Some((place, row)) = place_by(&self.sendings, number)
            && let Some(count) = read_sendings(place.load(Ordering::SeqCst), row)
        {
            place.store(
                word_of_sendings(row, count.saturating_add(1)),
                Ordering::SeqCst,
            );
        }
    }

    /// Returns how the request of this number was handled.
    pub(crate) fn of(&self, number: u64) -> Handling {
        let accepted = match place_by(&self.accepted, number) {
            Some((place, row)) => read_moment(place.load(Ordering::SeqCst), row),
            None => None,
        };
        let sendings = match place_by(&self.sendings, number) {
            Some((place, row)) => read_sendings(place.load(Ordering::SeqCst), row),
            None => None,
        };
        Handling { sendings, accepted }
    }
}

fn untold(alloc: Global, places: usize) -> Result<Vec<AtomicU64>, AllocError> {
    let mut all = Vec::with_capacity(alloc, places)?;
    for _ in 0..places {
        all.push(AtomicU64::new(UNTOLD))?;
    }
    Ok(all)
}

/// Returns the place of a number, and its row.
fn place_by(places: &[AtomicU64], number: u64) -> Option<(&AtomicU64, u64)> {
    let count = places.len() as u64;
    if count == 0 {
        return None;
    }
    let place = places.get(usize::try_from(number % count).ok()?)?;
    Some((place, number / count))
}

fn word_of_moment(row: u64, time: u64) -> u64
    ensures { result ≡ moment_word row time }
{
    row % ROWS * TIMES + time % TIMES
}

fn read_moment(word: u64, row: u64) -> Option<u64>
    ensures { result ≡ moment_in row word }
{
    if word / TIMES == row % ROWS {
        Some(word % TIMES)
    } else {
        None
    }
}

fn word_of_sendings(row: u64, count: u32) -> u64
    ensures { result ≡ sendings_word row count }
{
    row % COUNTS * COUNTS + u64::from(count)
}

fn read_sendings(word: u64, row: u64) -> Option<u32>
    ensures { result ≡ sendings_in row word }
{
    if word / COUNTS == row % COUNTS {
        Some((word % COUNTS) as u32)
    } else {
        None
    }
}
