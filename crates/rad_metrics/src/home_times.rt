//! How long the requests of a home server take: when each was accepted and first sent, until it is answered.

ghost use Rattle.std.specs.Prelude.{◌≡◌, ◌+◌, ◌*◌, ◌-◌, ◌/◌, ◌%◌, ◌^◌, ◌==◌, Some, None, if◌then◌else◌};

use crate::counts::{atomics, word_or_0};
use crate::histogram::Histogram;
use rad_realms::LimitNumbers;
use rad_tables::Slot;
use std::alloc::{AllocError, Global};
use std::sync::atomic::{AtomicU64, Ordering};

/// The number of Identifiers on each source port.
const IDENTIFIERS: u32 = 256;

/// The number of further requests that may be accepted between the moment when a lane's worker took a request from a
/// full queue and the moment when it reads that request's time of acceptance.
const BESIDE: u32 = 256;

/// The number of serials that the word of a response distinguishes, besides which side wrote it.
const SERIALS: u64 = 1 << 23;

/// The content of a place that was not written yet. No number that is reported there first matches it.
const UNTOLD: u64 = u64::MAX;

/// How many numbers a word distinguishes.
const NUMBERS: u64 = 1 << 24;

/// How many microseconds a word distinguishes: those of twelve days.
const TIMES: u64 = 1 << 40;

/// What the histograms of the home servers are of.
#[derive(Clone, Copy)]
pub enum Timed {
    Replies,
    Responses,
}

/// The times of a home server's unanswered requests, and how long the others took. No request takes memory for that:
/// each queued number, pair and serial has a place, which is allocated at the start. The place of a number or serial
/// has both it and a time in one word. That of a pair has the time alone.
#[derive(Drop)]
pub(crate) struct HomeTimes {
    /// For each number that may be queued, at the remainder of its division by the length: when that request was
    /// accepted.
    waiting: Vec<AtomicU64>,
    /// For each pair of source port and Identifier: when the request that is outstanding under it was accepted.
    accepted: Vec<AtomicU64>,
    /// For each pair: when that request was first sent; 0 if none is outstanding.
    sent: Vec<AtomicU64>,
    /// For each serial that may be on its way to the client, at the remainder of its division by the length: what was
    /// first reported of it.
    leaving: Vec<AtomicU64>,
    replies: Histogram,
    responses: Histogram,
}

impl HomeTimes {
    /// Makes the times of a lane with these limits that accepted no request yet.
    ///
    /// # Errors
    ///
    /// `AllocError` if memory is refused.
    pub(crate) fn new(alloc: Global, limits: LimitNumbers) -> Result<HomeTimes, AllocError> {
        let pairs = limits.ports.saturating_mul(IDENTIFIERS) as usize;
        let waiting = limits.queue.saturating_add(BESIDE) as usize;
        let leaving = limits.ring.saturating_mul(2) as usize;
        Ok(HomeTimes {
            waiting: atomics(alloc, waiting, UNTOLD)?,
            accepted: atomics(alloc, pairs, 0)?,
            sent: atomics(alloc, pairs, 0)?,
            leaving: atomics(alloc, leaving, UNTOLD)?,
            replies: Histogram::new(alloc)?,
            responses: Histogram::new(alloc)?,
        })
    }

    /// Records that the request of this number was accepted at this time.
    pub(crate) fn was_accepted(&self, number: u64, time: u64) {
        if let Some(place) = place_by(&self.waiting, number) {
            place.store(word_of(number, time), Ordering::SeqCst);
        }
    }

    /// Returns when the request of this number was accepted, if the front has reported that.
    pub(crate) fn accepted_at(&self, number: u64) -> Option<u64> {
        let place = place_by(&self.waiting, number)?;
        time_in(place.load(Ordering::SeqCst), number)
    }

    /// Records that a request that was accepted at this time is sent for the first time, under this pair.
    pub(crate) fn first_sent(&self, slot: Slot, accepted: u64, now: u64) {
        store(&self.accepted, slot, accepted);
        store(&self.sent, slot, now.max(1));
    }

    /// Records that the request that is outstanding under this pair is answered, by the response of this serial.
    pub(crate) fn replied(&self, serial: u64, slot: Slot, now: u64) {
        let sent = load(&self.sent, slot);
        store(&self.sent, slot, 0);
        if sent != 0 {
            self.replies.count(now.saturating_sub(sent));
            let accepted = load(&self.accepted, slot);
            let tag = serial % SERIALS * 2;
            if let Some(left) = self.tell(serial, tag, tag + 1, accepted) {
                self.responses.count(passed(accepted, left));
            }
        }
    }

    /// Records that the response of this serial is sent at this time.
    pub(crate) fn left(&self, serial: u64, time: u64) {
        let tag = serial % SERIALS * 2;
        if let Some(accepted) = self.tell(serial, tag + 1, tag, time) {
            self.responses.count(passed(accepted, time));
        }
    }

    /// Keeps the time that a side reports of a response, under its own tag, and returns what the other side reported under
    /// the other tag, if that came first. A lane's worker has the even tags, and the front the odd ones.
    fn tell(&self, serial: u64, own: u64, others: u64, time: u64) -> Option<u64> {
        let place = place_by(&self.leaving, serial)?;
        time_in(place.swap(word_of(own, time), Ordering::SeqCst), others)
    }

    /// Returns the longest time from the first sending of an outstanding request to `now`, in milliseconds.
    pub(crate) fn oldest(&self, now: u64) -> u64 {
        let mut oldest = now;
        for place in &self.sent {
            let sent = place.load(Ordering::SeqCst);
            if sent != 0 && sent < oldest {
                oldest = sent;
            }
        }
        now.saturating_sub(oldest) / 1000
    }

    /// Returns a histogram.
    pub(crate) fn histogram(&self, timed: Timed) -> &Histogram {
        match timed {
            Timed::Replies => &self.replies,
            Timed::Responses => &self.responses,
        }
    }
}

/// Returns the place of a number: the one at the remainder of its division by the number of places.
fn place_by(places: &[AtomicU64], number: u64) -> Option<&AtomicU64> {
    let count = places.len() as u64;
    if count == 0 {
        return None;
    }
    places.get(usize::try_from(number % count).ok()?)
}

fn load(places: &[AtomicU64], slot: Slot) -> u64 {
    word_or_0(places.get(place_in(slot)))
}

fn store(places: &[AtomicU64], slot: Slot, time: u64) {
    if let Some(place) = places.get(place_in(slot)) {
        place.store(time, Ordering::SeqCst);
    }
}

fn place_in(slot: Slot) -> usize
    ensures { result ≡ slot.port * 256 + slot.identifier }
{
    usize::from(slot.port) * 256 + usize::from(slot.identifier)
}

fn word_of(number: u64, time: u64) -> u64
    ensures { result ≡ number % 2 ^ 24 * 2 ^ 40 + time % 2 ^ 40 }
{
    number % NUMBERS * TIMES + time % TIMES
}

fn time_in(word: u64, number: u64) -> Option<u64>
    ensures { result ≡ (if word / 2 ^ 40 == number % 2 ^ 24 then Some (word % 2 ^ 40) else None) }
{
    if word / TIMES == number % NUMBERS {
        Some(word % TIMES)
    } else {
        None
    }
}

/// Returns how many microseconds lie between two times as words have them, of which `to` is the later one.
fn passed(from: u64, to: u64) -> u64
    ensures { result ≡ (to % 2 ^ 40 + 2 ^ 40 - from % 2 ^ 40) % 2 ^ 40 }
{
    (to % TIMES + TIMES - from % TIMES) % TIMES
}
