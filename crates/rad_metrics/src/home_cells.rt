//! What the workers reported of each home server.

ghost use Rattle.std.specs.Prelude.{◌≡◌, ◌+◌, ◌-◌, ◌^◌, ◌==◌, if◌then◌else◌, min};
ghost use Rattle.rad_metrics.specs.Times.{IsSince1970};

use crate::home_metric::Reading;
use crate::home_times::HomeTimes;
use rad_desk::Standing;
use rad_lane::Counts;
use rad_realms::{Home, LimitNumbers};
use rad_tables::{Moment, Slot};
use std::alloc::{AllocError, Global};
use std::sync::atomic::{AtomicBool, AtomicU64, Ordering};
use std::sync::{Mutex, Wait};

/// What is known of a home server. Only its worker writes it, except for the times and for whether the worker is asked.
#[derive(Drop)]
pub(crate) struct HomeCell {
    /// Whether its worker is to report the standing of its lane.
    is_asked: AtomicBool,
    /// Since when it is marked up or down, in milliseconds since the start.
    since: AtomicU64,
    /// How long it was marked down.
    down: DownTime,
    /// One more than when it last answered, in milliseconds since the start; 0 before its first answer.
    last_answer: AtomicU64,
    limits: LimitNumbers,
    /// The times of its requests.
    pub(crate) times: HomeTimes,
    reading: Mutex<Reading>,
}

impl HomeCell {
    /// Makes the cell of a home server of which nothing was reported yet: it is up, and its lane is empty.
    ///
    /// # Errors
    ///
    /// `AllocError` if memory is refused.
    fn new(alloc: Global, home: &Home) -> Result<HomeCell, AllocError> {
        let limits = home.limits().numbers();
        let times = HomeTimes::new(alloc, limits)?;
        Ok(HomeCell {
            is_asked: AtomicBool::new(false),
            since: AtomicU64::new(0),
            down: DownTime::new(),
            last_answer: AtomicU64::new(0),
            limits,
            times,
            reading: Mutex::new(first_reading(limits)),
        })
    }

    /// Records that it answered a request, of this pair, under this serial. The turn of its worker began `turn` microseconds
    /// after the start.
    pub(crate) fn answered(&self, serial: u64, slot: Slot, turn: u64) {
        self.times.replied(serial, slot, turn);
        self.last_answer.store(turn / 1000 + 1, Ordering::SeqCst);
    }

    /// Records that it is marked down in a turn of its worker that began `turn` microseconds after the start.
    pub(crate) fn went_down(&self, turn: u64) {
        self.since.store(turn / 1000, Ordering::SeqCst);
        self.down.begin(turn);
    }

    /// Records that it is marked up in a turn of its worker that began `turn` microseconds after the start.
    pub(crate) fn went_up(&self, turn: u64) {
        self.since.store(turn / 1000, Ordering::SeqCst);
        self.down.end(turn);
    }

    /// Records how its lane stands at a moment, in a turn of its worker that began `turn` microseconds after the start, and
    /// that this number of Accounting-Requests were sent to it.
    pub(crate) fn stands(&self, moment: Moment, standing: Standing, turn: u64, sent: u64) {
        self.set_standing(Reading {
            limits: self.limits,
            standing,
            moment,
            told: turn / 1000,
            since: self.since.load(Ordering::SeqCst),
            down: self.down.until(turn) / 1000,
            last_answer: self.last_answer.load(Ordering::SeqCst),
            sent,
            oldest_outstanding: self.times.oldest(turn),
        });
    }

    /// Asks its worker to report the standing of its lane.
    pub(crate) fn ask(&self) {
        self.is_asked.store(true, Ordering::SeqCst);
    }

    /// Returns whether its worker is to report the standing of its lane.
    pub(crate) fn is_asked(&self) -> bool {
        self.is_asked.load(Ordering::SeqCst)
    }

    /// Records what was read of its lane. If the reading before is being read, nothing is recorded, and its worker is asked
    /// again.
    fn set_standing(&self, read: Reading) {
        if let Some(mut reading) = self.reading.try_lock() {
            *reading = read;
            drop(reading);
            self.is_asked.store(false, Ordering::SeqCst);
        }
    }

    /// Returns what was last reported, where the program started at this time, in milliseconds since 1970.
    pub(crate) fn reading<R: Wait>(&self, rt: &R, started: u64) -> Reading {
        let reading = self.reading.lock(rt);
        since_1970(*reading, started)
    }
}

/// How long a home server was marked down, in microseconds. Only its worker writes it.
#[derive(Drop)]
struct DownTime {
    /// How long it was marked down before it was last marked up.
    before: AtomicU64,
    /// When it was marked down; 0 while it is marked up.
    since: AtomicU64,
}

impl DownTime {
    fn new() -> DownTime {
        DownTime {
            before: AtomicU64::new(0),
            since: AtomicU64::new(0),
        }
    }

    fn begin(&self, now: u64) {
        self.since.store(now.max(1), Ordering::SeqCst);
    }

    fn end(&self, now: u64) {
        self.before.store(self.until(now), Ordering::SeqCst);
        self.since.store(0, Ordering::SeqCst);
    }

    fn until(&self, now: u64) -> u64 {
        let before = self.before.load(Ordering::SeqCst);
        down_until(before, self.since.load(Ordering::SeqCst), now)
    }
}

fn down_until(before: u64, since: u64, now: u64) -> u64
    ensures { result ≡ (if since == 0 then before else min (before + (now - since)) (2 ^ 64 - 1)) }
{
    if since == 0 {
        before
    } else {
        before.saturating_add(now.saturating_sub(since))
    }
}

fn since_1970(read: Reading, started: u64) -> Reading
    ensures { IsSince1970 read started result }
{
    let last_answer = match read.last_answer {
        0 => 0,
        time => started.saturating_add(time - 1),
    };
    Reading {
        told: started.saturating_add(read.told),
        since: started.saturating_add(read.since),
        last_answer,
        ..read
    }
}

/// Makes a cell for each of these home servers.
///
/// # Errors
///
/// `AllocError` if memory is refused.
pub(crate) fn home_cells(alloc: Global, homes: &[Home]) -> Result<Vec<HomeCell>, AllocError> {
    let mut cells = Vec::new(alloc);
    for home in homes {
        cells.push(HomeCell::new(alloc, home)?)?;
    }
    Ok(cells)
}

fn first_reading(limits: LimitNumbers) -> Reading {
    Reading {
        limits,
        standing: Standing {
            counts: Counts {
                opening: 0,
                accepted: 0,
                answered: 0,
                queued: 0,
                outstanding: 0,
                up: true,
                draining: false,
            },
            first_queued: None,
            first_held: None,
            last_answered: None,
        },
        moment: Moment::new(0).unwrap(),
        told: 0,
        since: 0,
        down: 0,
        last_answer: 0,
        sent: 0,
        oldest_outstanding: 0,
    }
}
