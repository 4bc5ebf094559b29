//! All metrics of a running proxy.

ghost use Rattle.rad_metrics.specs.Times.{IsStartBy};

use crate::counted::Counted;
use crate::counts::{APART, Counts, atomics, word_or_0};
use crate::event::{Classified, CountedEvent, worker_row};
use crate::home_cells::{HomeCell, home_cells};
use crate::own_process::ProcessReading;
use crate::program_metrics::ProgramReading;
use crate::realm_numbers::RealmNumbers;
use crate::socket_numbers::SocketNumbers;
use rad_desk::{Worker, WorkerReport};
use rad_realms::{Config, Endpoint};
use rad_tables::Slot;
use std::alloc::{AllocError, Global};
use std::collections::BTreeMap;
use std::sync::Wait;
use std::sync::atomic::{AtomicU64, Ordering};
use std::time::{Clock, Instant, SystemTime, UNIX_EPOCH};

/// How many milliseconds the clock of the day may move against the other one before that counts as a step.
const STEP: u64 = 1000;

/// What the workers of a configuration reported. Reporting takes no memory and waits for no lock, except for the socket of
/// [`Numbers::bound`].
#[derive(Drop)]
pub struct Numbers<'a, R> {
    rt: &'a R,
    /// When the program started, by the clock that never goes back, if that can be read.
    start: Option<Instant>,
    /// The same in milliseconds since 1970.
    started: u64,
    /// The same by what the clock of the day shows now, if that was set since.
    set: AtomicU64,
    /// The row of each client, by its address as a number.
    clients: BTreeMap<u32, usize>,
    counts: Counts,
    /// The number of datagrams that came from senders that are not clients.
    strangers: AtomicU64,
    /// How many requests came for each realm, and for all others.
    pub(crate) realms: RealmNumbers,
    /// When the turn of each worker began, in microseconds since the start: the front's, then those of the lanes in order,
    /// `APART` words from one to the next.
    turns: Vec<AtomicU64>,
    /// The home servers, in order.
    pub(crate) homes: Vec<HomeCell>,
    pub(crate) sockets: SocketNumbers,
}

impl<'a, R: Clock> Numbers<'a, R> {
    /// Makes the metrics before any report. The program starts now.
    ///
    /// # Errors
    ///
    /// `AllocError` if memory is refused.
    pub fn new(alloc: Global, rt: &'a R, config: &Config) -> Result<Numbers<'a, R>, AllocError> {
        let started = time_since_1970(rt).unwrap_or(0);
        let lanes = config.homes().len();
        let counts = Counts::new(alloc, lanes, config.clients().len())?;
        let turns = lanes.saturating_add(1).saturating_mul(APART);
        let turns = atomics(alloc, turns, 0)?;
        let clients = rows_of(alloc, config)?;
        let homes = home_cells(alloc, config.homes())?;
        Ok(Numbers {
            rt,
            start: Instant::now(rt).ok(),
            started,
            set: AtomicU64::new(started),
            clients,
            counts,
            strangers: AtomicU64::new(0),
            realms: RealmNumbers::new(alloc, config)?,
            turns,
            homes,
            sockets: SocketNumbers::new(alloc),
        })
    }

    /// Records a report that is of no event and is not logged, and returns whether it is one.
    pub fn take(&self, worker: Worker, report: &WorkerReport<'_>) -> bool {
        match *report {
            WorkerReport::Woke => self.begin_turn(worker),
            WorkerReport::Requested { lane, rank } => self.realms.count(lane, rank),
            WorkerReport::RequestedUnlisted { .. } => self.realms.count_unlisted(),
            WorkerReport::FirstSent { number, slot } => {
                self.first_sent(worker_row(worker), number, slot);
            }
            _ => return false,
        }
        true
    }

    /// Records any other report.
    pub fn report(&self, its: &Classified<'_>) {
        self.count(its);
        if its.worker == Worker::Front {
            self.count_of_client(its);
        }
        if let Some(home) = self.home(its.row) {
            self.report_of_home(home, its.report, its.row);
        }
    }

    /// Records that the worker in this row sends the request of this number for the first time. If the front has not
    /// reported its acceptance yet, it was accepted in the front's turn. Only then is that read: another thread writes it.
    fn first_sent(&self, row: usize, number: u64, slot: Slot) {
        let Some(home) = self.home(row) else {
            return;
        };
        let accepted = match home.times.accepted_at(number) {
            Some(time) => time,
            None => self.turn(0),
        };
        home.times.first_sent(slot, accepted, self.turn(row));
    }

    /// Records what is reported of the home server in this row. Each time is read only where it is recorded.
    fn report_of_home(&self, home: &HomeCell, report: &WorkerReport<'_>, row: usize) {
        match *report {
            WorkerReport::Accepted { number, .. } => home.times.was_accepted(number, self.turn(0)),
            WorkerReport::Answered { serial, slot, .. } => {
                home.answered(serial, slot, self.turn(row));
            }
            WorkerReport::Took { serial, .. } => home.times.left(serial, self.turn(0)),
            WorkerReport::WentDown(_) => home.went_down(self.turn(row)),
            WorkerReport::WentUp(_) => home.went_up(self.turn(row)),
            WorkerReport::Stands { moment, standing } => {
                let sent = self.counts.get(row, CountedEvent::plain(Counted::Sent));
                home.stands(moment, standing, self.turn(row), sent);
            }
            _ => {}
        }
    }

    fn begin_turn(&self, worker: Worker) {
        if let Some(turn) = self.turn_word(worker_row(worker)) {
            turn.store(self.microseconds(), Ordering::SeqCst);
        }
    }

    /// Returns the time now, in milliseconds since 1970; 0 if there is none.
    pub fn now(&self) -> u64 {
        time_since_1970(self.rt).unwrap_or(0)
    }

    /// Returns what is known of the program now, of whose process the system told this.
    pub(crate) fn program(&self, process: ProcessReading) -> ProgramReading {
        ProgramReading {
            started: self.started,
            asked: self.now(),
            strangers: self.strangers.load(Ordering::SeqCst),
            process,
        }
    }

    /// Returns when the program started, in milliseconds since 1970, by what the clock of the day shows now. A clock that was
    /// set moves it, so that all times are of one clock.
    pub(crate) fn started_by_now(&self) -> u64 {
        let before = self.set.load(Ordering::SeqCst);
        let passed = self.microseconds() / 1000;
        let now = self.now();
        if now == 0 || passed == 0 {
            return before;
        }
        let start = set_start(before, now, passed);
        self.set.store(start, Ordering::SeqCst);
        start
    }

    /// Returns how many microseconds the program has run.
    fn microseconds(&self) -> u64 {
        let Some(start) = &self.start else {
            return 0;
        };
        match start.elapsed(self.rt) {
            Ok(passed) => u64::try_from(passed.as_micros()).unwrap_or(u64::MAX),
            Err(_) => 0,
        }
    }
}

impl<R: Wait> Numbers<'_, R> {
    /// Records that a worker's socket is bound to this address and port, after `place` others of the same worker, with a
    /// receive buffer of `buffer` octets.
    pub fn bound(&self, worker: Worker, place: usize, at: Endpoint, buffer: u32) {
        self.sockets.bound(self.rt, worker, place, at, buffer);
    }
}

impl<R> Numbers<'_, R> {
    /// Returns the home server in a row.
    fn home(&self, row: usize) -> Option<&HomeCell> {
        self.homes.get(row.checked_sub(1)?)
    }

    fn turn_word(&self, row: usize) -> Option<&AtomicU64> {
        self.turns.get(row.checked_mul(APART)?)
    }

    /// Returns when the turn of a worker began, in microseconds since the program started; 0 before its first one.
    pub fn turn_of(&self, worker: Worker) -> u64 {
        self.turn(worker_row(worker))
    }

    fn turn(&self, row: usize) -> u64 {
        word_or_0(self.turn_word(row))
    }

    fn count(&self, its: &Classified<'_>) {
        if let Some(event) = its.event {
            let times = match *its.report {
                WorkerReport::Cut(requests) => requests,
                _ => 1,
            };
            self.counts.add(its.row, event, times);
        }
    }

    /// Counts the event of a report of the front for the client that it is about.
    fn count_of_client(&self, its: &Classified<'_>) {
        let (Some(event), Some(peer)) = (CountedEvent::of_client(its.report), its.peer) else {
            return;
        };
        if let Some(row) = self.clients.get(&number_of(peer.address)) {
            self.counts.add(*row, event, 1);
        } else if event.metric == Counted::ClientReceived {
            self.strangers.fetch_add(1, Ordering::SeqCst);
        }
    }

    /// Asks the worker of each lane to report the lane's standing.
    pub fn ask_each(&self) {
        for home in &self.homes {
            home.ask();
        }
    }

    /// Returns whether the worker of a lane is to report the lane's standing.
    pub fn asks(&self, lane: u16) -> bool {
        match self.homes.get(usize::from(lane)) {
            Some(home) => home.is_asked(),
            None => false,
        }
    }

    /// Returns what is counted.
    pub fn counts(&self) -> &Counts {
        &self.counts
    }
}

fn set_start(before: u64, now: u64, passed: u64) -> u64
    ensures { IsStartBy before now passed result }
{
    let start = now.saturating_sub(passed);
    if start.abs_diff(before) > STEP {
        start
    } else {
        before
    }
}

fn rows_of(alloc: Global, config: &Config) -> Result<BTreeMap<u32, usize>, AllocError> {
    let mut rows = BTreeMap::new(alloc);
    for (row, client) in config.clients().iter().enumerate() {
        rows.insert(number_of(client.address()), row)?;
    }
    Ok(rows)
}

/// Returns an address as a number. Comparing two numbers takes less time than comparing their octets.
fn number_of(address: [u8; 4]) -> u32 {
    u32::from_be_bytes(address)
}

/// Returns the time, in milliseconds since 1970, if the clock of the day can be read.
pub fn time_since_1970<R: Clock>(rt: &R) -> Option<u64> {
    let passed = SystemTime::now(rt).ok()?.duration_since(UNIX_EPOCH).ok()?;
    u64::try_from(passed.as_millis()).ok()
}
