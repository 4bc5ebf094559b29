//! What the thread that writes a spool shares with the front and with the reporter.

use crate::fault::SpoolFault;
use crate::log_lines::{SpoolLine, log_spool_fault};
use crate::offer_notes::OfferNotes;
use rad_log::{Level, Log, WriterState, tell};
use std::sync::atomic::{AtomicU64, Ordering};
use std::sync::{Arc, Wait};
use std::time::{Clock, Duration, Instant};

/// What is known of a spool at one moment.
#[derive(Clone, Copy, Debug, PartialEq, Eq)]
pub struct SpoolReading {
    /// How many requests are open.
    pub open: u64,
    /// How many of them are in no batch that is on disk.
    pub unsynced: u64,
    /// How many milliseconds ago all that had come in was on disk.
    pub behind: u64,
    /// How many milliseconds ago the oldest request that is open came in.
    pub age: u64,
    /// How many requests and responses found no room.
    pub lost: u64,
    /// How many entries were written.
    pub written: u64,
    /// How many octets the segments have.
    pub octets: u64,
    /// How often the disk failed.
    pub faults: u64,
    /// Whether it fails now.
    pub is_failing: bool,
    /// How many requests of earlier runs no longer pass the checks.
    pub dropped: u64,
    /// How many datagrams had to wait for requests of earlier runs.
    pub held: u64,
}

/// The counts of a spool, what went wrong, and the state of the thread that writes it. No call of the front waits.
#[derive(Drop)]
pub struct SpoolState {
    /// How many requests were put into their ring.
    put: AtomicU64,
    /// How many requests were not, since they found no room.
    lost_requests: AtomicU64,
    /// How many responses were not put into theirs.
    lost_responses: AtomicU64,
    /// How many entries were written.
    written: AtomicU64,
    /// How many requests are open.
    open: AtomicU64,
    /// How many requests the thread took out of the ring.
    taken: AtomicU64,
    /// How many of those that it took and that are open are in no batch that is on disk.
    unsynced: AtomicU64,
    /// When all that had come in was on disk, in milliseconds since 1970.
    synced: AtomicU64,
    /// How many entries the thread has that are in no batch that is on disk.
    waiting: AtomicU64,
    /// When the oldest request came in that is open, in milliseconds since 1970; 0 if there is none.
    oldest: AtomicU64,
    /// How many octets the segments have.
    octets: AtomicU64,
    /// How many rounds the thread has ended.
    rounds: AtomicU64,
    /// How often the disk failed.
    faults: AtomicU64,
    /// 1 if it fails now.
    failing: AtomicU64,
    /// 1 if the front waited for room in vain, and the thread wrote nothing since.
    in_vain: AtomicU64,
    /// The fault that is to be logged, as a number; 0 if there is none.
    fault: AtomicU64,
    /// 1 if it is to be logged that entries are written again.
    is_back: AtomicU64,
    /// How many lost requests and responses were logged.
    told: AtomicU64,
    /// How many requests of earlier runs no longer pass the checks.
    dropped: AtomicU64,
    /// What the front notes of those of earlier runs.
    notes: Arc<OfferNotes>,
    state: WriterState,
}

/// What the thread knows once a round is over.
#[derive(Clone, Copy)]
pub(crate) struct RoundEnd {
    pub(crate) open: u64,
    pub(crate) taken: u64,
    pub(crate) unsynced: u64,
    /// When the round began, in milliseconds since 1970, if all that had come in by then is on disk.
    pub(crate) synced: Option<u64>,
    pub(crate) waiting: u64,
    pub(crate) oldest: Option<u64>,
    pub(crate) octets: u64,
}

impl SpoolState {
    /// Makes a state without a thread, of a spool that has all on disk at this moment, in milliseconds since 1970, and into
    /// which nothing was put.
    pub(crate) fn new(now: u64, notes: Arc<OfferNotes>) -> SpoolState {
        SpoolState {
            put: AtomicU64::new(0),
            lost_requests: AtomicU64::new(0),
            lost_responses: AtomicU64::new(0),
            written: AtomicU64::new(0),
            open: AtomicU64::new(0),
            taken: AtomicU64::new(0),
            unsynced: AtomicU64::new(0),
            synced: AtomicU64::new(now),
            waiting: AtomicU64::new(0),
            oldest: AtomicU64::new(0),
            octets: AtomicU64::new(0),
            rounds: AtomicU64::new(0),
            faults: AtomicU64::new(0),
            failing: AtomicU64::new(0),
            in_vain: AtomicU64::new(0),
            fault: AtomicU64::new(0),
            is_back: AtomicU64::new(0),
            told: AtomicU64::new(0),
            dropped: AtomicU64::new(0),
            notes,
            state: WriterState::new(),
        }
    }

    /// Returns what the front notes of the requests of earlier runs.
    pub(crate) fn notes(&self) -> &OfferNotes {
        &self.notes
    }

    /// Returns how many requests were put into their ring.
    pub(crate) fn put(&self) -> u64 {
        self.put.load(Ordering::SeqCst)
    }

    /// Counts a request that was put into its ring.
    pub(crate) fn count_put(&self) {
        self.put.fetch_add(1, Ordering::SeqCst);
    }

    /// Counts a request that found no room.
    pub(crate) fn count_lost_request(&self) {
        self.lost_requests.fetch_add(1, Ordering::SeqCst);
    }

    /// Counts a response that found no room.
    pub(crate) fn count_lost_response(&self) {
        self.lost_responses.fetch_add(1, Ordering::SeqCst);
    }

    /// Counts entries that were written.
    pub(crate) fn count_written(&self, count: u64) {
        self.written.fetch_add(count, Ordering::SeqCst);
    }

    /// Records what the thread knows once a round is over.
    pub(crate) fn end_round(&self, end: RoundEnd) {
        self.open.store(end.open, Ordering::SeqCst);
        self.taken.store(end.taken, Ordering::SeqCst);
        self.unsynced.store(end.unsynced, Ordering::SeqCst);
        if let Some(synced) = end.synced {
            self.synced.store(synced, Ordering::SeqCst);
        }
        self.waiting.store(end.waiting, Ordering::SeqCst);
        self.oldest.store(end.oldest.unwrap_or(0), Ordering::SeqCst);
        self.octets.store(end.octets, Ordering::SeqCst);
        self.in_vain.store(0, Ordering::SeqCst);
        self.rounds.fetch_add(1, Ordering::SeqCst);
    }

    /// Returns how many rounds the thread has ended.
    pub fn rounds(&self) -> u64 {
        self.rounds.load(Ordering::SeqCst)
    }

    /// Returns whether all requests are on disk that are open and were put into their ring before the thread had ended so many
    /// rounds. The round that was under way then may not have seen them all, so it takes the one after it.
    pub fn has_all(&self, rounds: u64) -> bool {
        self.rounds() >= rounds.saturating_add(2)
            && self.unsynced.load(Ordering::SeqCst) == 0
            && self.can_have_all()
    }

    /// Returns whether a later round may bring all of them to disk: none found no room, and the disk does not fail.
    pub(crate) fn can_have_all(&self) -> bool {
        self.lost_requests.load(Ordering::SeqCst) == 0 && self.failing.load(Ordering::SeqCst) == 0
    }

    /// Records a fault, which is to be logged. The spool is not written again before [`SpoolState::goes_on`].
    pub(crate) fn fail(&self, fault: SpoolFault) {
        self.is_back.store(0, Ordering::SeqCst);
        self.failing.store(1, Ordering::SeqCst);
        self.fault.store(fault.number(), Ordering::SeqCst);
    }

    /// Returns whether the front may wait for room.
    pub(crate) fn may_wait(&self) -> bool {
        self.failing.load(Ordering::SeqCst) == 0 && self.in_vain.load(Ordering::SeqCst) == 0
    }

    /// Records that the front waited for room in vain.
    pub(crate) fn set_in_vain(&self) {
        self.in_vain.store(1, Ordering::SeqCst);
    }

    /// Counts a fault.
    pub(crate) fn count_fault(&self) {
        self.faults.fetch_add(1, Ordering::SeqCst);
    }

    /// Records that entries are written again after a fault.
    pub(crate) fn goes_on(&self) {
        self.failing.store(0, Ordering::SeqCst);
        self.is_back.store(1, Ordering::SeqCst);
    }

    /// Records how many requests of earlier runs no longer pass the checks.
    pub fn set_dropped(&self, count: usize) {
        self.dropped.store(count as u64, Ordering::SeqCst);
    }

    /// Records that the thread is started.
    pub(crate) fn start(&self) {
        self.state.start();
    }

    /// Begins a round of the thread, and returns whether it is the last one.
    pub(crate) fn begin_round(&self) -> bool {
        self.state.begin_round()
    }

    /// Makes the thread sleep for `milliseconds`, or until the spool is ended.
    pub(crate) fn sleep<R: Clock + Wait>(&self, rt: &R, milliseconds: u64) {
        self.state
            .sleep_for(rt, Duration::from_millis(milliseconds));
    }

    /// Records that the thread has done its last round.
    pub(crate) fn finish(&self) {
        self.state.finish();
    }

    /// Makes the thread write what there is and end, and waits for it for at most this long.
    pub fn end<R: Clock + Wait>(&self, rt: &R, longest: Duration) {
        self.state.end();
        self.state.wait(rt, Instant::now(rt).ok(), longest);
    }

    /// Returns the counts, at this moment in milliseconds since 1970.
    pub fn reading(&self, now: u64) -> SpoolReading {
        let oldest = self.oldest.load(Ordering::SeqCst);
        let synced = self.synced.load(Ordering::SeqCst);
        let unsynced = self.unsynced.load(Ordering::SeqCst);
        let taken = self.taken.load(Ordering::SeqCst);
        let in_ring = self.put().saturating_sub(taken);
        let lost_requests = self.lost_requests.load(Ordering::SeqCst);
        let lost_responses = self.lost_responses.load(Ordering::SeqCst);
        SpoolReading {
            open: self.open.load(Ordering::SeqCst),
            unsynced: unsynced.saturating_add(in_ring),
            behind: now.saturating_sub(synced),
            age: if oldest == 0 {
                0
            } else {
                now.saturating_sub(oldest)
            },
            lost: lost_requests.saturating_add(lost_responses),
            written: self.written.load(Ordering::SeqCst),
            octets: self.octets.load(Ordering::SeqCst),
            faults: self.faults.load(Ordering::SeqCst),
            is_failing: self.failing.load(Ordering::SeqCst) != 0,
            dropped: self.dropped.load(Ordering::SeqCst),
            held: self.notes.held(),
        }
    }

    /// Logs what is not logged yet: a fault, that entries are written again, and how many found no room.
    pub fn tell<L: Log>(&self, log: &L) {
        if let Some(fault) = SpoolFault::of_number(self.fault.swap(0, Ordering::SeqCst)) {
            log_spool_fault(log, fault);
        }
        if self.is_back.swap(0, Ordering::SeqCst) != 0 {
            tell(log, Level::Info, &SpoolLine::Back);
        }
        let lost = self.reading(0).lost;
        let count = lost.saturating_sub(self.told.swap(lost, Ordering::SeqCst));
        if count != 0 {
            tell(log, Level::Error, &SpoolLine::Lost(count));
        }
    }

    /// Logs at the end how many entries are not on disk, if there are any or the thread is not done.
    pub fn tell_left<L: Log>(&self, log: &L) {
        self.tell(log);
        let count = self.waiting.load(Ordering::SeqCst);
        if count != 0 || self.state.is_late() {
            tell(log, Level::Error, &SpoolLine::Left(count));
        }
    }
}
