//! How a thread that writes is woken, and how it is made to end.

use std::mem;
use std::sync::Wait;
use std::sync::atomic::{AtomicU64, Ordering};
use std::time::{Clock, Duration, Instant};

/// The bit that there may be something to write.
const WORK: u64 = 1;

/// The bit that nothing more comes.
const END: u64 = 2;

/// The state that a thread that writes shares with the threads that have something for it.
#[derive(Drop)]
pub struct WriterState {
    /// 1 if there is such a thread.
    started: AtomicU64,
    /// What the thread is told: `WORK` until it begins a round, and `END` from then on. It is one word, so that no round
    /// sees the end and not what came before.
    told: AtomicU64,
    /// 1 if the thread has written everything.
    finished: AtomicU64,
}

impl WriterState {
    /// Makes a state without a thread, and with nothing to write.
    pub fn new() -> WriterState {
        WriterState {
            started: AtomicU64::new(0),
            told: AtomicU64::new(0),
            finished: AtomicU64::new(0),
        }
    }

    /// Records that the thread is started.
    pub fn start(&self) {
        self.started.store(1, Ordering::SeqCst);
    }

    /// Returns whether there is a thread.
    pub fn is_started(&self) -> bool {
        self.started.load(Ordering::SeqCst) != 0
    }

    /// Wakes the thread, since there is something to write. It does not wait for the thread.
    pub fn notify(&self) {
        self.tell(WORK);
    }

    /// Makes the thread write what there is and end.
    pub fn end(&self) {
        self.tell(WORK | END);
    }

    fn tell(&self, bits: u64) {
        if self.told.fetch_or(bits, Ordering::SeqCst) & WORK == 0 {
            self.told.wake_all();
        }
    }

    /// Begins a round of the thread, and returns whether it is the last one, since nothing more comes. Whatever comes
    /// after that wakes the thread again, so nothing is lost in between.
    pub fn begin_round(&self) -> bool {
        self.told.fetch_and(END, Ordering::SeqCst) & END != 0
    }

    /// Returns what the thread is told, if that is no work.
    fn idle(&self) -> Option<u32> {
        let told = self.told.load(Ordering::SeqCst);
        if told & WORK != 0 {
            return None;
        }
        u32::try_from(told).ok()
    }

    /// Makes the thread sleep until there is something to write.
    pub fn sleep<R: Wait>(&self, rt: &R) {
        if let Some(told) = self.idle() {
            self.told.park(rt, told);
        }
    }

    /// Makes the thread sleep for this long, or until there is something to write.
    pub fn sleep_for<R: Clock + Wait>(&self, rt: &R, longest: Duration) {
        if let Some(told) = self.idle() {
            self.told.park_timeout(rt, told, longest);
        }
    }

    /// Records that the thread has written everything.
    pub fn finish(&self) {
        self.finished.store(1, Ordering::SeqCst);
        self.finished.wake_all();
    }

    /// Returns whether the thread, if there is one, was to end and has not written everything.
    pub fn is_late(&self) -> bool {
        self.is_started()
            && self.told.load(Ordering::SeqCst) & END != 0
            && self.finished.load(Ordering::SeqCst) == 0
    }

    /// Waits until the thread, if there is one, has written everything, at most until `longest` after `start`.
    pub fn wait<R: Clock + Wait>(&self, rt: &R, start: Option<Instant>, longest: Duration) {
        if self.is_started() {
            wait_until_set(rt, &self.finished, start, longest);
        }
    }
}

/// Waits until a word is not 0, at most until `longest` after `start`. Whoever sets the word wakes those that wait for
/// it. If the clock fails, or `start` is not known, it waits once for that long.
pub fn wait_until_set<R: Clock + Wait>(
    rt: &R,
    word: &AtomicU64,
    start: Option<Instant>,
    longest: Duration,
) {
    let mut unseen = longest;
    for _ in rt.forever() {
        let left = match time_left(rt, start, longest) {
            Some(left) => left,
            None => mem::replace(&mut unseen, Duration::ZERO),
        };
        if left.is_zero() || word.load(Ordering::SeqCst) != 0 {
            return;
        }
        word.park_timeout(rt, 0, left);
    }
}

/// Returns how long it is until `longest` after `start`, if that is known.
fn time_left<R: Clock>(rt: &R, start: Option<Instant>, longest: Duration) -> Option<Duration> {
    let passed = start?.elapsed(rt).ok()?;
    Some(longest.saturating_sub(passed))
}
