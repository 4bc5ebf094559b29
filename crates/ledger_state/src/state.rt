//! What the thread that writes the ledger shares with the front and with the reporter.

ghost use Rattle.std.specs.Prelude.{◌≡◌, ◌≤◌, None, vec_len};

use crate::fault::LedgerFault;
use crate::file_sums::{FileSum, FileSums};
use crate::handlings::{Handling, UNKNOWN};
use crate::lane_state::{LaneState, LostSerials};
use crate::log_lines::{LedgerLine, log_ledger_fault};
use crate::responses::Responses;
use rad_log::{Level, Log, WriterState, tell};
use std::alloc::{AllocError, Global};
use std::sync::atomic::{AtomicU64, Ordering};
use std::sync::{Mutex, OnceLock, Wait};
use std::time::{Clock, Duration, Instant};

/// What is known of a ledger at one moment.
#[derive(Clone, Copy)]
pub struct LedgerReading<'a> {
    /// How many entries were written.
    pub written: u64,
    /// How many entries wait to be written.
    pub waiting: u64,
    /// How many entries were dropped, since too many waited.
    pub dropped: u64,
    /// How many entries were written to a file that was gone while it was open.
    pub lost: u64,
    /// How many milliseconds ago the oldest entry was handed over that waits.
    pub age: u64,
    /// How many milliseconds ago the oldest octet was written that is not synced, or the oldest entry was handed over that
    /// waits, whichever is longer ago.
    pub unsynced: u64,
    /// How many entries of each client were dropped, in the order of the configuration.
    pub client_dropped: &'a [AtomicU64],
}

/// The counts of a ledger's entries, what went wrong, and the state of the thread that writes them. No call of the
/// front waits.
#[derive(Drop)]
pub struct LedgerState {
    /// 1 if entries may come.
    begun: AtomicU64,
    /// How many entries were put into the buffer.
    put: AtomicU64,
    /// How many of them were written.
    written: AtomicU64,
    /// How many entries found no room in the buffer.
    dropped: AtomicU64,
    /// How many of them were of each client, in the order of the configuration.
    client_dropped: Vec<AtomicU64>,
    /// When the oldest entry was handed over that is not written, in milliseconds since 1970; 0 if there is none.
    oldest: AtomicU64,
    /// When the oldest octet was written that is not synced, in milliseconds since 1970; 0 if all are.
    unsynced: AtomicU64,
    /// How many entries were written to a file that was gone while it was open.
    lost: AtomicU64,
    /// The lanes, in order.
    lanes: Vec<LaneState>,
    /// The responses that were sent last. The front's thread alone locks it.
    responses: Mutex<Responses>,
    /// The sums that are to be logged.
    sums: FileSums,
    /// The fault that is to be logged, as a number; 0 if there is none.
    fault: AtomicU64,
    /// 1 if it is to be logged that entries are written again.
    is_back: AtomicU64,
    /// How many dropped entries were logged.
    told: AtomicU64,
    /// How many requests were told as left.
    left: AtomicU64,
    /// How many lines of requests that are left were written.
    left_written: AtomicU64,
    /// When the first request was told as left.
    left_since: OnceLock<Instant>,
    /// 1 if the last line is to be written.
    is_clean: AtomicU64,
    /// The file of another run that the run is not tied to, since it is compressed.
    untied: OnceLock<String>,
    /// 1 if that was logged.
    is_untied_told: AtomicU64,
    state: WriterState,
}

impl LedgerState {
    /// Makes a state of so many clients, and of lanes, without a thread and without entries. Each lane has so many places for
    /// how its requests are handled.
    ///
    /// # Errors
    ///
    /// `AllocError` if memory is refused.
    pub fn new(alloc: Global, places: &[usize], clients: usize) -> Result<LedgerState, AllocError> {
        let mut client_dropped = Vec::with_capacity(alloc, clients)?;
        for _ in 0..clients {
            client_dropped.push(AtomicU64::new(0))?;
        }
        let lanes = LaneState::of_lanes(alloc, places)?;
        let responses = Mutex::new(Responses::new(alloc)?);
        let sums = FileSums::new(alloc)?;
        Ok(LedgerState {
            begun: AtomicU64::new(0),
            put: AtomicU64::new(0),
            written: AtomicU64::new(0),
            dropped: AtomicU64::new(0),
            client_dropped,
            oldest: AtomicU64::new(0),
            unsynced: AtomicU64::new(0),
            lost: AtomicU64::new(0),
            lanes,
            responses,
            sums,
            fault: AtomicU64::new(0),
            is_back: AtomicU64::new(0),
            told: AtomicU64::new(0),
            left: AtomicU64::new(0),
            left_written: AtomicU64::new(0),
            left_since: OnceLock::new(),
            is_clean: AtomicU64::new(0),
            untied: OnceLock::new(),
            is_untied_told: AtomicU64::new(0),
            state: WriterState::new(),
        })
    }

    /// Makes the thread begin the first file, since entries may come.
    pub fn begin(&self) {
        self.begun.store(1, Ordering::SeqCst);
        self.state.notify();
    }

    /// Returns whether entries may come.
    pub fn is_begun(&self) -> bool {
        self.begun.load(Ordering::SeqCst) != 0
    }

    /// Records that a lane accepted the request of this number at this time, in milliseconds since 1970.
    pub fn accept(&self, lane: u16, number: u64, time: u64) {
        if let Some(state) = self.lanes.get(usize::from(lane)) {
            state.handlings.accept(number, time);
        }
    }

    /// Records that a lane sends the request of this number for the first time.
    pub fn send_first(&self, lane: u16, number: u64) {
        if let Some(state) = self.lanes.get(usize::from(lane)) {
            state.handlings.send_first(number);
        }
    }

    /// Records that a lane sends the request of this number again.
    pub fn send_again(&self, lane: u16, number: u64) {
        if let Some(state) = self.lanes.get(usize::from(lane)) {
            state.handlings.send_again(number);
        }
    }

    /// Returns how the request of this number was handled, as far as that is known.
    pub fn handling(&self, lane: u16, number: u64) -> Handling {
        match self.lanes.get(usize::from(lane)) {
            Some(state) => state.handlings.of(number),
            None => UNKNOWN,
        }
    }

    /// Records that this response to the request of this number of a lane is about to be sent.
    pub fn send_response(&self, lane: u16, number: u64, response: &[u8]) {
        if let Some(mut responses) = self.responses.try_lock() {
            responses.send(lane, number, response);
        }
    }

    /// Records that a datagram of the front was lost.
    pub fn lose_response(&self, datagram: &[u8]) {
        if let Some(mut responses) = self.responses.try_lock() {
            responses.lose(datagram);
        }
    }

    /// Takes the record whose response was lost first, of those that were not taken: the number of its lane, and its number.
    pub fn take_lost(&self) -> Option<(u16, u64)> {
        self.responses.try_lock()?.take_lost()
    }

    /// Records that the response of this serial of a lane was handed over.
    pub fn hand_over(&self, lane: u16, serial: u64) {
        if let Some(state) = self.lanes.get(usize::from(lane)) {
            state.hand_over(serial);
        }
    }

    /// Returns how many responses of a lane were handed over; 0 if there is no such lane.
    pub fn handed(&self, lane: usize) -> u64
        ensures { vec_len self.now.lanes ≤ lane → result ≡ 0 }
    {
        match self.lanes.get(lane) {
            Some(state) => state.handed(),
            None => 0,
        }
    }

    /// Records that the entry of this serial of a lane was written.
    pub fn write(&self, lane: u16, serial: u64) {
        if let Some(state) = self.lanes.get(usize::from(lane)) {
            state.write(serial);
        }
    }

    /// Counts an entry that was put into the buffer at this time, in milliseconds since 1970. It is the oldest if no other one
    /// is known to wait.
    pub fn count_put(&self, milliseconds: u64) {
        self.put.fetch_add(1, Ordering::SeqCst);
        if self.oldest.load(Ordering::SeqCst) == 0 {
            self.oldest.store(milliseconds, Ordering::SeqCst);
        }
    }

    /// Counts an entry that found no room in the buffer, of the client in a row, if it has one.
    pub fn count_dropped(&self, client: Option<usize>) {
        self.dropped.fetch_add(1, Ordering::SeqCst);
        if let Some(dropped) = client.and_then(|row| self.client_dropped.get(row)) {
            dropped.fetch_add(1, Ordering::SeqCst);
        }
    }

    /// Counts entries that were written.
    pub fn count_written(&self, count: u64) {
        self.written.fetch_add(count, Ordering::SeqCst);
    }

    /// Counts a request of a lane that was told as left, at this moment if the clock can be read. Returns the moment of the
    /// first one, if it is known.
    pub fn count_left<R: Clock>(&self, rt: &R, lane: u16) -> Option<Instant> {
        self.left.fetch_add(1, Ordering::SeqCst);
        if let Some(state) = self.lanes.get(usize::from(lane)) {
            state.leave();
        }
        if self.left_since.get().is_none()
            && let Ok(now) = Instant::now(rt)
        {
            let _ = self.left_since.try_set(now);
        }
        self.left_since.get().copied()
    }

    /// Records how many requests a lane accepted. All that is left of it was counted before.
    pub fn end_lane(&self, lane: u16, accepted: u64) {
        if let Some(state) = self.lanes.get(usize::from(lane)) {
            state.end(accepted);
        }
    }

    /// Returns how many requests of a lane were accepted, and how many of them are left, once all that is left of it was
    /// told.
    pub fn ended_lane(&self, lane: usize) -> Option<(u64, u64)>
        ensures { vec_len self.now.lanes ≤ lane → result ≡ None }
    {
        self.lanes.get(lane)?.ended()
    }

    /// Counts lines of requests that are left, which were written.
    pub fn count_left_written(&self, count: u64) {
        self.left_written.fetch_add(count, Ordering::SeqCst);
    }

    /// Records when the oldest entry was handed over that is not written; `None` if there is none.
    pub fn set_oldest(&self, milliseconds: Option<u64>) {
        let oldest = milliseconds.unwrap_or(0);
        self.oldest.store(oldest, Ordering::SeqCst);
    }

    /// Records when the oldest octet was written that is not synced; `None` if all are.
    pub fn set_unsynced(&self, milliseconds: Option<u64>) {
        let unsynced = milliseconds.unwrap_or(0);
        self.unsynced.store(unsynced, Ordering::SeqCst);
    }

    /// Counts entries of a lane that were written to a file that is gone: so many, from the serial `from` to `to`.
    pub fn lose(&self, lane: u16, count: u64, from: u64, to: u64) {
        self.lost.fetch_add(count, Ordering::SeqCst);
        if let Some(state) = self.lanes.get(usize::from(lane)) {
            state.lose(LostSerials { count, from, to });
        }
    }

    /// Tells the sum of the lines of the run, which is to be logged. One thread does.
    pub fn tell_sum(&self, its: FileSum) {
        self.sums.tell(its);
    }

    /// Records the file of another run that the run is not tied to, which is to be logged once.
    pub fn leave_untied(&self, file: String) {
        let _ = self.untied.try_set(file);
    }

    /// Records a fault, which is to be logged. The ledger is not written again before [`LedgerState::goes_on`].
    pub fn fail(&self, fault: LedgerFault) {
        self.is_back.store(0, Ordering::SeqCst);
        self.fault.store(fault.number(), Ordering::SeqCst);
    }

    /// Records that entries are written again after a fault.
    pub fn goes_on(&self) {
        self.is_back.store(1, Ordering::SeqCst);
    }

    /// Records that the thread is started.
    pub fn start(&self) {
        self.state.start();
    }

    /// Begins a round of the thread, and returns whether it is the last one.
    pub fn begin_round(&self) -> bool {
        self.state.begin_round()
    }

    /// Makes the thread sleep for `milliseconds`, or until the ledger is begun or ended.
    pub fn sleep<R: Clock + Wait>(&self, rt: &R, milliseconds: u64) {
        self.state
            .sleep_for(rt, Duration::from_millis(milliseconds));
    }

    /// Records that the thread has done its last round.
    pub fn finish(&self) {
        self.state.finish();
    }

    /// Makes the thread write what waits and end, with the line that ends the run if `is_clean` is set, and waits for
    /// it: at most until `longest` after the first request was told as left, or from now on if there is none.
    pub fn end<R: Clock + Wait>(&self, rt: &R, is_clean: bool, longest: Duration) {
        self.is_clean.store(u64::from(is_clean), Ordering::SeqCst);
        self.state.end();
        let since = match self.left_since.get() {
            Some(since) => Some(*since),
            None => Instant::now(rt).ok(),
        };
        self.state.wait(rt, since, longest);
    }

    /// Returns whether the line that ends the run is to be written.
    pub fn is_clean(&self) -> bool {
        self.is_clean.load(Ordering::SeqCst) != 0
    }

    /// Returns the counts, at this moment in milliseconds since 1970.
    pub fn reading(&self, now: u64) -> LedgerReading<'_> {
        let written = self.written.load(Ordering::SeqCst);
        let age = age_of(&self.oldest, now);
        LedgerReading {
            written,
            waiting: self.put.load(Ordering::SeqCst).saturating_sub(written),
            dropped: self.dropped.load(Ordering::SeqCst),
            lost: self.lost.load(Ordering::SeqCst),
            age,
            unsynced: age_of(&self.unsynced, now).max(age),
            client_dropped: self.client_dropped.as_slice(),
        }
    }

    /// Logs what is not logged yet: that the run is not tied to the one before, a fault, that entries are written again, which ones are lost, or dropped how many, and
    /// sums.
    pub fn tell<L: Log>(&self, log: &L) {
        if let Some(fault) = LedgerFault::of_number(self.fault.swap(0, Ordering::SeqCst)) {
            log_ledger_fault(log, fault);
        }
        if self.is_back.swap(0, Ordering::SeqCst) != 0 {
            tell(log, Level::Info, &LedgerLine::Back);
        }
        self.tell_untied(log);
        self.tell_lost(log);
        let dropped = self.dropped.load(Ordering::SeqCst);
        let count = dropped.saturating_sub(self.told.swap(dropped, Ordering::SeqCst));
        if count != 0 {
            tell(log, Level::Error, &LedgerLine::Dropped(count));
        }
        self.log_sums(log);
    }

    /// Logs that the run is not tied to the one before, if that is so and is not logged yet.
    fn tell_untied<L: Log>(&self, log: &L) {
        if let Some(file) = self.untied.get()
            && self.is_untied_told.swap(1, Ordering::SeqCst) == 0
        {
            tell(log, Level::Warn, &LedgerLine::Untied(file.as_str()));
        }
    }

    /// Logs the sums that are not logged yet.
    fn log_sums<L: Log>(&self, log: &L) {
        for _ in 0..u64::MAX {
            let Some(its) = self.sums.take() else {
                return;
            };
            tell(log, Level::Info, &LedgerLine::File(its));
        }
    }

    /// Logs which entries are lost, if that is not logged yet.
    fn tell_lost<L: Log>(&self, log: &L) {
        for (lane, state) in self.lanes.iter().enumerate() {
            if let Some(lost) = state.take_lost() {
                let lane = lane as u64;
                let line = LedgerLine::Lost(lane, lost.count, lost.from, lost.to);
                tell(log, Level::Error, &line);
            }
        }
    }

    /// Logs how many entries are not written at the end, and how many lines of requests that are left, if there are any, or
    /// the thread is not done; and from which serials on.
    pub fn tell_left<L: Log>(&self, log: &L) {
        self.tell(log);
        let count = self.reading(0).waiting;
        let written = self.left_written.load(Ordering::SeqCst);
        let left = self.left.load(Ordering::SeqCst).saturating_sub(written);
        if left != 0 {
            tell(log, Level::Error, &LedgerLine::Both(count, left));
        } else if count != 0 || self.state.is_late() {
            tell(log, Level::Error, &LedgerLine::Left(count));
        }
        if count != 0 {
            self.tell_missing(log);
        }
    }

    /// Logs which serials of each lane are not written, behind the last one that is.
    fn tell_missing<L: Log>(&self, log: &L) {
        for (lane, state) in self.lanes.iter().enumerate() {
            if let Some((from, to)) = state.missing() {
                let line = LedgerLine::Missing(lane as u64, from, to);
                tell(log, Level::Error, &line);
            }
        }
    }
}

/// Returns how many milliseconds ago the moment was that a word has; 0 if it has none.
fn age_of(moment: &AtomicU64, now: u64) -> u64 {
    match moment.load(Ordering::SeqCst) {
        0 => 0,
        moment => now.saturating_sub(moment),
    }
}
