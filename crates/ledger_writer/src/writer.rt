//! The thread that writes the entries to files.

ghost use Rattle.std.specs.Prelude.{◌≡◌, ◌≤◌, ◌+◌, [], ◌∷◌, get_or, slice_range, slice_set};
ghost use Rattle.std.specs.Int.{from_be_bytes, w64};
ghost use Rattle.ledger_files.specs.Batches.{HoldsLines};
ghost use Rattle.ledger_writer.specs.Progress.{not_begun, passed_by};

use crate::entry_buffer::EntryBuffer;
use crate::lines::{FileStart, begin_line, end_line};
use crate::progress::{LaneProgress, progress_at, put_at};
use crate::run_names::RunNames;
use ledger_files::{
    Batch, DiskFault, FileDay, FileName, FoundFile, LedgerDisk, LineHead, OpenFile, RunFiles,
    SUM_OCTETS, date_of, day_of, is_next_due,
};
use ledger_state::{FileSum, LedgerFault, LedgerState};
use rad_metrics::time_since_1970;
use std::alloc::{AllocError, Global};
use std::marker::Sync;
use std::sync::{Arc, Wait};
use std::thread::Threads;
use std::time::{Clock, Duration, Instant};

/// How many milliseconds the thread sleeps between two rounds.
const PAUSE: u64 = 50;

/// How many milliseconds after a fault it tries again.
const AGAIN: u64 = 1000;

/// How many milliseconds after a sync the next one is due, and a look whether the file is still at its path. A round is
/// late by at most its own writes and [`PAUSE`].
const SYNC: u64 = 900;

/// How many milliseconds pass at least between two files that are begun since the one before can't be synced, or begun.
const ANEW: u64 = 60_000;

/// How many milliseconds after the sum was told it is told again.
const TOLD: u64 = 3_600_000;

/// What the thread that writes a ledger has, before it is started.
#[derive(Drop)]
pub struct LedgerWriter {
    pub(crate) source: LineSource,
    pub(crate) batch: Batch,
    ghost empty: { HoldsLines batch [] },
}

/// What lines are made of.
#[derive(Drop)]
pub(crate) struct LineSource {
    pub(crate) folder: String,
    pub(crate) names: RunNames,
    pub(crate) entries: EntryBuffer,
    /// Where the line of each entry is made.
    pub(crate) room: Vec<u8>,
    pub(crate) lanes: Vec<LaneProgress>,
    pub(crate) state: Arc<LedgerState>,
}

/// A writer at work.
#[derive(Drop)]
struct Session<'a, R, D: Drop> {
    rt: &'a R,
    alloc: Global,
    source: LineSource,
    files: RunFiles<D>,
    /// The number of the next file.
    number: u64,
    /// The day of the entries in the file.
    file: FileDay,
    /// The last time that was read, in milliseconds since 1970.
    time: u64,
    /// Whether the last round failed.
    is_failing: bool,
    /// When a sync was tried last.
    synced: Option<Instant>,
    /// Why that failed, if it did.
    sync_fault: Option<LedgerFault>,
    /// Whether something was written since the last sync that held.
    is_unsynced: bool,
    /// When a file was begun last since the one before could not be synced, or begun.
    anew: Option<Instant>,
    /// How many entries were written.
    entries: u64,
    /// The file of another run that was written last, as the first file names it.
    before: Option<FoundFile>,
    /// When the sum was told last.
    told: Option<Instant>,
    /// When the thread began, if the clock could be read.
    began: Option<Instant>,
}

impl LedgerWriter {
    /// Writes the entries as they come, until the ledger is ended and all is written. The thread does nothing else.
    pub fn write_all<R: Clock + Wait + Threads + Sync, D: LedgerDisk + Drop>(
        self,
        rt: &R,
        alloc: Global,
        disk: D,
    ) {
        let LedgerWriter { source, batch } = self;
        let began = Instant::now(rt).ok();
        let mut session = Session {
            rt,
            alloc,
            source,
            files: RunFiles::new(alloc, disk, batch),
            number: 0,
            file: FileDay { day: 0, back: None },
            time: 0,
            is_failing: false,
            synced: began,
            sync_fault: None,
            is_unsynced: false,
            anew: None,
            entries: 0,
            before: None,
            told: None,
            began,
        };
        for _ in rt.forever() {
            let is_last = session.source.state.begin_round();
            session.do_round(is_last);
            if is_last && !session.is_failing {
                session.tell_sum();
                session.source.state.finish();
                return;
            }
            let pause = if session.is_failing { AGAIN } else { PAUSE };
            session.source.state.sleep(rt, pause);
        }
    }
}

impl LineSource {
    /// Counts an entry of this lane and serial as written to the file that is open.
    fn pass(&mut self, lane: u16, serial: u64)
        ensures { self.new.lanes.items ≡ slice_set self.old.lanes.items lane (passed_by serial (get_or self.old.lanes.items lane not_begun)) }
    {
        self.state.write(lane, serial);
        let lane = usize::from(lane);
        let progress = progress_at(self.lanes.as_slice(), lane);
        put_at(&mut self.lanes, lane, progress.passed(serial));
    }

    /// Records that the next file is begun. If the one before is gone, the entries that were written to it are lost.
    fn leave_file(&mut self, is_gone: bool) {
        for lane in 0..self.lanes.len() {
            let progress = progress_at(self.lanes.as_slice(), lane);
            if is_gone && progress.held != 0 {
                let number = u16::try_from(lane).unwrap_or(u16::MAX);
                let last = progress.next.saturating_sub(1);
                self.state.lose(number, progress.held, progress.first, last);
            }
            put_at(&mut self.lanes, lane, progress.at_next_file(is_gone));
        }
    }
}

impl<R: Clock + Threads + Sync, D: LedgerDisk + Drop> Session<'_, R, D> {
    /// Writes what there is, and reports whether that failed. After a fault it goes on where it stopped, at first in the
    /// same file. If that fails again, or the file is no longer there, it begins the next file.
    fn do_round(&mut self, is_last: bool) {
        let was_failing = self.is_failing;
        let Err(fault) = self.write_round(is_last) else {
            self.succeed();
            return;
        };
        self.fail(fault);
        let day = self.day_now();
        if self.gives_up(fault, was_failing)
            && self.begin_file(day).is_ok()
            && self.write_round(is_last).is_ok()
        {
            self.succeed();
        }
    }

    /// Returns whether the next file is to be begun after a fault. One that can't be synced, or whose first line is not
    /// written whole, is given up at most once a minute.
    fn gives_up(&mut self, fault: LedgerFault, was_failing: bool) -> bool {
        let is_again = was_failing && self.files.disk().size() > 0;
        match fault {
            LedgerFault::Gone => true,
            LedgerFault::Parted => false,
            LedgerFault::Sync(_) => is_again && self.is_anew(),
            _ if self.files.is_begun() => is_again,
            _ => is_again && self.is_anew(),
        }
    }

    /// Returns whether a minute has passed since this was so last.
    fn is_anew(&mut self) -> bool {
        let is_past = self.is_past(self.anew, ANEW);
        if is_past {
            self.anew = Instant::now(self.rt).ok();
        }
        is_past
    }

    /// Returns whether so many milliseconds have passed since a moment, if there is one. If the clock can't be read, they
    /// have.
    fn is_past(&self, moment: Option<Instant>, milliseconds: u64) -> bool {
        match moment {
            Some(moment) => match moment.elapsed(self.rt) {
                Ok(passed) => passed >= Duration::from_millis(milliseconds),
                Err(_) => true,
            },
            None => true,
        }
    }

    /// Reports a fault, if the round before did not fail.
    fn fail(&mut self, fault: LedgerFault) {
        if !self.is_failing {
            self.is_failing = true;
            self.source.state.fail(fault);
        }
    }

    /// Reports that entries are written again, if the round before failed.
    fn succeed(&mut self) {
        if self.is_failing {
            self.is_failing = false;
            self.source.state.goes_on();
        }
    }

    /// Writes all entries that wait, and in the last round the line that ends the run, if there is to be one. Syncs the
    /// file if that is due; a sync that fails holds up no entry. Until entries may come it does nothing, so a program that
    /// can't serve leaves no file.
    fn write_round(&mut self, is_last: bool) -> Result<(), LedgerFault> {
        if !self.source.state.is_begun() {
            return Ok(());
        }
        for _ in 0..u64::MAX {
            self.make_lines()?;
            self.have_file()?;
            let is_done = self.files.batch().is_done() && self.files.is_begun();
            if is_done && is_last {
                self.make_last_line()?;
            }
            let is_due = self.is_past(self.synced, SYNC);
            let outcome = self.write_pending(is_due || is_last);
            let is_end = is_done && (is_last || self.sync_fault.is_some());
            if is_due || is_end || outcome.is_err() {
                let _ = self.sync();
            }
            outcome?;
            if is_done {
                if self.told.is_some() && self.is_past(self.told, TOLD) {
                    self.tell_sum();
                }
                return match self.sync_fault {
                    Some(fault) => Err(fault),
                    None if self.source.entries.is_parted() => Err(LedgerFault::Parted),
                    None => Ok(()),
                };
            }
        }
        Ok(())
    }

    /// Makes lines of the next entries, if all lines before them are written, and digests them.
    fn make_lines(&mut self) -> Result<(), LedgerFault> {
        if self.files.batch().is_done() && !self.files.is_ended() {
            let alloc = self.alloc;
            let day = self.file.day;
            if self.source.fill(&mut self.files, alloc, day).is_err() {
                return Err(LedgerFault::Memory);
            }
            let _ = self.files.digest(self.rt);
        }
        self.tell_oldest();
        Ok(())
    }

    /// Begins the next file if there is none, if the entries are of a later day, or if the file would have too many
    /// octets. A clock that went back begins none ([`FileDay::see`]). The file before is synced first: if that fails for
    /// the first time it stays open.
    fn have_file(&mut self) -> Result<(), LedgerFault> {
        self.file = self.file.see(self.clock_day(), self.passed());
        let day = self.day_now();
        let disk = self.files.disk();
        let open = if disk.is_open() {
            Some(OpenFile {
                size: disk.size(),
                day: self.file.day,
            })
        } else {
            None
        };
        let left = self.files.batch().left() as u64;
        if is_next_due(open, day, left) && self.files.is_begun() {
            let has_failed = self.sync_fault.is_some();
            let outcome = self.sync();
            if !has_failed {
                outcome?;
            }
            self.begin_file(day)?;
        }
        Ok(())
    }

    /// Returns when the first entry was handed over whose line is not written whole.
    fn oldest(&self) -> Option<u64> {
        match self.files.batch().oldest() {
            Some(head) => Some(head.time),
            None => None,
        }
    }

    /// Tells when the oldest entry was handed over that is not written: the first whose line is not written whole, or else
    /// the next in the buffer. If there is none it looks again once that is told: an entry that came meanwhile took the one
    /// before as the oldest.
    fn tell_oldest(&mut self) {
        let oldest = match self.oldest() {
            Some(oldest) => Some(oldest),
            None => self.source.entries.next_time(),
        };
        self.source.state.set_oldest(oldest);
        if oldest.is_none()
            && let Some(next) = self.source.entries.next_time()
        {
            self.source.state.set_oldest(Some(next));
        }
    }

    /// Returns the number of the day of the first line that is not written whole, or of now if there is none.
    fn day_now(&self) -> u64 {
        match self.oldest() {
            Some(oldest) => day_of(oldest),
            None => self.clock_day(),
        }
    }

    /// Returns the number of the day of now, or of the file if the clock can't be read.
    fn clock_day(&self) -> u64 {
        match time_since_1970(self.rt) {
            Some(now) => day_of(now),
            None => self.file.day,
        }
    }

    /// Returns the time, in milliseconds since 1970. It is the last one if the clock can't be read.
    fn read_time(&mut self) -> u64
        ensures { self.new.files ≡ self.old.files }
    {
        self.time = time_since_1970(self.rt).unwrap_or(self.time);
        self.time
    }

    /// Returns how many milliseconds have passed since the thread began, or 0 if the clock can't be read.
    fn passed(&self) -> u64 {
        let Some(began) = &self.began else {
            return 0;
        };
        match began.elapsed(self.rt) {
            Ok(passed) => u64::try_from(passed.as_millis()).unwrap_or(0),
            Err(_) => 0,
        }
    }

    /// Begins the next file, for entries of this day. The line of an entry that was not written whole is written to it from
    /// its start. If the file before is no longer at its path, its entries are lost.
    fn begin_file(&mut self, day: u64) -> Result<(), LedgerFault> {
        self.find_before();
        let now = self.read_time();
        let disk = self.files.disk();
        let is_gone = disk.is_open() && disk.check_place().is_err();
        let Ok(path) = self.next_path(now) else {
            return Err(LedgerFault::Memory);
        };
        let Ok(body) = self.first_line(now, is_gone) else {
            return Err(LedgerFault::Memory);
        };
        let alloc = self.alloc;
        self.files
            .begin_file(alloc, path, body)
            .map_err(ledger_fault)?;
        self.source.leave_file(is_gone);
        self.number = self.number.saturating_add(1);
        self.file.day = self.file.day.max(day);
        self.before = None;
        self.tell_sum();
        Ok(())
    }

    /// Finds the file of another run that was written last, if the first file is to be begun and it is not found yet. The run
    /// is tied to it by the sum of its last whole line; it is told once if that can't be had, since the file is compressed.
    fn find_before(&mut self) {
        if self.number == 0 && self.before.is_none() {
            let folder = self.source.folder.as_str();
            let run = self.source.names.run;
            match self.files.disk().find_before(self.alloc, folder, run) {
                Some(found) if found.is_compressed => self.source.state.leave_untied(found.name),
                found => self.before = found,
            }
        }
    }

    /// Tells the sum of the lines that were written, to be logged, if there is a file. It is that before the file's first
    /// line if this is not written yet.
    fn tell_sum(&mut self) {
        if self.number == 0 {
            return;
        }
        self.told = Instant::now(self.rt).ok();
        self.source.state.tell_sum(FileSum {
            run: self.source.names.run,
            file: self.number.saturating_sub(1),
            entries: self.entries,
            sum: words_of(self.files.sum()),
        });
    }

    /// Returns the path of the next file, whose first line has this time.
    fn next_path(&self, now: u64) -> Result<String, AllocError> {
        let name = FileName {
            folder: self.source.folder.as_str(),
            date: date_of(day_of(now)),
            run: self.source.names.run,
            number: self.number,
        };
        format!(in self.alloc; "{name}")
    }

    /// Returns the body of the line that begins the next file. If the one before is gone, it says from which serials on.
    fn first_line(&self, now: u64, is_gone: bool) -> Result<Vec<u8>, AllocError> {
        begin_line(
            self.alloc,
            &self.source.names,
            now,
            FileStart {
                file: self.number,
                before: self.before.as_ref(),
                is_gone,
            },
            self.source.lanes.as_slice(),
            Vec::new(self.alloc),
        )
    }

    /// Makes the line that ends the run, if there is to be one and it is not made yet.
    fn make_last_line(&mut self) -> Result<(), LedgerFault> {
        if !self.source.state.is_clean() || self.files.is_ended() {
            return Ok(());
        }
        let now = self.read_time();
        let body = end_line(
            self.alloc,
            &self.source.names,
            now,
            &self.source.state,
            Vec::new(self.alloc),
        );
        let outcome = match body {
            Ok(body) => self.files.end_with(body),
            Err(AllocError) => Err(AllocError),
        };
        outcome.map_err(|_| LedgerFault::Memory)
    }

    /// Writes what is not written, if there is anything. If `looks` is set, it looks whether the file is still at its path
    /// in any case.
    fn write_pending(&mut self, looks: bool) -> Result<(), LedgerFault> {
        if self.files.is_done() && !looks {
            return Ok(());
        }
        let before = self.files.disk().size();
        let outcome = self.write_lines();
        if !self.is_unsynced && self.files.disk().size() > before {
            self.is_unsynced = true;
            self.source.state.set_unsynced(time_since_1970(self.rt));
        }
        outcome.map_err(ledger_fault)
    }

    /// Writes the line that begins the file, the lines of entries and the line that ends the run, as far as they are
    /// not written, if the file is still at its path.
    fn write_lines(&mut self) -> Result<(), DiskFault> {
        let outcome = self.files.write();
        self.pass_lines();
        self.tell_oldest();
        outcome?;
        self.files.write_end()
    }

    /// Counts the lines of entries, and of requests that are left, that are written whole.
    fn pass_lines(&mut self) {
        let mut entries = 0_u64;
        let mut left = 0_u64;
        for _ in 0..self.files.batch().count() {
            let Some(head) = self.files.pass_line() else {
                break;
            };
            match head.serial {
                Some(serial) => {
                    self.source.pass(head.lane, serial);
                    entries = entries.saturating_add(1);
                }
                None => left = left.saturating_add(1),
            }
        }
        self.entries = self.entries.saturating_add(entries);
        self.source.state.count_written(entries);
        self.source.state.count_left_written(left);
    }

    /// Syncs the file that is open.
    fn sync(&mut self) -> Result<(), LedgerFault> {
        self.synced = Instant::now(self.rt).ok();
        match self.files.sync() {
            Ok(()) => {
                self.sync_fault = None;
                self.is_unsynced = false;
                self.source.state.set_unsynced(None);
                Ok(())
            }
            Err(fault) => {
                let fault = ledger_fault(fault);
                self.sync_fault = Some(fault);
                Err(fault)
            }
        }
    }
}

/// Returns a sum, as four numbers of eight octets each.
fn words_of(sum: [u8; SUM_OCTETS]) -> [u64; 4]
    ensures { result ≡ from_be_bytes w64 (slice_range sum 0 8) ∷ from_be_bytes w64 (slice_range sum 8 16) ∷ from_be_bytes w64 (slice_range sum 16 24) ∷ from_be_bytes w64 (slice_range sum 24 32) ∷ [] }
{
    [
        word_at(&sum, 0),
        word_at(&sum, 8),
        word_at(&sum, 16),
        word_at(&sum, 24),
    ]
}

fn word_at(sum: &[u8; SUM_OCTETS], place: usize) -> u64
    requires { place ≤ 24 }
    ensures { result ≡ from_be_bytes w64 (slice_range sum.now place (place + 8)) }
{
    let mut octets = [0; 8];
    octets.copy_from_slice(&sum[place..place + 8]);
    u64::from_be_bytes(octets)
}

fn ledger_fault(fault: DiskFault) -> LedgerFault {
    match fault {
        DiskFault::Gone => LedgerFault::Gone,
        DiskFault::Create(number) => LedgerFault::Create(number),
        DiskFault::Write(number) => LedgerFault::Write(number),
        DiskFault::Sync(number) => LedgerFault::Sync(number),
        DiskFault::Memory => LedgerFault::Memory,
    }
}
