//! The thread that writes a spool.

ghost use Rattle.std.specs.Prelude.{◌≡◌, [], IfOk};
ghost use Rattle.rtrb.specs.Ring.{sent};

use crate::appender::Appender;
use crate::disk::SpoolDisk;
use crate::fault::{SpoolFault, append_fault, device_fault, system_number};
use crate::giving::EntryGiver;
use crate::open_table::{MAY_BE, OpenTable, Place};
use crate::opening::{PLACES, SpoolPlace};
use crate::outlet::SpoolOutlet;
use crate::parcel::Parcel;
use crate::segments::{SegmentState, find_mut, is_over, moment_of, most_of_a_segment, total};
use crate::state::{RoundEnd, SpoolState};
use crate::waiting::{Waiting, put_entries};
use crate::wall_clock::time_since_1970;
use rad_tables::Key;
use rtrb::RingBuffer;
use spool_files::{
    AppendError, Begun, Came, FileCalls, Head, MOST_OCTETS, VERSION, put_entry, read_segment,
    recover,
};
use std::alloc::{AllocError, Global};
use std::io::ErrorKind;
use std::marker::Sync;
use std::mem;
use std::sync::{Arc, Wait};
use std::thread::{self, Threads};
use std::time::{Clock, Duration, Instant};

/// How many milliseconds pass from one batch to the next.
const PAUSE: u64 = 50;

/// How many times the rings are looked at from one batch to the next while much comes, so that none of the thread's work takes
/// long.
const LOOKS: u64 = 5;

/// How many entries are much from one batch to the next.
const MUCH: u64 = 200;

/// How many milliseconds after a fault the thread tries again.
const AGAIN: u64 = 1000;

/// After how many rounds the thread looks whether the newest segment is still there.
const LOOK: u64 = 20;

/// How many octets a request has at most.
const GREATEST_REQUEST: usize = 4096;

/// How many octets of entries a batch has, about, at most.
const BATCH: usize = 1 << 22;

/// What the thread that writes a spool has, before it is started.
#[derive(Drop)]
pub struct SpoolWriter {
    pub(crate) place: SpoolPlace,
    /// The run.
    pub(crate) run: u64,
    /// For how many milliseconds an answer is remembered.
    pub(crate) span: u64,
    pub(crate) outlet: SpoolOutlet,
    pub(crate) table: OpenTable,
    /// The segments, the oldest first.
    pub(crate) segments: Vec<SegmentState>,
    /// The number of the next segment.
    pub(crate) next: u64,
    /// Whether segments may be removed: the system has refused no removal.
    pub(crate) may_remove: bool,
    /// How many requests were taken out of the ring.
    pub(crate) taken: u64,
    pub(crate) state: Arc<SpoolState>,
}

/// A writer at work, round by round. The thread of a run does a round each 50 ms; tests and a simulation do them as they choose.
#[derive(Drop)]
pub struct SpoolSession<'a, R, D: SpoolDisk + Drop> {
    rt: &'a R,
    alloc: Global,
    disk: D,
    its: SpoolWriter,
    /// The newest segment, if it takes more batches.
    segment: Option<Appender<D::Calls>>,
    /// The entries that are in no batch that is on disk, in their order.
    waiting: Vec<Waiting>,
    /// Where the body of a batch is made.
    body: Vec<u8>,
    /// How many entries were taken out of the rings since the last batch, and before it.
    came: u64,
    came_before: u64,
    /// Whether memory was refused for an entry since the last round.
    is_short: bool,
    /// Whether the last round failed.
    is_failing: bool,
    /// How many octets have to be free before something is written after a fault.
    reserve: u64,
    /// Whether a batch could not be appended that may be on disk all the same.
    is_torn: bool,
    /// How many rounds remain to the next look whether the newest segment is there.
    rounds: u64,
}

/// Puts a request once more. No segment has a longer one.
fn put_again(body: &mut Vec<u8>, came: Came, text: &[u8]) -> Result<(), SpoolFault> {
    if text.len() > GREATEST_REQUEST {
        return Err(SpoolFault::Read(0));
    }
    match put_entry(body, &Head::Came(came), text) {
        Ok(()) => Ok(()),
        Err(AllocError) => Err(SpoolFault::Memory),
    }
}

/// Starts the thread that writes a spool to this disk, and returns whether that succeeded. No thread joins it: it ends with the program.
pub fn start_spool_writer<R, C, D>(rt: &R, alloc: Global, writer: SpoolWriter, disk: D) -> bool
where
    R: Clock + Threads + Wait + Sync + Copy + Send + 'static,
    C: FileCalls + Drop + Send + 'static,
    D: SpoolDisk<Calls = C> + Drop + Send + 'static,
{
    let own = *rt;
    writer.state.start();
    thread::spawn(rt, move || writer.write_all(&own, alloc, disk)).is_ok()
}

impl SpoolWriter {
    /// Makes other rings, out of which it takes from now on, and returns their other ends: nothing was put into them.
    ///
    /// # Errors
    ///
    /// `AllocError` if memory is refused. Then it has its rings still.
    pub fn with_giver(&mut self, alloc: Global) -> Result<EntryGiver, AllocError>
        ensures { IfOk result (λ giver. (sent giver.requests ≡ []) × (sent giver.responses ≡ [])) }
    {
        let (requests, taken_requests) = RingBuffer::new(alloc, PLACES)?;
        let (responses, taken_responses) = RingBuffer::new(alloc, PLACES)?;
        let state = Arc::try_clone(&self.state)?;
        self.outlet = SpoolOutlet::new(taken_requests, taken_responses);
        Ok(EntryGiver::new(alloc, requests, responses, state))
    }

    /// Writes entries as they come, until the spool is ended and all is written. The thread does nothing else.
    pub fn write_all<R: Clock + Wait, D: SpoolDisk + Drop>(self, rt: &R, alloc: Global, disk: D) {
        let mut session = SpoolSession::new(rt, alloc, self, disk);
        for _ in rt.forever() {
            let began = Instant::now(rt).ok();
            let is_last = session.its.state.begin_round();
            session.do_round();
            if is_last && !session.is_failing {
                session.its.state.finish();
                return;
            }
            for _ in 1..session.looks() {
                session.its.state.sleep(rt, PAUSE / LOOKS);
                session.take_all();
            }
            let pause = session.pause(began);
            session.its.state.sleep(rt, pause);
        }
    }
}

impl<'a, R, D: SpoolDisk + Drop> SpoolSession<'a, R, D> {
    /// Makes a writer that has written nothing yet.
    pub fn new(rt: &'a R, alloc: Global, its: SpoolWriter, disk: D) -> SpoolSession<'a, R, D> {
        SpoolSession {
            rt,
            alloc,
            disk,
            its,
            segment: None,
            waiting: Vec::new(alloc),
            body: Vec::new(alloc),
            came: 0,
            came_before: 0,
            is_short: false,
            is_failing: false,
            reserve: 0,
            is_torn: false,
            rounds: LOOK,
        }
    }
}

impl<R: Clock, D: SpoolDisk + Drop> SpoolSession<'_, R, D> {
    /// Returns how many milliseconds to sleep after a round that began at this moment.
    fn pause(&self, began: Option<Instant>) -> u64 {
        if self.is_failing {
            return AGAIN;
        }
        let Some(Ok(passed)) = began.map(|began| began.elapsed(self.rt)) else {
            return PAUSE;
        };
        let left = Duration::from_millis(PAUSE).saturating_sub(passed);
        u64::try_from(left.as_millis()).unwrap_or(PAUSE).max(1)
    }

    /// Returns how many times the rings are to be looked at before the next batch.
    fn looks(&self) -> u64 {
        if self.is_failing || self.came_before < MUCH {
            1
        } else {
            LOOKS
        }
    }

    /// Takes what came, writes it, and removes what no longer counts. Reports whether that failed.
    pub fn do_round(&mut self) {
        let began = self.now();
        match self.write_round() {
            Ok(()) => self.succeed(),
            Err(fault) => self.fail(fault),
        }
        let oldest = self.oldest();
        let its = &self.its;
        its.state.end_round(RoundEnd {
            open: its.table.len() as u64,
            taken: its.taken,
            unsynced: its.table.unsynced(),
            synced: (!self.is_failing).then_some(began),
            waiting: self.waiting.len() as u64,
            oldest,
            octets: total(&its.segments),
        });
    }

    /// Returns when the first open request came in, in milliseconds since 1970. What waits came in behind what was written.
    fn oldest(&self) -> Option<u64> {
        let Some(oldest) = self.its.table.oldest() else {
            return self.first_waiting();
        };
        Some(oldest)
    }

    /// Returns when the first open request came in of those that wait.
    fn first_waiting(&self) -> Option<u64> {
        for waiting in &self.waiting {
            if let Head::Came(came) = &waiting.parcel.head
                && is_open(&self.its.table, came)
            {
                return Some(came.moment);
            }
        }
        None
    }

    /// Reports a fault, if the round before did not fail. A spool that is full is written again once it has room for more than a
    /// batch, so that a full one is not reported again and again.
    fn fail(&mut self, fault: SpoolFault) {
        self.its.state.count_fault();
        if matches!(fault, SpoolFault::Limit) {
            self.reserve = self.its.place.limit / 8;
        }
        if !self.is_failing {
            self.is_failing = true;
            self.its.state.fail(fault);
        }
    }

    /// Reports that entries are written again, if the round before failed.
    fn succeed(&mut self) {
        self.reserve = 0;
        if self.is_failing {
            self.is_failing = false;
            self.its.state.goes_on();
        }
    }

    /// Removal goes on while the disk is full, since it makes room.
    fn write_round(&mut self) -> Result<(), SpoolFault> {
        self.take_all();
        self.came_before = mem::replace(&mut self.came, 0);
        let is_short = mem::replace(&mut self.is_short, false);
        self.look_for_newest()?;
        let written = self.write_all_waiting();
        let removed = self.remove_old();
        if is_short {
            return Err(SpoolFault::Memory);
        }
        written?;
        removed
    }

    /// Looks from time to time whether the newest segment is still there. If somebody removed it, all that is open counts as
    /// lost, and a new segment is begun.
    fn look_for_newest(&mut self) -> Result<(), SpoolFault> {
        self.rounds = self.rounds.saturating_sub(1);
        if self.rounds > 0 || self.segment.is_none() {
            return Ok(());
        }
        self.rounds = LOOK;
        let folder = self.its.place.folder.as_str();
        let fault = match self.disk.numbers(self.alloc, folder) {
            Ok(numbers) if numbers.last().copied() >= Some(self.newest_number()) => return Ok(()),
            Ok(_) => SpoolFault::Read(0),
            Err(error) => SpoolFault::Read(system_number(&error)),
        };
        self.segment = None;
        for _ in 0..self.its.table.len() {
            self.its.state.count_lost_request();
        }
        Err(fault)
    }

    /// Writes all that waits. After a fault it begins a segment, even if nothing waits.
    fn write_all_waiting(&mut self) -> Result<(), SpoolFault> {
        self.let_go();
        if self.is_failing {
            self.check_limit(self.reserve)?;
            if self.segment.is_none() {
                self.begin_segment()?;
            }
        }
        self.write_waiting()
    }

    /// Returns the time, in milliseconds since 1970.
    fn now(&self) -> u64 {
        time_since_1970(self.rt).unwrap_or(0)
    }
}

impl<R: Clock, D: SpoolDisk + Drop> SpoolSession<'_, R, D> {
    /// Takes all that is in the rings. If memory is refused for an entry, the next round fails.
    fn take_all(&mut self) {
        for _ in 0..self.its.outlet.look() {
            let Some(parcel) = self.its.outlet.take() else {
                break;
            };
            self.came = self.came.saturating_add(1);
            if self.enter(parcel).is_err() {
                self.its.state.count_lost_request();
                self.is_short = true;
            }
        }
    }

    /// Notes what a parcel opens or closes. It is to be written, unless the spool has it, or needs it no more.
    fn enter(&mut self, parcel: Parcel) -> Result<(), AllocError> {
        let mut closes = 0;
        let is_written = match &parcel.head {
            Head::Came(came) => {
                self.its.taken = self.its.taken.saturating_add(1);
                self.open(came, parcel.octets.as_slice().len())?
            }
            Head::Answered(answered) => {
                let key = answered.key;
                closes = self.close(&key);
                closes != 0 || !self.is_failing
            }
            _ => false,
        };
        if is_written {
            self.waiting.push(Waiting { parcel, closes })?;
        }
        Ok(())
    }

    /// Notes that a request is open, and returns whether it was not: then it is to be written.
    fn open(&mut self, came: &Came, octets: usize) -> Result<bool, AllocError> {
        if self.its.table.find(&came.key).is_some() {
            return Ok(false);
        }
        let place = Place {
            arrival: came.arrival,
            moment: came.moment,
            segment: 0,
            octets: octets as u64,
        };
        self.its.table.open(came.key, place)?;
        Ok(true)
    }

    /// Notes that a request is answered, and returns the number of the segment in which it stands; 0 if it is on no disk.
    fn close(&mut self, key: &Key) -> u64 {
        match self.its.table.close(key) {
            Some(place) => place.segment,
            None => 0,
        }
    }

    /// Lets go of what need not be written: of requests that are no longer open, since their answers are written, and, if the
    /// disk fails, of answers to requests that are on no disk.
    fn let_go(&mut self) {
        let (table, is_failing) = (&self.its.table, self.is_failing);
        self.waiting
            .retain(|waiting| is_needed(table, is_failing, waiting));
    }
}

/// Returns whether what waits is to be written.
fn is_needed(table: &OpenTable, is_failing: bool, waiting: &Waiting) -> bool {
    match &waiting.parcel.head {
        Head::Came(came) => is_open(table, came),
        _ => waiting.closes != 0 || !is_failing,
    }
}

/// Returns whether it is this request that is open by its key.
fn is_open(table: &OpenTable, came: &Came) -> bool {
    match table.find(&came.key) {
        Some(place) => place.arrival == came.arrival,
        None => false,
    }
}

impl<R: Clock, D: SpoolDisk + Drop> SpoolSession<'_, R, D> {
    /// Writes all that waits, in batches.
    fn write_waiting(&mut self) -> Result<(), SpoolFault> {
        for _ in 0..self.waiting.len() {
            if self.waiting.is_empty() {
                break;
            }
            self.write_some()?;
        }
        Ok(())
    }

    /// Writes a batch of what waits.
    fn write_some(&mut self) -> Result<(), SpoolFault> {
        self.body.clear();
        let Ok(count) = put_entries(&mut self.body, &self.waiting, BATCH) else {
            return Err(SpoolFault::Memory);
        };
        self.note(count)?;
        if let Err(fault) = self.append_body() {
            self.doubt(count);
            return Err(fault);
        }
        self.settle(count);
        let count = count.min(self.waiting.len());
        self.waiting.drain(..count);
        Ok(())
    }

    /// Notes when the first requests of what waits came in.
    fn note(&mut self, count: usize) -> Result<(), SpoolFault> {
        for waiting in self.waiting.iter().take(count) {
            if let Head::Came(came) = &waiting.parcel.head
                && self.its.table.note(came.arrival, came.moment).is_err()
            {
                return Err(SpoolFault::Memory);
            }
        }
        Ok(())
    }

    /// Notes that the first requests of what waits may be on disk, if their batch may: their answers are to be written then.
    fn doubt(&mut self, count: usize) {
        if !self.is_torn {
            return;
        }
        self.is_torn = false;
        for waiting in self.waiting.iter().take(count) {
            if let Head::Came(came) = &waiting.parcel.head
                && is_open(&self.its.table, came)
            {
                self.its.table.move_to(&came.key, MAY_BE);
            }
        }
    }

    /// Notes that the first of what waits are in a batch that is on disk.
    fn settle(&mut self, count: usize) {
        let number = self.newest_number();
        let segments = &mut self.its.segments;
        for waiting in self.waiting.iter().take(count) {
            let mut opened = 0;
            if let Head::Came(came) = &waiting.parcel.head
                && is_open(&self.its.table, came)
            {
                self.its.table.move_to(&came.key, number);
                opened = 1;
            }
            if let Some(segment) = find_mut(segments.as_mut_slice(), number) {
                segment.open = segment.open.saturating_add(opened);
                segment.see(moment_of(&waiting.parcel.head).unwrap_or(0));
            }
            if let Some(segment) = find_mut(segments.as_mut_slice(), waiting.closes) {
                segment.open = segment.open.saturating_sub(1);
            }
        }
        self.its.state.count_written(count as u64);
    }

    /// Returns the number of the newest segment, or 0.
    fn newest_number(&self) -> u64 {
        match self.its.segments.last() {
            Some(last) => last.number,
            None => 0,
        }
    }
}

impl<R: Clock, D: SpoolDisk + Drop> SpoolSession<'_, R, D> {
    /// Appends the body as a batch: to the newest segment, or, if that has no room for it, to a new one.
    fn append_body(&mut self) -> Result<(), SpoolFault> {
        if self.body.is_empty() {
            return Ok(());
        }
        self.check_limit(self.body.len() as u64)?;
        self.leave_large_segment();
        if self.try_append()? {
            return Ok(());
        }
        self.begin_segment()?;
        if self.try_append()? {
            Ok(())
        } else {
            Err(SpoolFault::Limit)
        }
    }

    /// Leaves the newest segment for the next one if it has as many octets as one takes in this spool.
    fn leave_large_segment(&mut self) {
        if let Some(last) = self.its.segments.last()
            && last.has_entries
            && last.octets >= most_of_a_segment(self.its.place.limit)
        {
            self.segment = None;
        }
    }

    /// Fails if the spool would have more octets on disk than it may, with so many more.
    fn check_limit(&self, more: u64) -> Result<(), SpoolFault> {
        if total(&self.its.segments).saturating_add(more) > self.its.place.limit {
            Err(SpoolFault::Limit)
        } else {
            Ok(())
        }
    }

    /// Appends the body as a batch to the newest segment, if that has room for it, and returns whether it had.
    fn try_append(&mut self) -> Result<bool, SpoolFault> {
        let Some(segment) = self.segment.take() else {
            return Ok(false);
        };
        match segment.append(self.alloc, &self.body) {
            Ok(segment) => {
                self.keep_segment(segment);
                Ok(true)
            }
            Err(AppendError::Full) => Ok(false),
            Err(error) => {
                self.is_torn = true;
                self.remove_empty();
                Err(append_fault(error))
            }
        }
    }

    fn keep_segment(&mut self, segment: Appender<D::Calls>) {
        // Behind the last batch stands the gate of the next one.
        let octets = segment.octets().saturating_add(1);
        self.segment = Some(segment);
        if let Some(last) = self.its.segments.as_mut_slice().last_mut() {
            last.octets = octets;
        }
    }

    /// Begins the next segment, whose first batch tells its number and the run.
    fn begin_segment(&mut self) -> Result<(), SpoolFault> {
        let number = self.its.next;
        self.its.next = number.saturating_add(1);
        let folder = self.its.place.folder.as_str();
        let file = match self.disk.make(self.alloc, folder, number) {
            Ok(file) => file,
            Err(error) => {
                // A file that was there already is another's.
                if error.kind() != ErrorKind::AlreadyExists {
                    let _ = self.disk.remove(self.alloc, folder, number);
                }
                return Err(SpoolFault::Create(system_number(&error)));
            }
        };
        if self.its.segments.push(SegmentState::made(number)).is_err() {
            return Err(SpoolFault::Memory);
        }
        let begun = match Appender::begin(file) {
            Ok(segment) => self.append_beginning(segment, number),
            Err(fault) => Err(device_fault(fault)),
        };
        match begun {
            Ok(segment) => {
                self.keep_segment(segment);
                Ok(())
            }
            Err(fault) => {
                self.remove_empty();
                Err(fault)
            }
        }
    }

    fn append_beginning(
        &self,
        segment: Appender<D::Calls>,
        number: u64,
    ) -> Result<Appender<D::Calls>, SpoolFault> {
        let head = Head::Begun(Begun {
            version: VERSION,
            run: self.its.run,
            number,
        });
        let mut body = Vec::new(self.alloc);
        if put_entry(&mut body, &head, &[]).is_err() {
            return Err(SpoolFault::Memory);
        }
        segment.append(self.alloc, &body).map_err(append_fault)
    }

    /// Removes the newest segment if no entry about a request is in it, since nothing can be written to it.
    fn remove_empty(&mut self) {
        let Some(last) = self.its.segments.last() else {
            return;
        };
        if last.has_entries {
            return;
        }
        let folder = self.its.place.folder.as_str();
        let _ = self.disk.remove(self.alloc, folder, last.number);
        self.its.segments.pop();
    }
}

impl<R: Clock, D: SpoolDisk + Drop> SpoolSession<'_, R, D> {
    /// Removes the oldest segments as long as nothing of them counts. If they have too many octets, what is open in the oldest
    /// is written once more.
    fn remove_old(&mut self) -> Result<(), SpoolFault> {
        let now = self.now();
        for _ in 0..self.its.segments.len() {
            if !self.its.may_remove || !self.can_go(now)? {
                return Ok(());
            }
            self.remove_oldest()?;
        }
        Ok(())
    }

    /// Returns whether nothing of the oldest segment counts, once what is open in it was written once more, if that is due.
    fn can_go(&mut self, now: u64) -> Result<bool, SpoolFault> {
        let [oldest, _, ..] = self.its.segments.as_slice() else {
            return Ok(false);
        };
        let oldest = *oldest;
        if oldest.is_within(now, self.its.span) {
            return Ok(false);
        }
        if oldest.open == 0 {
            return Ok(true);
        }
        let open = self.its.table.octets();
        let most = most_of_a_segment(self.its.place.limit);
        if !self.waiting.is_empty()
            || !is_over(&self.its.segments, now, self.its.span, open, most)
        {
            return Ok(false);
        }
        self.write_again(oldest.number)?;
        Ok(true)
    }

    /// Removes the oldest segment, or renames its file if that is damaged. If that fails, a crash may bring it back, so no
    /// other is removed then.
    fn remove_oldest(&mut self) -> Result<(), SpoolFault> {
        let Some(oldest) = self.its.segments.first() else {
            return Ok(());
        };
        let folder = self.its.place.folder.as_str();
        let outcome = if oldest.is_damaged {
            self.disk.set_aside(self.alloc, folder, oldest.number)
        } else {
            self.disk.remove(self.alloc, folder, oldest.number)
        };
        if let Err(error) = outcome {
            self.its.may_remove = false;
            return Err(SpoolFault::Write(system_number(&error)));
        }
        self.its.segments.remove(0);
        Ok(())
    }

    /// Writes what is open in a segment once more, to the newest one.
    fn write_again(&mut self, number: u64) -> Result<(), SpoolFault> {
        let folder = self.its.place.folder.as_str();
        let (mut device, octets) = match self.disk.find(self.alloc, folder, number) {
            Ok(found) => found,
            Err(error) => return Err(SpoolFault::Read(system_number(&error))),
        };
        if let Err(error) = recover(self.alloc, &mut device, &octets) {
            return Err(append_fault(error));
        }
        let Ok(read) = read_segment(self.alloc, number, &octets) else {
            return Err(SpoolFault::Memory);
        };
        self.body.clear();
        for entry in &read.entries {
            let (head, text) = *entry;
            if let Head::Came(came) = head
                && self.stands_in(&head, number)
            {
                put_again(&mut self.body, came, text)?;
            }
        }
        self.append_body()?;
        let newest = self.newest_number();
        for entry in &read.entries {
            let (head, _) = *entry;
            if self.stands_in(&head, number) {
                self.move_to(&head, newest);
            }
        }
        Ok(())
    }

    /// Returns whether an entry is a request that is open and stands in this segment.
    fn stands_in(&self, head: &Head, number: u64) -> bool {
        match head {
            Head::Came(came) => match self.its.table.find(&came.key) {
                Some(place) => place.segment == number && place.arrival == came.arrival,
                None => false,
            },
            _ => false,
        }
    }

    /// Notes that a request stands in this segment now.
    fn move_to(&mut self, head: &Head, number: u64) {
        let Head::Came(came) = head else {
            return;
        };
        self.its.table.move_to(&came.key, number);
        if let Some(segment) = find_mut(self.its.segments.as_mut_slice(), number) {
            segment.open = segment.open.saturating_add(1);
            segment.see(came.moment);
        }
    }
}
