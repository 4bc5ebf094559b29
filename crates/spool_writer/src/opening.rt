//! Opening a spool: what its segments have, and the two rings.

use crate::disk::SpoolDisk;
use crate::fault::{SpoolFault, append_fault, system_number};
use crate::giving::{RequestGiver, ResponseGiver};
use crate::inlet::{ResponseInlet, SpoolInlet};
use crate::log_lines::log_spool_fault;
use crate::offer_notes::OfferNotes;
use crate::open_table::{OpenTable, Place};
use crate::outlet::SpoolOutlet;
use crate::segments::{SegmentState, moment_of};
use crate::state::SpoolState;
use crate::wall_clock::time_since_1970;
use crate::writer::SpoolWriter;
use rad_log::Log;
use rad_realms::Config;
use rad_tables::Key;
use rtrb::RingBuffer;
use spool_files::{
    Counted, Fault, FaultKind, Head, LocalAddress, OpenRequest, RememberedAnswer, SegmentRead,
    read_segment, recover, sort_by_arrival,
};
use std::alloc::{AllocError, AllocGlobal, Global};
use std::env::{self, Env, VarError};
use std::sync::Arc;
use std::time::Clock;

/// The environment variable that names the folder of the spool.
const SPOOL: &str = "RAD_PROXY_SPOOL";

/// The environment variable that has how many octets the spool may have on disk.
const LIMIT: &str = "RAD_PROXY_SPOOL_LIMIT";

/// How many octets the spool may have on disk, where the variable is not set.
const DEFAULT_LIMIT: u64 = 1 << 34;

/// How many requests may wait for the thread, and how many responses.
pub(crate) const PLACES: usize = 32_768;

/// Where a spool is, and how many octets it may have on disk.
#[derive(Drop)]
pub struct SpoolPlace {
    pub folder: String,
    pub limit: u64,
}

/// A spool that is open: what the front has of it, what the thread has, what they and the reporter share, and what the runs
/// before left.
#[derive(Drop)]
pub struct OpenedSpool<'a, R, D: Drop> {
    /// Takes the requests that lanes take as new.
    pub inlet: SpoolInlet<'a, R>,
    /// Takes the responses.
    pub responses: ResponseInlet<'a, R>,
    pub writer: SpoolWriter,
    pub disk: D,
    pub state: Arc<SpoolState>,
    pub notes: Arc<OfferNotes>,
    /// The requests that are open, in the order in which they came.
    pub requests: Vec<OpenRequest>,
    /// The answers that are remembered, in the order in which they were given.
    pub answers: Vec<RememberedAnswer>,
    /// What is wrong with the segments.
    pub faults: Vec<Fault>,
}

/// Returns where `RAD_PROXY_SPOOL` says that the spool is, if it does; an empty value names no folder. If its value, or that of
/// `RAD_PROXY_SPOOL_LIMIT`, is of no use, it logs `event=spool-fault` and returns none.
///
/// # Errors
///
/// `AllocError` if memory is refused.
pub fn find_spool<R, L>(rt: &R, log: &L) -> Result<Option<SpoolPlace>, AllocError>
where
    R: Env + AllocGlobal,
    L: Log,
{
    match read_place(rt) {
        Ok(place) => Ok(place),
        Err(SpoolFault::Memory) => Err(AllocError),
        Err(fault) => {
            log_spool_fault(log, fault);
            Ok(None)
        }
    }
}

fn read_place<R: Env + AllocGlobal>(rt: &R) -> Result<Option<SpoolPlace>, SpoolFault> {
    let Some(folder) = read_variable(rt, SPOOL)? else {
        return Ok(None);
    };
    let limit = match read_variable(rt, LIMIT)? {
        None => DEFAULT_LIMIT,
        Some(text) => match text.parse::<u64>() {
            Ok(limit) => limit,
            Err(_) => return Err(SpoolFault::NoNumber),
        },
    };
    Ok(Some(SpoolPlace { folder, limit }))
}

/// Returns the value of a variable, unless it is not set or empty.
fn read_variable<R: Env + AllocGlobal>(rt: &R, name: &str) -> Result<Option<String>, SpoolFault> {
    match env::var(rt, name) {
        Ok(text) if text.is_empty() => Ok(None),
        Ok(text) => Ok(Some(text)),
        Err(VarError::NotPresent) => Ok(None),
        Err(VarError::OutOfMemory) => Err(SpoolFault::Memory),
        Err(VarError::NotUnicode) => Err(SpoolFault::NoText),
    }
}

/// Opens a spool for a run: takes the lock of its folder, and reads its segments. No segment is made yet. Requests come in at
/// these addresses, by the number of the socket.
///
/// # Errors
///
/// If the folder can't be had, a segment can't be read, or memory is refused. Then nothing was changed.
pub fn open_spool<'a, R: Clock, D: SpoolDisk + Drop>(
    rt: &'a R,
    alloc: Global,
    disk: D,
    place: SpoolPlace,
    config: &Config,
    run: u64,
    ours: Vec<LocalAddress>,
) -> Result<OpenedSpool<'a, R, D>, SpoolFault> {
    let terms = RunTerms {
        run,
        span: greatest_span(config),
        lanes: config.homes().len(),
    };
    open_for(rt, alloc, disk, place, terms, ours)
}

/// What a run has to do with a spool.
#[derive(Clone, Copy)]
pub(crate) struct RunTerms {
    /// What names the run.
    pub(crate) run: u64,
    /// For how many milliseconds an answer is remembered.
    pub(crate) span: u64,
    /// How many lanes there are.
    pub(crate) lanes: usize,
}

/// Opens a spool as [`open_spool`] does.
pub(crate) fn open_for<'a, R: Clock, D: SpoolDisk + Drop>(
    rt: &'a R,
    alloc: Global,
    disk: D,
    place: SpoolPlace,
    terms: RunTerms,
    ours: Vec<LocalAddress>,
) -> Result<OpenedSpool<'a, R, D>, SpoolFault> {
    let mut disk = disk;
    disk.take_folder(alloc, place.folder.as_str())?;
    let now = time_since_1970(rt).unwrap_or(0);
    let found = read_segments(&disk, alloc, place.folder.as_str(), now, terms.span)?;
    match open_ends(rt, alloc, disk, place, terms, ours, found) {
        Ok(opened) => Ok(opened),
        Err(AllocError) => Err(SpoolFault::Memory),
    }
}

/// Returns the greatest span of a configuration, in milliseconds.
pub(crate) fn greatest_span(config: &Config) -> u64 {
    let mut span = 0;
    for home in config.homes() {
        span = span.max(u64::from(home.limits().numbers().span));
    }
    span
}

/// What was found in the folder of a spool.
#[derive(Drop)]
struct FoundSpool {
    /// What is open and what is remembered.
    counted: Counted,
    /// What is wrong.
    faults: Vec<Fault>,
    /// The segments, the oldest first.
    segments: Vec<SegmentState>,
    table: OpenTable,
    /// The greatest place of a request among those of all runs.
    greatest: u64,
}

/// Reads the segments of a folder, the newest first and one at a time, and has the system keep what was read.
fn read_segments<D: SpoolDisk>(
    disk: &D,
    alloc: Global,
    folder: &str,
    now: u64,
    span: u64,
) -> Result<FoundSpool, SpoolFault> {
    let numbers = match disk.numbers(alloc, folder) {
        Ok(numbers) => numbers,
        Err(error) => return Err(SpoolFault::Read(system_number(&error))),
    };
    let mut found = FoundSpool {
        counted: Counted::new(alloc),
        faults: Vec::new(alloc),
        segments: Vec::new(alloc),
        table: OpenTable::new(alloc),
        greatest: 0,
    };
    for number in numbers.iter().rev() {
        found.read_segment(disk, alloc, folder, *number, (now, span))?;
    }
    found.turn_round();
    Ok(found)
}

impl FoundSpool {
    /// Reads the next older segment.
    fn read_segment<D: SpoolDisk>(
        &mut self,
        disk: &D,
        alloc: Global,
        folder: &str,
        number: u64,
        until: (u64, u64),
    ) -> Result<(), SpoolFault> {
        let (mut device, octets) = match disk.find(alloc, folder, number) {
            Ok(found) => found,
            Err(error) => return Err(SpoolFault::Read(system_number(&error))),
        };
        if let Err(error) = recover(alloc, &mut device, &octets) {
            return Err(append_fault(error));
        }
        let mut segment = SegmentState::made(number);
        segment.octets = octets.len() as u64;
        let Ok(read) = read_segment(alloc, number, &octets) else {
            return Err(SpoolFault::Memory);
        };
        if read
            .faults
            .iter()
            .any(|fault| fault.kind == FaultKind::LaterVersion)
        {
            return Err(SpoolFault::Later);
        }
        match self.count(alloc, until, &read, segment) {
            Ok(()) => Ok(()),
            Err(AllocError) => Err(SpoolFault::Memory),
        }
    }

    /// Counts the entries of a segment, from the last to the first.
    fn count(
        &mut self,
        alloc: Global,
        until: (u64, u64),
        read: &SegmentRead<'_>,
        segment: SegmentState,
    ) -> Result<(), AllocError> {
        let (now, span) = until;
        let mut segment = segment;
        let before = self.counted.requests.len();
        for entry in read.entries.iter().rev() {
            let (head, text) = *entry;
            self.counted.count(alloc, now, span, &head, text)?;
            if let Head::Came(came) = &head {
                self.greatest = self.greatest.max(came.arrival);
            }
            if let Some(moment) = moment_of(&head) {
                // An entry of a clock that was ahead counts as one of now.
                segment.see(moment.min(now));
            }
        }
        segment.open = self.enter_open(before, segment.number)?;
        segment.is_damaged = !read.faults.is_empty();
        self.segments.push(segment)?;
        for fault in read.faults.iter().rev() {
            self.faults.push(*fault)?;
        }
        Ok(())
    }

    /// Enters the open requests behind so many into the table, as those of this segment, and returns how many these are.
    fn enter_open(&mut self, before: usize, number: u64) -> Result<u64, AllocError> {
        let mut count = 0_u64;
        for request in self.counted.requests.iter().skip(before) {
            let place = Place {
                arrival: request.came.arrival,
                moment: request.came.moment,
                segment: number,
                octets: request.octets.len() as u64,
            };
            self.table.open(request.came.key, place)?;
            self.table.note(place.arrival, place.moment)?;
            count = count.saturating_add(1);
        }
        Ok(count)
    }

    /// Puts all in its order, once the oldest segment was read.
    fn turn_round(&mut self) {
        self.faults.reverse();
        self.segments.reverse();
        self.counted.answers.reverse();
        sort_by_arrival(self.counted.requests.as_mut_slice());
    }
}

/// The ends of the two rings, and what the front, the thread and the reporter share.
#[derive(Drop)]
struct Ends {
    requests: RequestGiver,
    responses: ResponseGiver,
    outlet: SpoolOutlet,
    shared: Shared,
}

/// What the front, the thread and the reporter share: one of each for who has it.
#[derive(Drop)]
struct Shared {
    of_inlet: Arc<SpoolState>,
    of_responses: Arc<SpoolState>,
    of_writer: Arc<SpoolState>,
    state: Arc<SpoolState>,
    notes_of_inlet: Arc<OfferNotes>,
    notes: Arc<OfferNotes>,
}

impl Shared {
    /// Makes it for so many lanes, at this moment in milliseconds since 1970.
    fn new(
        alloc: Global,
        lanes: usize,
        answers: &[RememberedAnswer],
        now: u64,
    ) -> Result<Shared, AllocError> {
        let answered = keys_answered(alloc, answers)?;
        let notes = Arc::new(alloc, OfferNotes::new(alloc, lanes, answered)?)?;
        let state = Arc::new(alloc, SpoolState::new(now, Arc::try_clone(&notes)?))?;
        Ok(Shared {
            of_inlet: Arc::try_clone(&state)?,
            of_responses: Arc::try_clone(&state)?,
            of_writer: Arc::try_clone(&state)?,
            notes_of_inlet: Arc::try_clone(&notes)?,
            state,
            notes,
        })
    }
}

/// Returns the keys of the requests that were answered.
fn keys_answered(alloc: Global, answers: &[RememberedAnswer]) -> Result<Vec<Key>, AllocError> {
    let mut answered = Vec::with_capacity(alloc, answers.len())?;
    for answer in answers {
        answered.push(answer.answered.key)?;
    }
    Ok(answered)
}

impl Ends {
    /// Makes two rings into which nothing was put yet.
    fn new(alloc: Global, shared: Shared) -> Result<Ends, AllocError> {
        let (asked, taken_requests) = RingBuffer::new(alloc, PLACES)?;
        let (answered, taken_responses) = RingBuffer::new(alloc, PLACES)?;
        Ok(Ends {
            requests: RequestGiver::new(asked),
            responses: ResponseGiver::new(answered),
            outlet: SpoolOutlet::new(taken_requests, taken_responses),
            shared,
        })
    }
}

/// Makes the two rings, and what the front and the thread have of them.
fn open_ends<'a, R: Clock, D: SpoolDisk + Drop>(
    rt: &'a R,
    alloc: Global,
    disk: D,
    place: SpoolPlace,
    terms: RunTerms,
    ours: Vec<LocalAddress>,
    found: FoundSpool,
) -> Result<OpenedSpool<'a, R, D>, AllocError> {
    let now = time_since_1970(rt).unwrap_or(0);
    match make_ends(alloc, terms.lanes, &found.counted.answers, now) {
        Ok(ends) => Ok(join_ends(rt, alloc, disk, (place, ours), terms, found, ends)),
        Err(error) => Err(error),
    }
}

fn make_ends(
    alloc: Global,
    lanes: usize,
    answers: &[RememberedAnswer],
    now: u64,
) -> Result<Ends, AllocError> {
    let shared = Shared::new(alloc, lanes, answers, now)?;
    Ends::new(alloc, shared)
}

/// Gives the front and the thread what they have of the rings and of what was found.
fn join_ends<'a, R: Clock, D: SpoolDisk + Drop>(
    rt: &'a R,
    alloc: Global,
    disk: D,
    place: (SpoolPlace, Vec<LocalAddress>),
    terms: RunTerms,
    found: FoundSpool,
    ends: Ends,
) -> OpenedSpool<'a, R, D> {
    let RunTerms { run, span, .. } = terms;
    let (place, ours) = place;
    let FoundSpool {
        counted,
        faults,
        segments,
        table,
        greatest,
    } = found;
    let Counted {
        requests,
        answers,
        ..
    } = counted;
    let Ends {
        requests: request_giver,
        responses: response_giver,
        outlet,
        shared,
    } = ends;
    let Shared {
        of_inlet,
        of_responses,
        of_writer,
        state,
        notes_of_inlet,
        notes,
    } = shared;
    let inlet = SpoolInlet {
        clock: rt,
        alloc,
        giver: request_giver,
        run,
        ours,
        arrival: greatest.saturating_add(1),
        time: 0,
        state: of_inlet,
        notes: notes_of_inlet,
    };
    let responses = ResponseInlet {
        clock: rt,
        alloc,
        giver: response_giver,
        run,
        time: 0,
        state: of_responses,
    };
    let next = match segments.last() {
        Some(last) => last.number.saturating_add(1),
        None => 1,
    };
    let writer = SpoolWriter {
        place,
        run,
        span,
        outlet,
        table,
        segments,
        next,
        may_remove: true,
        taken: 0,
        state: of_writer,
    };
    OpenedSpool {
        inlet,
        responses,
        writer,
        disk,
        state,
        notes,
        requests,
        answers,
        faults,
    }
}
