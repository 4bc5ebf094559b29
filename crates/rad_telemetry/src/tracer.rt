//! What is traced: a user, a session or a client, of whose requests each line is logged, whatever the level of the log.

ghost use Rattle.std.specs.Prelude.{◌≡◌, option_copied};
ghost use Rattle.rad_telemetry.specs.Traced.{TakesLine, fits, is_one as the_one};

use crate::lines::LeftOutLine;
use rad_desk::{Origin, Session, Worker, WorkerReport, user_of};
use rad_lane::session_of;
use rad_log::{Level, Log, lock_soon, read_soon, tell};
use rad_packet::read;
use std::alloc::Global;
use std::mem;
use std::sync::atomic::{AtomicBool, AtomicU64, Ordering};
use std::sync::{Mutex, RwLock, Wait};

/// The most lines about what is traced that are logged in a second.
const MOST_LINES: u64 = 200;

const SECOND: u64 = 1_000_000;

/// Something that is traced.
#[derive(Drop)]
pub enum Wanted {
    /// The requests with this User-Name, whose octets are stored as those of a session.
    User(Session),
    /// The requests with this Acct-Session-Id.
    Session(Session),
    /// The datagrams from and to a client's address.
    Client([u8; 4]),
}

/// What a line of the log is about, as far as that is traced.
#[derive(Clone, Copy)]
pub struct Subject<'a> {
    /// The client's address.
    pub client: [u8; 4],
    /// The User-Name and the Acct-Session-Id of the request, if it has them.
    pub user: Option<&'a [u8]>,
    pub session: Option<&'a [u8]>,
}

impl Wanted {
    /// Returns whether this is traced.
    pub fn fits(&self, subject: &Subject<'_>) -> bool
        ensures { result ≡ fits self.now subject.now }
    {
        match self {
            Wanted::User(name) => is_one(subject.user, name.octets()),
            Wanted::Session(session) => is_one(subject.session, session.octets()),
            Wanted::Client(address) => subject.client == *address,
        }
    }
}

fn is_one(found: Option<&[u8]>, text: &[u8]) -> bool
    ensures { result ≡ the_one (option_copied found.entry) text.now }
{
    match found {
        Some(found) => found == text,
        None => false,
    }
}

/// A second, and how many lines about what is traced were logged in it.
#[derive(Clone, Copy)]
pub struct LineSecond {
    /// When it began, in microseconds since the program started.
    pub since: u64,
    pub count: u64,
}

impl LineSecond {
    /// Returns whether one more line is logged at this moment, in microseconds since the program started, and counts it if so.
    /// The first line behind a second begins the next one.
    pub fn takes(&mut self, now: u64) -> bool
        ensures { TakesLine self.old now result self.new }
    {
        if now.saturating_sub(self.since) >= SECOND {
            *self = LineSecond {
                since: now,
                count: 0,
            };
        }
        if self.count >= MOST_LINES {
            return false;
        }
        self.count += 1;
        true
    }
}

/// What is traced, and the log of its lines. As long as nothing is, a worker reads a flag for each of its reports.
#[derive(Drop)]
pub struct Tracer<L> {
    /// A log of each level.
    pub(crate) log: L,
    is_on: AtomicBool,
    wanted: RwLock<Vec<Wanted>>,
    second: Mutex<LineSecond>,
    /// How many lines were left out, and not told yet.
    left_out: AtomicU64,
}

impl<L> Tracer<L> {
    /// Makes a tracer of nothing, which logs to a log that is to accept each level.
    pub fn new(alloc: Global, log: L) -> Tracer<L> {
        Tracer {
            log,
            is_on: AtomicBool::new(false),
            wanted: RwLock::new(Vec::new(alloc)),
            second: Mutex::new(LineSecond { since: 0, count: 0 }),
            left_out: AtomicU64::new(0),
        }
    }

    /// Returns whether anything is traced.
    pub(crate) fn is_on(&self) -> bool {
        self.is_on.load(Ordering::SeqCst)
    }

    /// Traces all of these from now on, and nothing else. `wanted` gets what was traced before.
    pub(crate) fn set<R: Wait>(&self, rt: &R, wanted: &mut Vec<Wanted>) {
        let mut own = self.wanted.write(rt);
        mem::swap(&mut *own, wanted);
        self.is_on.store(!own.is_empty(), Ordering::SeqCst);
    }

    /// Returns the number of the first of those that are traced, from 1 on, that a worker's report is about. While these are
    /// replaced and that takes too long, none is found.
    pub(crate) fn find(&self, worker: Worker, report: &WorkerReport<'_>) -> Option<usize> {
        if !self.is_on() {
            return None;
        }
        let subject = subject_of(worker, report)?;
        place_of(read_soon(&self.wanted)?.as_slice(), &subject)
    }
}

impl<L> Tracer<L> {
    /// Returns whether a line about what is traced is logged at this moment, in microseconds since the program started. If not,
    /// as while others hold the lock for too long, it is counted as left out.
    pub(crate) fn takes_line(&self, now: u64) -> bool {
        if let Some(mut second) = lock_soon(&self.second)
            && second.takes(now)
        {
            return true;
        }
        self.left_out.fetch_add(1, Ordering::SeqCst);
        false
    }
}

impl<L: Log> Tracer<L> {
    /// Logs how many lines were left out since the last call, if any were.
    pub(crate) fn tell_left_out(&self) {
        let count = self.left_out.swap(0, Ordering::SeqCst);
        if count != 0 {
            tell(&self.log, Level::Info, &LeftOutLine(count));
        }
    }
}

fn place_of(wanted: &[Wanted], subject: &Subject<'_>) -> Option<usize> {
    for (place, one) in wanted.iter().enumerate() {
        if one.fits(subject) {
            return Some(place.saturating_add(1));
        }
    }
    None
}

/// Returns what a worker's report is about. Of a reply that a lane's worker receives only the report of what became of it
/// tells that.
fn subject_of<'a>(worker: Worker, report: &WorkerReport<'a>) -> Option<Subject<'a>> {
    match *report {
        WorkerReport::Received { from, octets } if worker == Worker::Front => {
            Some(subject_of_packet(from.address, octets))
        }
        WorkerReport::Dropped { from, octets, .. }
        | WorkerReport::Accepted { from, octets, .. }
        | WorkerReport::Repeated { from, octets, .. }
        | WorkerReport::Refused { from, octets, .. } => {
            Some(subject_of_packet(from.address, octets))
        }
        WorkerReport::Took { client, sent, .. } => Some(subject_of_packet(client, sent)),
        WorkerReport::Sends { to, .. } | WorkerReport::SendFault { to, .. }
            if worker == Worker::Front => Some(subject_of_client(to.address)),
        WorkerReport::Sends {
            origin: Some(origin),
            ..
        }
        | WorkerReport::Answered {
            origin: Some(origin),
            ..
        }
        | WorkerReport::Unheard {
            origin: Some(origin),
            ..
        } => Some(subject_of_origin(origin)),
        _ => None,
    }
}

/// Returns the subject of a datagram of a client, which has a user and a session if it is a packet that has them.
fn subject_of_packet(client: [u8; 4], octets: &[u8]) -> Subject<'_> {
    match read(octets) {
        Ok(packet) => Subject {
            client,
            user: user_of(&packet),
            session: session_of(&packet),
        },
        Err(_) => subject_of_client(client),
    }
}

fn subject_of_client<'a>(client: [u8; 4]) -> Subject<'a> {
    Subject {
        client,
        user: None,
        session: None,
    }
}

fn subject_of_origin(origin: &Origin) -> Subject<'_> {
    Subject {
        client: origin.client.address,
        user: origin.user.as_ref().map(Session::octets),
        session: origin.session.as_ref().map(Session::octets),
    }
}
