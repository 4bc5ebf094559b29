//! The log lines of what the workers report. Each line has an event and its keys, as in `event=down home=h1`.

use crate::lines::{ClientText, CutLine, PeerText, UpLine};
use crate::packet_words::{DatagramWords, KeyWord, WordsOf};
use crate::tracer::Tracer;
use crate::workers::worker_name;
use rad_desk::{Origin, Session, Spent, WorkerReport};
use rad_lane::session_of;
use rad_log::{Level, Log, logs_at, tell};
use rad_metrics::{Classified, Numbers, Reason};
use rad_packet::read;
use rad_realms::{Config, Endpoint};
use std::fmt::{self, Display};

/// Logs at once what the workers of a configuration report: rare events at `error`, `warn` or `info`; each drop, refusal,
/// fault and cut at `debug`; each datagram, accepted or repeated request, answer and returned response at `trace`. What is
/// about something that is traced is logged whatever the level: at most 200 lines a second, besides those of the log's level.
#[derive(Drop)]
pub struct EventLog<'a, L> {
    pub(crate) log: &'a L,
    pub(crate) config: &'a Config,
    pub(crate) tracer: &'a Tracer<L>,
    /// What is traced that the lines are about, if anything.
    trace: Option<TracedNow>,
}

/// The number of something that is traced, and the moment, in microseconds since the program started.
#[derive(Clone, Copy)]
struct TracedNow {
    place: usize,
    now: u64,
}

/// The number and the session of a request, each with a space before it, as far as they are known.
#[derive(Clone, Copy)]
enum RequestWords<'a> {
    /// Those of a request of this origin.
    Of(Option<&'a Origin>),
    /// This number, and the session of what was sent to the home server. That is read only where the line is written.
    Sent(u64, &'a [u8]),
}

impl<'a, L> EventLog<'a, L> {
    /// Makes a log of lines about nothing that is traced.
    pub(crate) fn new(log: &'a L, config: &'a Config, tracer: &'a Tracer<L>) -> EventLog<'a, L> {
        EventLog {
            log,
            config,
            tracer,
            trace: None,
        }
    }

    /// Returns a copy.
    pub(crate) fn copy(&self) -> EventLog<'a, L> {
        EventLog { ..*self }
    }

    /// Returns the log of lines about what is traced under a number, at this moment in microseconds since the program started.
    fn traced(&self, place: usize, now: u64) -> EventLog<'a, L> {
        EventLog {
            trace: Some(TracedNow { place, now }),
            ..*self
        }
    }
}

impl<L: Log> EventLog<'_, L> {
    /// Logs a line. One about something that is traced ends with its number, and is logged whatever the level, unless too many
    /// such lines were.
    fn tell<D: Display>(&self, level: Level, line: &D) {
        match self.trace {
            None => tell(self.log, level, line),
            Some(TracedNow { place, now }) => {
                if logs_at(self.log, level) || self.tracer.takes_line(now) {
                    let line = format_args!("{line} trace={place}");
                    tell(&self.tracer.log, level, &line);
                }
            }
        }
    }

    /// Logs what a worker reports, if it is logged at once. Nothing of a line that is not logged is looked up.
    pub(crate) fn report<R>(&self, its: &Classified<'_>, numbers: &Numbers<'_, R>) {
        let Some(level) = level_of(its.report) else {
            return;
        };
        match self.tracer.find(its.worker, its.report) {
            Some(place) => {
                let now = numbers.turn_of(its.worker);
                self.traced(place, now).report_at(level, its);
            }
            None if logs_at(self.log, level) => self.report_at(level, its),
            None => {}
        }
    }

    fn report_at(&self, level: Level, its: &Classified<'_>) {
        let name = worker_name(self.config, its.row);
        match *its.report {
            WorkerReport::Received { from, octets } => {
                self.passed(level, "came", name, from, octets);
            }
            WorkerReport::Sends { to, octets, .. } => self.passed(level, "went", name, to, octets),
            WorkerReport::Accepted { number, octets, .. } => {
                let words = WordsOf(octets);
                let line = format_args!("event=accepted home={name} number={number}{words}");
                self.tell(level, &line);
            }
            WorkerReport::Repeated {
                repeat,
                from,
                octets,
            } => {
                let client = ClientText(from);
                let words = WordsOf(octets);
                let repeat = Reason::Repeat(repeat).name();
                let line = format_args!("event=repeated {client}{words} repeat={repeat}");
                self.tell(level, &line);
            }
            WorkerReport::Answered { serial, origin, .. } => {
                self.serial(level, "answered", name, serial, RequestWords::Of(origin));
            }
            WorkerReport::Took {
                serial,
                number,
                sent,
                ..
            } => {
                let words = RequestWords::Sent(number, sent);
                self.serial(level, "returned", name, serial, words);
            }
            WorkerReport::WentDown(Some(spent)) => self.went_down(level, name, spent),
            WorkerReport::WentUp(reason) => self.tell(level, &UpLine { home: name, reason }),
            _ => self.failed(level, name, its.report),
        }
    }

    fn went_down(&self, level: Level, home: &str, spent: &Spent) {
        let number = spent.number;
        let client = ClientText(spent.client);
        let session = KeyWord("session", spent.session.as_ref().map(Session::octets));
        let age = spent.age;
        let line = format_args!(
            "event=down home={home} number={number} {client}{session} age={age}"
        );
        self.tell(level, &line);
    }

    fn failed(&self, level: Level, name: &str, report: &WorkerReport<'_>) {
        match *report {
            WorkerReport::Dropped {
                reason,
                from,
                octets,
            } => {
                self.client(level, "dropped", from, octets, &reason);
            }
            WorkerReport::Refused {
                reason,
                from,
                octets,
            } => {
                self.client(level, "refused", from, octets, &reason);
            }
            WorkerReport::NotHome { from, octets } => {
                let from = PeerText(from);
                let words = WordsOf(octets);
                let line = format_args!(
                    "event=unheard home={name} {from}{words} reason=\"NotHome\""
                );
                self.tell(level, &line);
            }
            WorkerReport::Unheard { fault, octets, .. } => {
                let words = WordsOf(octets);
                let line = format_args!("event=unheard home={name}{words} reason=\"{fault}\"");
                self.tell(level, &line);
            }
            WorkerReport::ReceiveFault => {
                self.tell(level, &format_args!("event=receive-fault worker={name}"));
            }
            WorkerReport::SendFault { to, .. } => {
                let to = PeerText(to);
                self.tell(level, &format_args!("event=send-fault worker={name} {to}"));
            }
            WorkerReport::Cut(count) => self.tell(level, &CutLine { home: name, count }),
            _ => {}
        }
    }

    fn passed(&self, level: Level, event: &str, name: &str, peer: Endpoint, octets: &[u8]) {
        let peer = PeerText(peer);
        let words = DatagramWords(octets);
        let line = format_args!("event={event} worker={name} {peer} {words}");
        self.tell(level, &line);
    }

    /// Logs that a request was answered, or its response sent, under this serial.
    fn serial(&self, level: Level, event: &str, home: &str, serial: u64, words: RequestWords<'_>) {
        let line = format_args!("event={event} home={home} serial={serial}{words}");
        self.tell(level, &line);
    }

    /// Logs why a client's datagram was dropped, or its request refused.
    fn client<D: Display>(
        &self,
        level: Level,
        event: &str,
        from: Endpoint,
        octets: &[u8],
        reason: &D,
    ) {
        let client = ClientText(from);
        let words = WordsOf(octets);
        let line = format_args!("event={event} {client}{words} reason=\"{reason}\"");
        self.tell(level, &line);
    }
}

/// Returns the level at which a report is logged at once, if it is.
fn level_of(report: &WorkerReport<'_>) -> Option<Level> {
    match report {
        WorkerReport::Received { .. }
        | WorkerReport::Sends { .. }
        | WorkerReport::Accepted { .. }
        | WorkerReport::Repeated { .. }
        | WorkerReport::Answered { .. }
        | WorkerReport::Took { .. } => Some(Level::Trace),
        WorkerReport::Dropped { .. }
        | WorkerReport::Refused { .. }
        | WorkerReport::NotHome { .. }
        | WorkerReport::Unheard { .. }
        | WorkerReport::ReceiveFault
        | WorkerReport::SendFault { .. }
        | WorkerReport::Cut(_) => Some(Level::Debug),
        WorkerReport::WentUp(_) => Some(Level::Info),
        WorkerReport::WentDown(Some(_)) => Some(Level::Warn),
        _ => None,
    }
}

impl Display for RequestWords<'_> {
    fn fmt<W: fmt::Write>(&self, f: &mut fmt::Formatter<W>) -> fmt::Result {
        match *self {
            RequestWords::Of(None) => Ok(()),
            RequestWords::Of(Some(origin)) => {
                let session = origin.session.as_ref().map(Session::octets);
                write_request(f, origin.number, session)
            }
            RequestWords::Sent(number, sent) => write_request(f, number, session_in(sent)),
        }
    }
}

fn write_request<W: fmt::Write>(
    f: &mut fmt::Formatter<W>,
    number: u64,
    session: Option<&[u8]>,
) -> fmt::Result {
    let session = KeyWord("session", session);
    write!(f, " number={number}{session}")
}

/// Returns the session of a datagram, if it is a packet that has one.
fn session_in(octets: &[u8]) -> Option<&[u8]> {
    match read(octets) {
        Ok(packet) => session_of(&packet),
        Err(_) => None,
    }
}
