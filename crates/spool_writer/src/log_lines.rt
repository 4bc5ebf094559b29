//! The log lines of a spool.

use crate::fault::SpoolFault;
use crate::offers::Unfit;
use crate::wall_clock::ClockJump;
use rad_log::{Level, Log, tell};
use spool_files::Fault;
use std::fmt;

/// Logs that there is no spool, or that it is not written, and why.
pub fn log_spool_fault<L: Log>(log: &L, fault: SpoolFault) {
    tell(log, Level::Error, &SpoolLine::Fault(fault));
}

/// How many requests that no longer pass the checks are logged by themselves.
const MOST: usize = 20;

/// Logs what is wrong with the segments of a spool.
pub fn log_damage<L: Log>(log: &L, faults: &[Fault]) {
    for fault in faults {
        tell(log, Level::Error, &SpoolLine::Damage(*fault));
    }
}

/// Logs the requests that no longer pass the checks, the first of them by themselves, and how many they are.
pub fn log_unfit<L: Log>(log: &L, unfit: &[Unfit]) {
    for request in unfit.iter().take(MOST) {
        tell(log, Level::Error, &SpoolLine::Unfit(*request));
    }
    if !unfit.is_empty() {
        tell(log, Level::Error, &SpoolLine::Dropped(unfit.len()));
    }
}

/// A log line of a spool.
#[derive(Clone, Copy)]
pub enum SpoolLine {
    /// Entries can't be written.
    Fault(SpoolFault),
    /// Entries are written again.
    Back,
    /// This many requests and responses found no room.
    Lost(u64),
    /// This many entries are not on disk at the end.
    Left(u64),
    /// This is wrong with a segment.
    Damage(Fault),
    /// This request no longer passes the checks.
    Unfit(Unfit),
    /// So many requests no longer pass the checks.
    Dropped(usize),
    /// The wall clock jumped.
    Clock(ClockJump),
}

impl fmt::Display for SpoolLine {
    ghost use Rattle.spool_writer.specs.LogLines.{spool_line};

    ghost output = { λ line. spool_line line };

    fn fmt<W: fmt::Write>(&self, f: &mut fmt::Formatter<W>) -> fmt::Result {
        match *self {
            SpoolLine::Fault(fault) => write!(f, "event=spool-fault reason=\"{fault}\""),
            SpoolLine::Back => f.write_str("event=spool-back"),
            SpoolLine::Lost(count) => write!(f, "event=spool-lost count={count}"),
            SpoolLine::Left(count) => write!(f, "event=spool-left count={count}"),
            SpoolLine::Damage(fault) => write!(
                f,
                "event=spool-damage segment={} offset={} reason=\"{}\"",
                fault.segment,
                fault.offset,
                fault.kind.name()
            ),
            SpoolLine::Unfit(request) => {
                let [a, b, c, d] = request.came.key.client;
                write!(
                    f,
                    "event=spool-dropped client={a}.{b}.{c}.{d} port={} identifier={} arrival={} reason={}",
                    request.came.key.port,
                    request.came.key.identifier,
                    request.came.arrival,
                    request.reason_name()
                )
            }
            SpoolLine::Dropped(count) => write!(f, "event=spool-dropped count={count}"),
            SpoolLine::Clock(jump) => write!(f, "event=spool-clock jump={jump}"),
        }
    }
}

/// The log line of the requests of a home server that wait in a spool.
#[derive(Clone, Copy)]
pub struct WaitingLine<'a> {
    /// The home server's name.
    pub home: &'a str,
    pub count: u64,
    /// How many seconds ago the oldest came in.
    pub seconds: u64,
}

impl fmt::Display for WaitingLine<'_> {
    ghost use Rattle.std.specs.Prelude.{Some};
    ghost use Rattle.spool_writer.specs.LogLines.{waiting_line};

    ghost output = { λ line. Some (waiting_line line) };

    fn fmt<W: fmt::Write>(&self, f: &mut fmt::Formatter<W>) -> fmt::Result {
        let WaitingLine {
            home,
            count,
            seconds,
        } = *self;
        write!(
            f,
            "event=spool-waiting home={home} count={count} oldest={seconds}"
        )
    }
}
