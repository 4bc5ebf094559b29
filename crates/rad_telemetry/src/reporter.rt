//! The reports of a separate thread, once a second: what was counted since the last one as log lines, and all
//! counters for a file.

use crate::counter_file::CounterTexts;
use crate::sums::Sums;
use crate::trace_file::{TraceLook, TraceText};
use crate::tracer::Tracer;
use ledger_state::LedgerState;
use rad_log::{Log, wait_until_set};
use rad_metrics::{Draft, Numbers, SpoolNumbers, SystemFiles};
use rad_realms::Config;
use spool_writer::{ClockWatch, SpoolState};
use std::alloc::Global;
use std::io;
use std::sync::atomic::{AtomicU64, Ordering};
use std::sync::{Wait, WaitMethods};
use std::time::{Clock, Duration, Instant};

/// The time from one report to the next, in milliseconds.
const PERIOD: u64 = 1000;

/// How long before a report the workers are asked for the standings of their lanes, in milliseconds. The reporter
/// waits this long for them at most. Each worker checks at least every 20 milliseconds whether it is asked.
const ASKED: u64 = 40;

/// Whether a reporter is to stop. The reporter shares the flag with other threads.
#[derive(Drop)]
pub struct StopFlag {
    is_set: AtomicU64,
}

impl StopFlag {
    pub fn new() -> StopFlag {
        StopFlag {
            is_set: AtomicU64::new(0),
        }
    }

    /// Makes the reporter report once more and stop.
    pub fn set(&self) {
        self.is_set.store(1, Ordering::SeqCst);
        self.is_set.wake_all();
    }

    pub(crate) fn is_set(&self) -> bool {
        self.is_set.load(Ordering::SeqCst) != 0
    }

    /// Waits for `milliseconds`, or until the flag is set.
    pub(crate) fn wait<R: Clock + Wait>(&self, rt: &R, milliseconds: u64) {
        let start = Instant::now(rt).ok();
        wait_until_set(rt, &self.is_set, start, Duration::from_millis(milliseconds));
    }
}

/// What is reported, and where it goes.
#[derive(Drop)]
pub struct Reporter<'a, L, R> {
    pub(crate) config: &'a Config,
    pub(crate) numbers: &'a Numbers<'a, R>,
    pub(crate) sums: &'a Sums,
    pub(crate) log: &'a L,
    pub(crate) tracer: &'a Tracer<L>,
    /// The file that names what is traced, if there may be one.
    pub(crate) trace: Option<&'a str>,
    /// What takes the texts of the counters, if they go to a file.
    pub(crate) texts: Option<&'a CounterTexts>,
    /// The ledger, if there is one.
    pub(crate) ledger: Option<&'a LedgerState>,
    /// The spool, if there is one.
    pub(crate) spool: Option<&'a SpoolState>,
}

impl<'a, L, R> Reporter<'a, L, R> {
    /// Makes a reporter that reports on this ledger too, if there is one.
    pub fn with_ledger(self, ledger: Option<&'a LedgerState>) -> Reporter<'a, L, R> {
        Reporter { ledger, ..self }
    }

    /// Makes a reporter that reports on this spool too, if there is one.
    pub fn with_spool(self, spool: Option<&'a SpoolState>) -> Reporter<'a, L, R> {
        Reporter { spool, ..self }
    }

    /// Makes a reporter that also looks at this file for what is to be traced, if there is one.
    pub fn with_trace(self, trace: Option<&'a str>) -> Reporter<'a, L, R> {
        Reporter { trace, ..self }
    }
}

/// Reports once a second until the flag is set, and then once more. A text of all numbers is made anew each time, in
/// the memory of an earlier one. The workers are asked for the standings of their lanes right before, except for the
/// last text. It looks at least once a second at the file that names what is traced.
pub fn report<R, U, L>(
    rt: &R,
    system: &U,
    alloc: Global,
    reporter: Reporter<'_, L, R>,
    stop: &StopFlag,
)
where
    R: Clock + Wait,
    U: SystemFiles + TraceText,
    L: Log,
{
    let mut draft = Draft::new(alloc);
    let mut look = TraceLook::new(alloc);
    let mut watch = ClockWatch::new(reporter.config);
    for _ in rt.forever() {
        if report_once(rt, system, &reporter, stop, &mut draft, &mut look) {
            return;
        }
        reporter.watch_clock(rt, &mut watch);
        stop.wait(rt, PERIOD - ASKED);
    }
}

/// Reports once, and returns whether that was the last time, since the flag was set before.
fn report_once<R, U, L>(
    rt: &R,
    system: &U,
    reporter: &Reporter<'_, L, R>,
    stop: &StopFlag,
    draft: &mut Draft,
    look: &mut TraceLook,
) -> bool
where
    R: Clock + Wait,
    U: SystemFiles + TraceText,
    L: Log,
{
    let is_last = stop.is_set();
    reporter.look(rt, system, look);
    if !is_last {
        reporter.ask();
        stop.wait(rt, ASKED);
        reporter.look(rt, system, look);
    }
    reporter.log_sums();
    if !is_last {
        reporter.pass_second(rt);
    }
    reporter.leave_text(rt, system, draft);
    is_last
}

impl<L: Log, R> Reporter<'_, L, R> {
    fn ask(&self) {
        if self.texts.is_some() {
            self.numbers.ask_each();
        }
    }

    fn look<W: Wait, S: TraceText>(&self, rt: &W, source: &S, look: &mut TraceLook) {
        if let Some(path) = self.trace {
            look.look(rt, source, path, self.tracer, self.log);
        }
    }

    /// Logs a jump of the wall clock, by which the spool remembers answers, if there is a spool.
    fn watch_clock<C: Clock>(&self, clock: &C, watch: &mut ClockWatch) {
        if self.spool.is_some() {
            watch.look(clock, self.log);
        }
    }

    fn log_sums(&self) {
        let counts = self.numbers.counts();
        self.sums.log(self.log, self.config, counts);
        if let Some(ledger) = self.ledger {
            ledger.tell(self.log);
        }
        if let Some(spool) = self.spool {
            spool.tell(self.log);
        }
    }
}

impl<L: Log, R: Clock> Reporter<'_, L, R> {
    fn pass_second<S: Wait>(&self, rt: &S) {
        if let Some(texts) = self.texts {
            texts.pass_second(rt);
        }
    }

    /// Leaves a text of all numbers to the thread that writes it to their file, if there is one. It also logs, once,
    /// why an earlier text was not written, or is late.
    fn leave_text<S: Wait, U: SystemFiles>(&self, rt: &S, system: &U, draft: &mut Draft) {
        let Some(texts) = self.texts else {
            return;
        };
        texts.tell_faults(rt, self.log);
        if draft.read(rt, system, self.numbers).is_ok() && self.write(draft).is_ok() {
            texts.leave(rt, draft.text());
        }
    }

    fn write(&self, draft: &mut Draft) -> io::Result<()> {
        let ledger = match self.ledger {
            Some(ledger) => Some(ledger.reading(self.numbers.now())),
            None => None,
        };
        let spool = match self.spool {
            Some(spool) => Some(numbers_of(spool, self.numbers.now())),
            None => None,
        };
        draft.write(self.config, self.numbers, ledger, spool)
    }
}

/// Returns the numbers of a spool, at this moment in milliseconds since 1970.
fn numbers_of(spool: &SpoolState, now: u64) -> SpoolNumbers {
    let reading = spool.reading(now);
    SpoolNumbers {
        open: reading.open,
        unsynced: reading.unsynced,
        behind: reading.behind,
        age: reading.age,
        octets: reading.octets,
        lost: reading.lost,
        written: reading.written,
        faults: reading.faults,
        is_failing: reading.is_failing,
        dropped: reading.dropped,
        held: reading.held,
    }
}
