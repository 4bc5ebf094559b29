//! The gate to which the workers report everything that they do, and what it counted and logged.

ghost use Rattle.std.specs.Prelude.{◌≡◌};

use crate::counter_file::CounterTexts;
use crate::event_log::EventLog;
use crate::ledger_gate::LedgerGate;
use crate::left_log::LeftLog;
use crate::reporter::Reporter;
use crate::sums::Sums;
use crate::tracer::Tracer;
use crate::workers::worker_name;
use ledger_state::LedgerState;
use rad_desk::{Asked, Call, Gate, Go, Ledger, Worker, WorkerReport};
use rad_log::{Level, Log, logs_at, tell};
use rad_metrics::{Classified, Numbers, worker_row};
use rad_realms::Config;
use spool_writer::OfferNotes;
use std::alloc::{AllocError, Global};
use std::time::Clock;

/// Counts and logs what the workers of a configuration do. As a gate it lets every worker go on, and takes no memory.
/// It waits for a lock no longer than `LineQueue` says.
#[derive(Drop)]
pub struct Telemetry<'a, L, R> {
    pub(crate) numbers: Numbers<'a, R>,
    sums: Sums,
    pub(crate) events: EventLog<'a, L>,
}

impl<'a, L: Log, R: Clock> Telemetry<'a, L, R> {
    /// Makes a gate that has counted nothing yet, and that writes its lines to `log`, and those of what is traced to that
    /// of `tracer`. The program counts as started now.
    ///
    /// # Errors
    ///
    /// `AllocError` if memory is refused.
    pub fn new(
        alloc: Global,
        rt: &'a R,
        config: &'a Config,
        log: &'a L,
        tracer: &'a Tracer<L>,
    ) -> Result<Telemetry<'a, L, R>, AllocError> {
        let sums = Sums::new(alloc, config.homes().len())?;
        let numbers = Numbers::new(alloc, rt, config)?;
        Ok(Telemetry {
            numbers,
            sums,
            events: EventLog::new(log, config, tracer),
        })
    }

    /// Returns what is counted.
    pub fn numbers(&self) -> &Numbers<'a, R> {
        &self.numbers
    }

    /// Logs that a worker ended by itself.
    pub fn tell_end(&self, worker: Worker) {
        let name = worker_name(self.events.config, worker_row(worker));
        let line = format_args!("event=stopped worker={name} reason=\"ended by itself\"");
        tell(self.events.log, Level::Error, &line);
    }

    /// Makes a ledger that logs what is left at the end, and hands everything on to this one.
    pub fn left_log<K: Ledger + Drop>(&self, rt: &'a R, ledger: K) -> LeftLog<'a, L, R, K>
        ensures { (result.ledger ≡ ledger) × (result.count ≡ 0) }
    {
        LeftLog {
            rt,
            events: self.events.copy(),
            ledger,
            count: 0,
        }
    }

    /// Makes a gate that also tells this ledger how requests are handled, and these notes which lanes have room, where there
    /// are any.
    pub fn gate_of(
        &'a self,
        rt: &'a R,
        ledger: Option<&'a LedgerState>,
        notes: Option<&'a OfferNotes>,
    ) -> LedgerGate<'a, L, R>
        ensures ledger { result.ledger ≡ ledger.entry }
        ensures notes { result.notes ≡ notes.entry }
    {
        LedgerGate {
            rt,
            telemetry: self,
            ledger,
            notes,
        }
    }

    /// Makes a reporter of what is counted. It leaves the texts of the metrics to `texts`, if there is one.
    pub fn reporter<'b>(&'b self, texts: Option<&'b CounterTexts>) -> Reporter<'b, L, R> {
        Reporter {
            config: self.events.config,
            numbers: &self.numbers,
            sums: &self.sums,
            log: self.events.log,
            tracer: self.events.tracer,
            trace: None,
            texts,
            ledger: None,
            spool: None,
        }
    }
}

impl<L: Log, R: Clock> Gate for Telemetry<'_, L, R> {
    fn before(&self, _worker: Worker, _call: Call) -> Go {
        Go::On
    }

    fn after(&self, _worker: Worker, _call: Call) {}

    fn asks(&self, lane: u16) -> Asked {
        Asked {
            standing: self.numbers.asks(lane),
            origins: self.events.tracer.is_on() || logs_at(self.events.log, Level::Trace),
        }
    }

    fn report(&self, worker: Worker, report: &WorkerReport<'_>) {
        if self.numbers.take(worker, report) {
            return;
        }
        let its = Classified::of(worker, report);
        self.sums.keep(&its);
        self.numbers.report(&its);
        self.events.report(&its, &self.numbers);
    }
}
