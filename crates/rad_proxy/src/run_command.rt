//! The command `run`: it serves a configuration over UDP, and reports the counters.

ghost use denote.Param.Send.{IsSend, IsSync};

use crate::faults::Fault;
use crate::loading::load;
use crate::machine::{Host, Machine};
use crate::small_stack::SmallStack;
use ledger_state::LedgerState;
use ledger_writer::{LedgerInlet, OpenedLedger, draw_name, find_folder, open_ledger, start_writer};
use libc::{STDIN_FILENO, STDOUT_FILENO};
use rad_console::EndLine;
use rad_desk::{NoneWaits, NothingRemembered, Outcomes};
use rad_log::{ErrorLines, Log, Logged, ToldStream, open_each_level, open_log, tell_reason};
use rad_realms::{Config, Endpoint};
use rad_server::{
    Descriptors, Keepers, OwnedEntrance, OwnedLedger, OwnedMemory, OwnedWaiting, ServeFault,
    Streams, run_with,
};
use rad_telemetry::{
    CounterTexts, StopFlag, Telemetry, Tracer, find_counter_file, find_trace_file, report,
    start_texts,
};
use spool_files::LocalAddress;
use spool_writer::{
    EarlierAnswers, OfferNotes, Offers, OpenedSpool, SpoolLedger, SpoolState, find_spool,
    log_damage, log_spool_fault, log_unfit, open_spool, start_spool_writer,
};
use std::alloc::{AllocError, Global};
use std::io::{self, Error};
use std::net::Net;
use std::sync::{Arc, Wait};
use std::thread;
use std::time::{Clock, Duration, Instant};

/// How long the program waits at its end for the last text of the counters, in milliseconds.
const LAST_TEXT: u64 = 500;

/// How long it waits for that text and for the log together, in milliseconds.
const LAST_LINES: u64 = 1000;

/// How long the program waits at its end for the ledger, from the moment at which the first request that is left is handed
/// over, if there is one, in milliseconds.
const LAST_ENTRIES: u64 = 10_000;

/// The reason for which a thread can't be started. The system gives one error number for both causes.
const NO_THREAD: &str = "the system has no thread more, or no memory for one";

/// The reason for which the input can't be waited for, if the system gives no error number.
const NO_WAIT: &str = "the system can't wait for it";

/// Serves the configuration in a file until standard input ends. Threads of their own write the log, the file of the
/// counters and the ledger.
///
/// # Errors
///
/// Those of [`load`] and of [`run_with`]; `Threads` if a thread that reports or writes can't be started, or if the system
/// allows too small a stack.
pub fn serve_file<H: Host + Net, M: Machine>(
    rt: &H,
    machine: &M,
    alloc: Global,
    path: &str,
) -> Result<EndLine, Fault> {
    let log = open_log(rt, alloc)?;
    let config = load(rt, alloc, &log, path)?;
    check_stack(&log)?;
    let file = find_counter_file(rt, &log)?;
    let Ok(texts) = Arc::new(alloc, CounterTexts::new(alloc)) else {
        return Err(Fault::Memory);
    };
    let trace = find_trace_file(rt, &log)?;
    let tracer = Tracer::new(alloc, open_each_level(&log)?);
    let telemetry = Telemetry::new(alloc, rt, &config, &log, &tracer)?;
    let service = Service {
        rt,
        machine,
        alloc,
        log: &log,
        config: &config,
        telemetry: &telemetry,
        texts: &texts,
        is_reported: file.is_some(),
        trace: trace.as_deref(),
    };
    service.start_writers(file)?;
    let outcome = service.serve_run(draw_name(rt));
    service.end_writers();
    outcome
}

/// Fails if the system allows too small a stack, and logs that.
fn check_stack<L: Log>(log: &L) -> Result<(), Fault> {
    match SmallStack::find() {
        Some(stack) => {
            tell_reason(log, "thread-fault", &stack);
            Err(Fault::Threads)
        }
        None => Ok(()),
    }
}

/// What is reported on beside the workers.
#[derive(Clone, Copy)]
struct Told<'a> {
    ledger: Option<&'a LedgerState>,
    spool: Option<&'a SpoolState>,
    notes: Option<&'a OfferNotes>,
}

/// A configuration that is served, and what it is served with.
struct Service<'a, H, M> {
    rt: &'a H,
    machine: &'a M,
    alloc: Global,
    log: &'a Logged<(), ErrorLines>,
    config: &'a Config,
    telemetry: &'a Telemetry<'a, Logged<(), ErrorLines>, H>,
    texts: &'a Arc<CounterTexts>,
    /// Whether the texts of the counters go to a file.
    is_reported: bool,
    /// The file that names what is traced, if there may be one.
    trace: Option<&'a str>,
}

impl<H, M> Clone for Service<'_, H, M> {
    fn clone(&self) -> Result<Self, AllocError> {
        Ok(*self)
    }
}

impl<H, M> Copy for Service<'_, H, M> {}

impl<'a, H: Host + Net, M: Machine> Service<'a, H, M> {
    /// Starts the threads that write the log and the file of the counters, if there is one.
    fn start_writers(self, file: Option<String>) -> Result<(), Fault> {
        if let Some(file) = file
            && !start_texts(self.rt, self.alloc, self.texts, file, self.machine.files())
        {
            return Err(self.tell(ServeFault::Threads));
        }
        if !self.log.sink().start(self.rt) {
            return Err(self.tell(ServeFault::Threads));
        }
        Ok(())
    }

    /// Lets these threads write what is left, for at most a second; a thread that writes for longer ends with the
    /// program.
    fn end_writers(self) {
        let start = Instant::now(self.rt).ok();
        self.texts.end();
        self.texts
            .wait(self.rt, start, Duration::from_millis(LAST_TEXT));
        self.texts.tell_faults(self.rt, self.log);
        self.log
            .sink()
            .end(self.rt, start, Duration::from_millis(LAST_LINES));
    }

    /// Opens the spool and the ledger, if there are to be any, for a run of this name, and serves.
    fn serve_run(self, run: u64) -> Result<EndLine, Fault> {
        let spool = self.open_spool(run)?;
        match self.start_ledger(run)? {
            Some((inlet, state)) => {
                let outcome = self.serve_spool(spool, Some(inlet), Some(&*state));
                state.tell_left(self.log);
                outcome
            }
            None => self.serve_spool(spool, None, None),
        }
    }

    /// Opens the spool, if there is to be one and it can be read.
    fn open_spool(self, run: u64) -> Result<Option<OpenedSpool<'a, H, M::Spool>>, Fault> {
        let Some(place) = find_spool(self.rt, self.log)? else {
            return Ok(None);
        };
        let mut ours = Vec::with_capacity(self.alloc, 1)?;
        let Endpoint { address, port } = self.config.listen();
        if ours.push(LocalAddress { address, port }).is_err() {
            return Err(Fault::Memory);
        }
        let disk = self.machine.spool();
        match open_spool(self.rt, self.alloc, disk, place, self.config, run, ours) {
            Ok(spool) => Ok(Some(spool)),
            Err(fault) => {
                log_spool_fault(self.log, fault);
                if fault.is_refusal() {
                    Err(Fault::Spool)
                } else {
                    Ok(None)
                }
            }
        }
    }

    /// Serves, over the spool if there is one: a thread of its own writes it, and what earlier runs left comes in again.
    fn serve_spool(
        self,
        spool: Option<OpenedSpool<'a, H, M::Spool>>,
        inlet: Option<LedgerInlet<'a, H>>,
        ledger: Option<&'a LedgerState>,
    ) -> Result<EndLine, Fault> {
        let left_log = self.telemetry.left_log(self.rt, inlet);
        let Some(spool) = spool else {
            let keepers = Keepers {
                ledger: left_log,
                entrance: Outcomes::new(),
                waiting: NoneWaits,
                memory: NothingRemembered,
            };
            return self.serve(
                keepers,
                Told {
                    ledger,
                    spool: None,
                    notes: None,
                },
            );
        };
        let OpenedSpool {
            inlet,
            responses,
            writer,
            state,
            notes,
            requests,
            answers,
            disk,
            faults,
        } = spool;
        log_damage(self.log, &faults);
        let own = Arc::try_clone(&notes)?;
        let (waiting, unfit) = Offers::new(self.rt, self.alloc, self.config, requests, own)?;
        log_unfit(self.log, &unfit);
        state.set_dropped(unfit.len());
        if !start_spool_writer(self.rt, self.alloc, writer, disk) {
            return Err(self.tell(ServeFault::Threads));
        }
        let keepers = Keepers {
            ledger: SpoolLedger::new(responses, left_log),
            entrance: inlet,
            waiting,
            memory: EarlierAnswers::new(self.rt, self.alloc, self.config, answers)?,
        };
        let told = Told {
            ledger,
            spool: Some(&*state),
            notes: Some(&*notes),
        };
        let outcome = self.serve(keepers, told);
        state.end(self.rt, Duration::from_millis(LAST_ENTRIES));
        state.tell_left(self.log);
        outcome
    }

    /// Opens the ledger of a run, if there is to be one, and starts the thread that writes it.
    fn start_ledger(
        self,
        run: u64,
    ) -> Result<Option<(LedgerInlet<'a, H>, Arc<LedgerState>)>, Fault> {
        let Some(folder) = find_folder(self.rt, self.log)? else {
            return Ok(None);
        };
        let OpenedLedger {
            inlet,
            writer,
            state,
        } = open_ledger(
            self.rt,
            self.alloc,
            folder,
            self.config,
            run,
            Duration::from_millis(LAST_ENTRIES),
        )?;
        if !start_writer(self.rt, self.alloc, writer, self.machine.disk()) {
            return Err(self.tell(ServeFault::Threads));
        }
        Ok(Some((inlet, state)))
    }

    /// Serves over the standard streams, while a thread of its own reports the counters. Logs the fault that ends it.
    fn serve<L: OwnedLedger, E: OwnedEntrance, S: OwnedWaiting, N: OwnedMemory>(
        self,
        keepers: Keepers<L, E, S, N>,
        told: Told<'_>,
    ) -> Result<EndLine, Fault> {
        let Service {
            rt,
            machine,
            alloc,
            log,
            config,
            telemetry,
            trace,
            ..
        } = self;
        let texts = if self.is_reported {
            Some(&**self.texts)
        } else {
            None
        };
        let reporter = telemetry
            .reporter(texts)
            .with_ledger(told.ledger)
            .with_spool(told.spool)
            .with_trace(trace);
        let stop = StopFlag::new();
        let stop = &stop;
        let served = thread::scope(
            thread::scope_env(),
            rt,
            move |scope| -> Result<EndLine, ServeFault>
                requires { IsSync H.row × IsSync M.row × IsSend L.row × IsSend E.row × IsSend S.row × IsSend N.row }
            {
                let reports = scope.spawn(move || report(rt, machine, alloc, reporter, stop));
                if reports.is_err() {
                    return Err(ServeFault::Threads);
                }
                let gate = telemetry.gate_of(rt, told.ledger, told.notes);
                let end = run_with(
                    rt,
                    machine,
                    alloc,
                    config,
                    &gate,
                    keepers,
                    Streams {
                        reader: ToldStream::new(rt.reader(), "input-fault", log),
                        writer: ToldStream::new(io::writer(rt), "output-fault", log),
                        descriptors: Descriptors {
                            input: Some(STDIN_FILENO),
                            output: Some(STDOUT_FILENO),
                        },
                    },
                );
                if let Err(ServeFault::Ended(worker)) = end {
                    telemetry.tell_end(worker);
                }
                end_ledger(rt, told.ledger, end.is_ok());
                stop.set();
                end
            },
        );
        match served {
            Ok(end) => Ok(end),
            Err(fault) => Err(self.tell(fault)),
        }
    }

    /// Returns the fault of the program for a fault of the service. Logs why a thread can't be started, or why the input
    /// can't be waited for; the other reasons were logged when they occurred, and a fault of the clock has none.
    fn tell(self, fault: ServeFault) -> Fault {
        match fault {
            ServeFault::Threads => tell_reason(self.log, "thread-fault", &NO_THREAD),
            ServeFault::InputWait(Some(number)) => {
                tell_reason(self.log, "input-fault", &Error::from_raw_os_error(number));
            }
            ServeFault::InputWait(None) => tell_reason(self.log, "input-fault", &NO_WAIT),
            _ => {}
        }
        Fault::from(fault)
    }
}

/// Lets the thread that writes the ledger, if there is one, write what waits, for at most ten seconds. If the end is clean,
/// it writes the line that ends the run too.
fn end_ledger<R: Clock + Wait>(rt: &R, ledger: Option<&LedgerState>, is_clean: bool) {
    if let Some(ledger) = ledger {
        ledger.end(rt, is_clean, Duration::from_millis(LAST_ENTRIES));
    }
}
