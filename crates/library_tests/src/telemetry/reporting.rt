//! A test of what no run of the program shows of reports: of a worker that ends by itself, of a lane that is not there, of a full ring
//! over an empty datagram, and of a datagram that is no packet and is sent; and of when a lane is asked for its standing.

use crate::comparing::holds;
use crate::configured::with_two_homes;
use crate::telemetry::logs::{MemoryLog, has_logged, log_up_to};
use rad_desk::{DeskFault, Gate, Standing, Worker, WorkerReport};
use rad_lane::Counts;
use rad_log::LevelFilter;
use rad_metrics::{Counted, CountedEvent, Reason};
use rad_realms::{Config, Endpoint};
use rad_tables::Moment;
use rad_telemetry::{Telemetry, Tracer};
use std::alloc::{AllocError, Global};
use std::test::Fail;
use std::time::Clock;

/// The endpoint of the second home server.
const HOME: Endpoint = Endpoint {
    address: [127, 0, 0, 1],
    port: 2814,
};

/// The standing of a lane that has accepted nothing.
const EMPTY: Standing = Standing {
    counts: Counts {
        opening: 0,
        accepted: 0,
        answered: 0,
        queued: 0,
        outstanding: 0,
        up: true,
        draining: false,
    },
    first_queued: None,
    first_held: None,
    last_answered: None,
};

/// What is counted of a home server's datagram for which the ring is full.
const RING_FULL: CountedEvent = CountedEvent {
    metric: Counted::Unheard,
    reason: Reason::Unheard(DeskFault::RingFull),
};

/// The lines of the reports.
const LINES: &str = "event=stopped worker=front reason=\"ended by itself\"\n\
    event=stopped worker=h2 reason=\"ended by itself\"\n\
    event=unheard home=h2 reason=\"RingFull\"\n\
    event=went worker=h2 address=127.0.0.1 port=2814 octets=3 reason=\"Unread Short\"\n";

/// Those of them that are logged at `error`.
const ERRORS: &str = "event=stopped worker=front reason=\"ended by itself\"\n\
    event=stopped worker=h2 reason=\"ended by itself\"\n";

/// Makes the reports, and returns whether each is counted of its own worker alone.
fn report<R: Clock>(telemetry: &Telemetry<'_, MemoryLog, R>) -> bool {
    telemetry.tell_end(Worker::Front);
    telemetry.tell_end(Worker::Lane(1));
    telemetry.report(
        Worker::Lane(1),
        &WorkerReport::Unheard {
            fault: DeskFault::RingFull,
            octets: &[],
            origin: None,
        },
    );
    telemetry.report(Worker::Lane(2), &WorkerReport::WentDown(None));
    telemetry.report(
        Worker::Lane(1),
        &WorkerReport::Sends {
            to: HOME,
            octets: &[4, 7, 0],
            origin: None,
        },
    );
    let counts = telemetry.numbers().counts();
    counts.get(0, RING_FULL) == 0
        && counts.get(1, RING_FULL) == 0
        && counts.get(2, RING_FULL) == 1
        && counts.get(3, CountedEvent::plain(Counted::WentDown)) == 0
}

fn asks_until_told<R: Clock>(telemetry: &Telemetry<'_, MemoryLog, R>) -> bool {
    let before = telemetry.asks(0).standing;
    telemetry.numbers().ask_each();
    let moment = Moment::new(5067).unwrap();
    let standing = EMPTY;
    telemetry.report(Worker::Lane(0), &WorkerReport::Stands { moment, standing });
    let after = (telemetry.asks(0), telemetry.asks(1), telemetry.asks(2));
    !before && !after.0.standing && after.1.standing && !after.2.standing
}

/// Returns whether both is so of a telemetry over this log.
fn is_reported<R: Clock>(
    rt: &R,
    alloc: Global,
    config: &Config,
    log: &MemoryLog,
) -> Result<bool, AllocError> {
    let tracer = Tracer::new(alloc, log_up_to(alloc, LevelFilter::Trace));
    let telemetry = Telemetry::new(alloc, rt, config, log, &tracer)?;
    Ok(report(&telemetry) && asks_until_told(&telemetry))
}

/// Returns whether both is so over a log up to this level, and exactly these lines are logged.
fn logs<R: Clock>(
    rt: &R,
    alloc: Global,
    config: &Config,
    level: LevelFilter,
    lines: &str,
) -> Result<bool, AllocError> {
    let log = log_up_to(alloc, level);
    let reported = is_reported(rt, alloc, config, &log);
    let is_logged = has_logged(&log, lines);
    drop(log);
    Ok(reported? && is_logged)
}

#[test]
fn what_no_run_reports_is_logged_and_counted(rt: HostRuntime) -> Result<(), Fail> {
    let config = with_two_homes(rt.alloc())?;
    let all = logs(&rt, rt.alloc(), &config, LevelFilter::Trace, LINES);
    let errors = logs(&rt, rt.alloc(), &config, LevelFilter::Error, ERRORS);
    drop(config);
    holds(&rt, all? && errors?);
    Ok(())
}
