//! A test of what no clause says of the ledger: what is counted and logged of it, and when.

use crate::comparing::holds;
use crate::telemetry::logs::{MemoryLog, has_logged, log_up_to};
use ledger_state::{FileSum, LedgerFault, LedgerReading, LedgerState};
use rad_log::LevelFilter;
use std::alloc::Global;
use std::sync::atomic::Ordering;
use std::test::Fail;
use std::time::Clock;

/// What happens to a ledger.
#[derive(Clone, Copy)]
enum Step {
    /// An entry is put into the buffer at this time.
    Put(u64),
    /// The response of this lane and serial is handed over.
    HandOver(u16, u64),
    /// The entry of this lane and serial is written.
    Pass(u16, u64),
    /// This many entries are written.
    Write(u64),
    /// An entry of the client in this row finds no room.
    Drop(Option<usize>),
    /// Entries can't be written.
    Fail(LedgerFault),
    /// Entries are written again.
    GoOn,
    /// Entries of a lane are lost, so many, from one serial to another.
    Lose(u16, u64, u64, u64),
    /// The sum of this file and so many entries is told.
    Sum(u64, u64),
    /// What happened is logged.
    Tell,
    /// A request is told as left.
    Leave,
    /// This many lines of requests that are left are written.
    WriteLeft(u64),
    /// What is left at the end is logged.
    TellLeft,
}

/// What happens to the ledger of the lines below. The serials of the second lane are more than 32 bits count.
const STEPS: &[Step] = &[
    Step::Tell,
    Step::Fail(LedgerFault::Create(2)),
    Step::Tell,
    Step::Tell,
    Step::Fail(LedgerFault::Gone),
    Step::Fail(LedgerFault::Write(28)),
    Step::GoOn,
    Step::Drop(Some(1)),
    Step::Drop(Some(1)),
    Step::Tell,
    Step::Tell,
    Step::Drop(Some(2)),
    Step::Tell,
    Step::Fail(LedgerFault::Sync(u32::MAX)),
    Step::Tell,
    Step::GoOn,
    Step::Fail(LedgerFault::Sync(u32::MAX)),
    Step::Tell,
    Step::Fail(LedgerFault::Parted),
    Step::Tell,
    Step::GoOn,
    Step::Lose(1, 3, 4_294_967_303, 4_294_967_306),
    Step::Lose(0, 2, 0, 1),
    Step::Lose(1, 1, 4_294_967_307, 4_294_967_307),
    Step::Lose(2, 1, 0, 0),
    Step::Sum(7, 65),
    Step::Sum(8, 66),
    Step::Tell,
    Step::HandOver(0, 0),
    Step::HandOver(1, 4_294_967_304),
    Step::HandOver(1, 4_294_967_305),
    Step::HandOver(2, 9),
    Step::Pass(1, 4_294_967_303),
    Step::Put(8_100),
    Step::Put(8_200),
    Step::Put(8_300),
    Step::Write(1),
    Step::TellLeft,
    Step::Pass(0, 0),
    Step::Pass(1, 4_294_967_304),
    Step::Write(2),
    Step::Fail(LedgerFault::Memory),
    Step::TellLeft,
    Step::Leave,
    Step::Leave,
    Step::Leave,
    Step::WriteLeft(1),
    Step::TellLeft,
    Step::Put(8_400),
    Step::TellLeft,
];

/// The lines of a ledger that can't be written at first.
const LINES: &str =
    "event=ledger-fault reason=\"can't make a file: No such file or directory (os error 2)\"\n\
    event=ledger-fault reason=\"can't write: No space left on device (os error 28)\"\n\
    event=ledger-back\n\
    event=ledger-dropped count=2\n\
    event=ledger-dropped count=1\n\
    event=ledger-fault reason=\"can't sync\"\n\
    event=ledger-fault reason=\"can't sync\"\n\
    event=ledger-fault reason=\"an entry is without its packets\"\n\
    event=ledger-back\n\
    event=ledger-lost lane=0 count=2 from=0 to=1\n\
    event=ledger-lost lane=1 count=4 from=4294967303 to=4294967307\n\
    event=ledger-file run=00000000000000ab file=7 entries=65 sum=0000000000000001000000000000000f0123456789abcdefffffffffffffffff\n\
    event=ledger-file run=00000000000000ab file=8 entries=66 sum=0000000000000001000000000000000f0123456789abcdefffffffffffffffff\n\
    event=ledger-left count=2\n\
    event=ledger-missing lane=0 from=0 to=0\n\
    event=ledger-missing lane=1 from=4294967304 to=4294967305\n\
    event=ledger-fault reason=\"no memory\"\n\
    event=ledger-left count=0 left=2\n\
    event=ledger-left count=1 left=2\n\
    event=ledger-missing lane=1 from=4294967305 to=4294967305\n";

/// Those of them that are logged at `error`.
const ERRORS: &str =
    "event=ledger-fault reason=\"can't make a file: No such file or directory (os error 2)\"\n\
    event=ledger-fault reason=\"can't write: No space left on device (os error 28)\"\n\
    event=ledger-dropped count=2\n\
    event=ledger-dropped count=1\n\
    event=ledger-fault reason=\"can't sync\"\n\
    event=ledger-fault reason=\"can't sync\"\n\
    event=ledger-fault reason=\"an entry is without its packets\"\n\
    event=ledger-lost lane=0 count=2 from=0 to=1\n\
    event=ledger-lost lane=1 count=4 from=4294967303 to=4294967307\n\
    event=ledger-left count=2\n\
    event=ledger-missing lane=0 from=0 to=0\n\
    event=ledger-missing lane=1 from=4294967304 to=4294967305\n\
    event=ledger-fault reason=\"no memory\"\n\
    event=ledger-left count=0 left=2\n\
    event=ledger-left count=1 left=2\n\
    event=ledger-missing lane=1 from=4294967305 to=4294967305\n";

fn happen(rt: &impl Clock, ledger: &LedgerState, log: &MemoryLog, step: Step) {
    match step {
        Step::Put(time) => ledger.count_put(time),
        Step::HandOver(lane, serial) => ledger.hand_over(lane, serial),
        Step::Pass(lane, serial) => ledger.write(lane, serial),
        Step::Write(count) => ledger.count_written(count),
        Step::Drop(client) => ledger.count_dropped(client),
        Step::Fail(fault) => ledger.fail(fault),
        Step::GoOn => ledger.goes_on(),
        Step::Lose(lane, count, from, to) => ledger.lose(lane, count, from, to),
        Step::Sum(file, entries) => ledger.tell_sum(FileSum {
            run: 0xab,
            file,
            entries,
            sum: [1, 15, 0x0123_4567_89ab_cdef, u64::MAX],
        }),
        Step::Tell => ledger.tell(log),
        Step::Leave => {
            let _ = ledger.count_left(rt, 1);
        }
        Step::WriteLeft(count) => ledger.count_left_written(count),
        Step::TellLeft => ledger.tell_left(log),
    }
}

fn dropped_of(reading: &LedgerReading<'_>, client: usize) -> Option<u64> {
    let dropped = reading.client_dropped.get(client)?;
    Some(dropped.load(Ordering::SeqCst))
}

/// Returns whether the entries of these steps are counted, and whether the oldest one has its age, which is that of the first
/// one that was put while none waited, and 0 if the clock went back and if there is none; and so of what is not synced, which is
/// at least as old.
fn is_counted(ledger: &LedgerState) -> bool {
    let reading = ledger.reading(9_000);
    ledger.set_oldest(Some(8_433));
    let age = ledger.reading(9_000).age;
    let before = ledger.reading(8_000).age;
    ledger.set_oldest(None);
    let without = ledger.reading(9_000).age;
    ledger.set_unsynced(Some(8_000));
    let unsynced = ledger.reading(9_000).unsynced;
    ledger.set_unsynced(None);
    let synced = ledger.reading(9_000).unsynced;
    ledger.set_oldest(Some(7_000));
    let waits = ledger.reading(9_000).unsynced;
    ledger.set_oldest(None);
    reading.written == 3
        && reading.waiting == 1
        && reading.dropped == 3
        && reading.lost == 7
        && dropped_of(&reading, 0) == Some(0)
        && dropped_of(&reading, 1) == Some(2)
        && dropped_of(&reading, 2).is_none()
        && reading.age == 900
        && age == 567
        && before == 0
        && without == 0
        && unsynced == 1000
        && synced == 0
        && waits == 2000
}

/// Returns whether each lane has what was handed over of it and, once it is told how many requests it accepted, how many of
/// them are left.
fn are_lanes_counted(ledger: &LedgerState) -> bool {
    let is_open = ledger.ended_lane(1).is_none();
    ledger.end_lane(1, 8);
    ledger.end_lane(2, 1);
    is_open
        && ledger.handed(0) == 1
        && ledger.handed(1) == 4_294_967_306
        && ledger.handed(2) == 0
        && ledger.ended_lane(0).is_none()
        && matches!(ledger.ended_lane(1), Some((8, 3)))
        && ledger.ended_lane(2).is_none()
}

/// Lets all steps happen to a ledger of two lanes, and returns whether exactly these lines are logged.
fn tells(rt: &impl Clock, alloc: Global, log: &MemoryLog, expected: &str) -> Result<bool, Fail> {
    let ledger = LedgerState::new(alloc, &[2, 2], 2)?;
    for next in STEPS {
        happen(rt, &ledger, log, *next);
    }
    Ok(is_counted(&ledger) && are_lanes_counted(&ledger) && has_logged(log, expected))
}

#[test]
fn what_happens_to_a_ledger_is_logged_once(rt: HostRuntime) -> Result<(), Fail> {
    let alloc = rt.alloc();
    let all = tells(&rt, alloc, &log_up_to(alloc, LevelFilter::Info), LINES)?;
    holds(&rt, all);
    let errors = tells(&rt, alloc, &log_up_to(alloc, LevelFilter::Error), ERRORS)?;
    holds(&rt, errors);
    Ok(())
}
