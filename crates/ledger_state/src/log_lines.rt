//! The log lines of the ledger.

use crate::fault::LedgerFault;
use crate::file_sums::FileSum;
use rad_log::{Level, Log, tell};
use std::fmt;

/// Logs that the ledger is not written, and why.
pub fn log_ledger_fault<L: Log>(log: &L, fault: LedgerFault) {
    tell(log, Level::Error, &LedgerLine::Fault(fault));
}

/// A log line of the ledger.
#[derive(Clone, Copy)]
pub enum LedgerLine<'a> {
    /// Entries can't be written.
    Fault(LedgerFault),
    /// Entries are written again.
    Back,
    /// The sum of the run's lines.
    File(FileSum),
    /// The run is not tied to this file of another run, which is compressed.
    Untied(&'a str),
    /// Entries were written to a file that is gone: of this lane, so many, from this serial to that one.
    Lost(u64, u64, u64, u64),
    /// This many entries found no room.
    Dropped(u64),
    /// This many entries are not written at the end.
    Left(u64),
    /// This many entries are not written at the end, and this many lines of requests that are left.
    Both(u64, u64),
    /// The entries of this lane from this serial to that one are not written at the end.
    Missing(u64, u64, u64),
}

impl fmt::Display for LedgerLine<'_> {
    ghost use Rattle.ledger_state.specs.LogLines.{ledger_line};

    ghost output = { λ line. ledger_line line };

    fn fmt<W: fmt::Write>(&self, f: &mut fmt::Formatter<W>) -> fmt::Result {
        match *self {
            LedgerLine::Fault(fault) => write!(f, "event=ledger-fault reason=\"{fault}\""),
            LedgerLine::Back => f.write_str("event=ledger-back"),
            LedgerLine::File(its) => write!(f, "event=ledger-file {its}"),
            LedgerLine::Untied(file) => write!(f, "event=ledger-untied file=\"{file}\""),
            LedgerLine::Dropped(count) => write!(f, "event=ledger-dropped count={count}"),
            LedgerLine::Lost(lane, count, from, to) => {
                write!(
                    f,
                    "event=ledger-lost lane={lane} count={count} from={from} to={to}"
                )
            }
            LedgerLine::Left(count) => write!(f, "event=ledger-left count={count}"),
            LedgerLine::Both(count, left) => {
                write!(f, "event=ledger-left count={count} left={left}")
            }
            LedgerLine::Missing(lane, from, to) => {
                write!(f, "event=ledger-missing lane={lane} from={from} to={to}")
            }
        }
    }
}
