//! The state of the thread that writes the ledger, for the front, which fills the buffer, and for the reporter, which logs
//! it and prints its counts: how many entries were written, wait, or found no room, what went wrong, which entries are
//! lost, and the sums of the run's files.
//!
//! Contracts say how each log line is printed, and which number stands for a fault. The definitions are in `specs`:
//! `Faults` has the reasons for which the ledger is not written, `Handlings` the words that tell how requests were handled, and
//! `LogLines` the lines. No contract covers what is in an
//! atomic, such as a count: tests check it.
#![tactic(auto)]

mod fault;
mod file_sums;
mod handlings;
mod lane_state;
mod log_lines;
mod responses;
mod state;

pub use fault::{LedgerFault, system_number};
pub use file_sums::FileSum;
pub use handlings::Handling;
pub use log_lines::{LedgerLine, log_ledger_fault};
pub use state::{LedgerReading, LedgerState};
