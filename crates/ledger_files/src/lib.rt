//! What stands in the files of a ledger: their names, the moments in them, and which octets are written to which file.
//!
//! A file is named `DATE-RUN-NNNNNN.jsonl` ([`FileName`]), and its lines have moments of UTC ([`UtcTime`]). [`Pending`] and
//! [`Batch`] are lines that are to be written to a [`LedgerDisk`], and how far they are written. [`RunFiles`] writes them to
//! the files of a run, and `specs/Runs.antt` says what these hold then; their [`Chain`] binds each line to all before it, by
//! the sum at its end ([`split_sum`]).
//! [`is_next_due`] says when the next file is begun, and [`FileDay`] how a clock that went back counts.
#![tactic(auto)]

mod batch;
mod chain;
mod digests;
mod disk;
mod file_name;
mod pending;
mod rotation;
mod run_files;
mod tail;
mod utc;

pub use batch::{Batch, LineHead};
pub use chain::{Chain, SUM_OCTETS};
pub use disk::{DiskFault, FoundFile, LedgerDisk};
pub use file_name::FileName;
pub use pending::{Pending, write_rest};
pub use rotation::{FileDay, MOST_OCTETS, OpenFile, STAY, StepBack, is_next_due};
pub use run_files::RunFiles;
pub use tail::split_sum;
pub use utc::{Date, DayTime, UtcTime, date_of, day_of};
