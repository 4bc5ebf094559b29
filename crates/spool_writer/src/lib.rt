//! The spool of a run: what the front tells it, and the thread that keeps it on disk.
//!
//! [`open_spool`] reads what earlier runs left, and makes two rings. [`Offers`] has the requests of these runs come in again, and
//! [`EarlierAnswers`] has their answers. [`SpoolInlet`] puts each request that a lane takes as new into one ring, and
//! [`SpoolLedger`] each response into the other. [`SpoolWriter`] is what the thread has that appends them to the segments of
//! `spool_files`. While the disk fails, it goes on without, and writes later what is still open. [`log_waiting`] tells what a spool
//! has without a run, and [`ClockWatch`] a jump of the clock by which answers are remembered.
//!
//! The definitions that the contracts cite are in specs: `Parcels` has what passes through the rings, `Accounted` what became
//! of what the front was told, `Merging` in which order the thread takes it, `Waiting` and `Settled` its batches, `Offers` and
//! `Earlier` what earlier runs left, `Clocks` a jump of the wall clock, and `Faults` and `LogLines` what is logged. No contract says what passes from one thread
//! to the other, which requests are open by the thread's table, or which segments it removes. Tests check that.
#![tactic(auto)]

mod appender;
mod disk;
mod earlier_answers;
mod fault;
mod giving;
mod inlet;
mod log_lines;
mod offer_notes;
mod offers;
mod open_table;
mod opening;
mod outlet;
mod parcel;
mod room;
mod runtime_disk;
mod segments;
mod state;
mod surveying;
mod waiting;
mod waiting_keys;
mod wall_clock;
mod writer;

pub use disk::SpoolDisk;
pub use earlier_answers::EarlierAnswers;
pub use fault::SpoolFault;
pub use giving::EntryGiver;
pub use inlet::{ResponseInlet, SpoolInlet, SpoolLedger};
pub use log_lines::{SpoolLine, WaitingLine, log_damage, log_spool_fault, log_unfit};
pub use offer_notes::OfferNotes;
pub use offers::{Offers, Unfit};
pub use opening::{OpenedSpool, SpoolPlace, find_spool, open_spool};
pub use runtime_disk::RuntimeSpoolDisk;
pub use state::{SpoolReading, SpoolState};
pub use surveying::log_waiting;
pub use wall_clock::{ClockJump, ClockWatch};
pub use writer::{SpoolSession, SpoolWriter, start_spool_writer};
