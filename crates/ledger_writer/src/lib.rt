//! Writing a ledger: the bounded buffer that the front fills, and the thread that writes the files.
//!
//! [`open_ledger`] makes the two ends of the buffer. [`LedgerInlet`] is the front's: it copies each response into the
//! buffer, takes no memory and waits for nobody. Once less than half of the buffer is left free, an entry that is beyond the
//! share of its client is dropped. [`LedgerWriter`] is that of the thread that writes the entries to files, in the form of
//! `ledger_lines`, by the rules of `ledger_files`.
//!
//! A file is named `DATE-RUN-NNNNNN.jsonl`: DATE is that of its first line, as `2026-01-31`, RUN is what names the run, and
//! NNNNNN the number of the file in the run. The next
//! one is begun before a file has more than 256 MiB, and at midnight UTC. No file is ever removed or replaced.
//!
//! The definitions that the contracts cite are in specs: `Parcels` has the form of a response in the buffer, `Buffer` what
//! is put into it and taken from it, `Accounted` what became of what was handed over, `Shares` what a client may take of it,
//! `Entries` the entry that a parcel is written as, `Fills` the lines of many, and `RunNames` the names in it. No contract
//! says what passes from one thread to the other: not that the parcels that are taken are those that were put, nor a count,
//! nor what a client has in the buffer. Tests check that.
#![tactic(auto)]

mod accounting;
mod entry_buffer;
mod file_before;
mod filling;
mod giving;
mod inlet;
mod lines;
mod opening;
mod parcel;
mod progress;
mod record_counts;
mod run_names;
mod runtime_disk;
mod shares;
mod writer;

pub use inlet::LedgerInlet;
pub use ledger_files::LedgerDisk;
pub use opening::{OpenedLedger, draw_name, find_folder, open_ledger, start_writer};
pub use runtime_disk::RuntimeDisk;
pub use writer::LedgerWriter;
