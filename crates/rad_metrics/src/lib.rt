//! The metrics of a running proxy, in Prometheus' text format: of the program, of the limits, of each client, of each
//! home server, of each socket, of the ledger and of the spool.
//!
//! [`Numbers`] keeps what the workers report. The metrics of one home server are taken under one hold of its lane's
//! lock, by the lane's worker, when it is asked for them. All labels come from the configuration, from the program and
//! from its sockets, whoever sends. What is counted of the ledger is in `ledger_state`.
//!
//! What is counted is an [`CountedEvent`]: the metric that counts it, [`Counted`], and a [`Reason`], whose place and name are
//! those of the enum of reasons that it has. A new reason is added there alone.
//!
//! [`metrics`] returns the list of all metrics: of each, its kind, its name and its help text. Its contract says that no
//! two names are the same, that kinds fit names, that names and help texts need no escapes, and that one metric counts each
//! event. No contract says which name or help text a metric has: a test compares them all. Contracts say how each line is
//! printed, which part of its [`Reading`] each metric of a home server is, as which event a report is counted, and which
//! text a metric of the ledger or of the spool has. No contract covers what is behind a lock or in an atomic, such as a count: tests check
//! it. The definitions are in `specs`: `Rows` has what holds of the list, `Metrics` the values that are read, `Families`,
//! `Samples` and `Values` how metrics are printed, `Reasons` the places and names of reasons, `Events` which events are
//! counted, and `Buckets` the bounds of a histogram.
#![tactic(auto)]

mod counted;
mod counts;
mod draft;
mod event;
mod family;
mod histogram;
mod home_cells;
mod home_metric;
mod home_times;
mod laws;
mod ledger_metrics;
mod metric;
mod numbers;
mod own_process;
mod program_metrics;
mod realm_numbers;
mod reason;
mod sample;
mod socket_numbers;
mod spool_metrics;
mod system_files;
mod value;
mod writing;

pub use counted::Counted;
pub use counts::Counts;
pub use draft::Draft;
pub use event::{Classified, CountedEvent, worker_row};
pub use family::{Family, Kind};
pub use home_metric::{HomeMetric, Reading};
pub use laws::other_realms_have_their_own_label;
pub use ledger_metrics::LedgerMetric;
pub use metric::{Metric, metrics};
pub use numbers::{Numbers, time_since_1970};
pub use own_process::ProcessReading;
pub use program_metrics::{ProgramMetric, ProgramReading, VERSION};
pub use realm_numbers::RealmNumbers;
pub use reason::Reason;
pub use socket_numbers::{SocketMetric, SocketReading, dropped_by};
pub use spool_metrics::{SpoolMetric, SpoolNumbers};
pub use system_files::{SystemFiles, count_own_descriptors, read_system_file};
pub use value::Value;
