//! What is logged and counted of the workers that serve: the log lines, and the file that the metrics are written to.
//!
//! [`Telemetry`] is a gate that lets every worker go on. It classifies each report, has the numbers of `rad_metrics`
//! count it, and logs it. A [`Reporter`] logs once a second the sums of what was counted since the last time, and writes
//! all metrics in Prometheus' text format. It also looks at the file that names what is traced, for the [`Tracer`]. A
//! [`LeftLog`] logs the requests that are left at the end.
//!
//! No contract says what is behind a lock or in an atomic, such as a count; tests check that. The definitions that the
//! contracts cite are in specs: `Workers` has the names of the workers, `Lines` the lines of sums and of a home
//! server that is marked up, `FileFaults` the reasons for which the file of the metrics is not replaced, and
//! `Traced` what is traced.
#![tactic(auto)]

mod counter_file;
mod event_log;
mod last_realm;
mod ledger_gate;
mod left_log;
mod lines;
mod packet_words;
mod reporter;
mod socket_reports;
mod sums;
mod telemetry;
mod trace_file;
mod tracer;
mod workers;

pub use counter_file::{
    CounterTexts, FileFault, ReplaceFile, RuntimeFiles, find_counter_file, start_texts,
};
pub use ledger_gate::LedgerGate;
pub use left_log::LeftLog;
pub use packet_words::PacketWords;
pub use reporter::{Reporter, StopFlag, report};
pub use telemetry::Telemetry;
pub use trace_file::{TraceFault, TraceText, find_trace_file, read_trace_text};
pub use tracer::{LineSecond, Subject, Tracer, Wanted};
