//! What no run of the program comes to in `rad_telemetry`, `rad_metrics` and `rad_log`. The log and the metrics of a run
//! are tested over the program.

mod ledgers;
mod logs;
mod reporting;
mod sockets;
