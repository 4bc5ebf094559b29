//! The log of the program: lines on standard error, each with a level.
//!
//! [`open_log`] opens the log at the level that the environment names. A thread that logs only puts its line into a
//! buffer of fixed size, [`LineBuffer`], and waits for nothing. One thread writes the lines. A line that finds no room is
//! dropped, and the number of dropped lines is written before the next line.
//!
//! The contract to read first is that of [`LineBuffer::put`]: it says which lines find room. What is written is behind a
//! lock, so no contract says it; tests check that.
//!
//! This is the only crate that uses `log`. It exports the items of `log` that the crates above need.
#![tactic(auto)]

mod error_lines;
mod escaped;
mod levels;
mod line_buffer;
mod line_queue;
mod line_writer;
mod locking;
mod named_path;
mod telling;
mod told_stream;
mod writer_state;

pub use error_lines::{ErrorLines, WaitForRoom, open_each_level, open_log};
pub use escaped::Escaped;
pub use line_buffer::LineBuffer;
pub use locking::{lock_soon, read_soon};
pub use log::kv::Source;
pub use log::span::Spans;
pub use log::{Level, LevelFilter, Log, Logged, Metadata, Record};
pub use named_path::find_path;
pub use telling::{
    logs_at, open_log_if_asked, tell, tell_error, tell_reason, tell_warning, warn_of_reason,
};
pub use told_stream::ToldStream;
pub use writer_state::{WriterState, wait_until_set};
