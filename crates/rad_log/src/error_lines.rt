//! Log lines on standard error. One thread writes them, and no other thread waits for standard error.

use crate::levels::read_level;
use crate::line_queue::LineQueue;
use crate::telling::tell_warning;
use log::kv::Source;
use log::span::Spans;
use log::{Level, LevelFilter, Log, Logged, Metadata, Record};
use std::alloc::{AllocError, Global};
use std::env::Env;
use std::fmt::Display;
use std::sync::{Arc, Wait};
use std::thread::{self, Threads};
use std::time::{Clock, Duration, Instant};

/// The log line of a level that there is not.
const NO_SUCH_LEVEL: &str =
    "event=no-such-level reason=\"RAD_PROXY_LOG is none of off, error, warn, info, debug, trace\"";

/// Writes records to standard error, one line each. Once [`ErrorLines::start`] has started a thread for that, a
/// thread that logs only puts the line into a buffer of fixed size. Before that, the thread that logs writes the line
/// itself, if standard error accepts it at once. A line that finds no room, or that standard error does not accept,
/// is dropped. The number of dropped lines is written before the next line.
#[derive(Drop)]
pub struct ErrorLines {
    queue: Arc<LineQueue>,
}

impl ErrorLines {
    /// Makes a log that has nothing to write yet.
    ///
    /// # Errors
    ///
    /// `AllocError` if memory is refused.
    pub fn new(alloc: Global) -> Result<ErrorLines, AllocError> {
        Ok(ErrorLines {
            queue: Arc::new(alloc, LineQueue::new(alloc)?)?,
        })
    }

    /// Starts the thread that writes the lines, and returns whether that succeeded. No thread joins it: it ends with
    /// the program.
    pub fn start<R: Threads + Wait + Copy + Send + 'static>(&self, rt: &R) -> bool {
        let Ok(queue) = Arc::try_clone(&self.queue) else {
            return false;
        };
        let own = *rt;
        let is_started = thread::spawn(rt, move || queue.write_all(&own)).is_ok();
        if is_started {
            self.queue.leave_to_thread();
        }
        is_started
    }

    /// Makes the thread write what is left, and waits for it at most until `longest` after `start`; or, if lines waited for
    /// room, until ten seconds after the first did, if that is later.
    pub fn end<R: Clock + Wait>(&self, rt: &R, start: Option<Instant>, longest: Duration) {
        self.queue.end(rt, start, longest);
    }
}

/// A log that may have no room for a line, and for which a thread may wait that has nothing else to do.
pub trait WaitForRoom {
    /// Waits until there is room for a line, at most until five seconds after the first call.
    fn wait_for_room<R: Clock + Wait>(&self, rt: &R);
}

impl WaitForRoom for Logged<(), ErrorLines> {
    fn wait_for_room<R: Clock + Wait>(&self, rt: &R) {
        self.sink().queue.wait_for_room(rt);
    }
}

impl Log for ErrorLines {
    ghost use Rattle.std.specs.Prelude.{Some, true, []};

    ghost enables = { λ _ _ _. Some true };

    ghost target_of = { λ _. Some [] };

    fn enabled(&self, _metadata: &Metadata<'_>) -> bool {
        true
    }

    fn log<D: Display, K: Source, S: Spans>(&self, record: &Record<'_, D, K, S>) {
        let level = level_name(record.level());
        let text = record.args();
        self.queue.put(&format_args!("level={level} {text}"));
    }

    fn flush(&self) {}

    fn target(&self) -> &str {
        ""
    }
}

/// Opens a log whose lines go the same way as those of `log`, and that accepts each level.
///
/// # Errors
///
/// `AllocError` if memory is refused.
pub fn open_each_level(log: &Logged<(), ErrorLines>) -> Result<Logged<(), ErrorLines>, AllocError> {
    let queue = Arc::try_clone(&log.sink().queue)?;
    Ok(Logged::new((), LevelFilter::Trace, ErrorLines { queue }))
}

/// Opens the log on standard error, up to the level that `RAD_PROXY_LOG` names in the environment, or `info` if it
/// names none. If its value is not a level, that is logged.
///
/// # Errors
///
/// `AllocError` if memory is refused.
pub fn open_log<E: Env>(env: &E, alloc: Global) -> Result<Logged<(), ErrorLines>, AllocError> {
    let level = read_level(env);
    let lines = ErrorLines::new(alloc)?;
    let log = Logged::new((), level.unwrap_or(LevelFilter::Info), lines);
    if level.is_none() {
        tell_warning(&log, &NO_SUCH_LEVEL);
    }
    Ok(log)
}

/// Returns the name of a level in lower case.
fn level_name(level: Level) -> &'static str {
    match level {
        Level::Error => "error",
        Level::Warn => "warn",
        Level::Info => "info",
        Level::Debug => "debug",
        Level::Trace => "trace",
    }
}
