//! What the program itself logs: why it ends, and what an operator should know of the configuration.

use crate::error_lines::{ErrorLines, open_log};
use crate::levels::names_level;
use libc::{STDERR_FILENO, isatty};
use log::{Level, LevelFilter, Log, Logged, log, log_enabled};
use std::alloc::{AllocError, Global};
use std::env::Env;
use std::fmt::Display;

/// Logs a text at a level. All lines are logged here, so that what a macro of `log` writes is proved once.
pub fn tell<L: Log, D: Display>(log: &L, level: Level, text: &D) {
    log!(log; level, "{text}");
}

/// Returns whether a log accepts lines of a level.
pub fn logs_at<L: Log>(log: &L, level: Level) -> bool {
    log_enabled!(log; level)
}

/// Logs a text at `error`.
pub fn tell_error<L: Log, D: Display>(log: &L, text: &D) {
    tell(log, Level::Error, text);
}

/// Logs a text at `warn`.
pub fn tell_warning<L: Log, D: Display>(log: &L, text: &D) {
    tell(log, Level::Warn, text);
}

/// Opens the log as [`open_log`] does, if standard error is a terminal or the environment has `RAD_PROXY_LOG`.
/// Otherwise the log accepts nothing, so that whoever compares what is printed finds only the line of a fault.
///
/// # Errors
///
/// `AllocError` if memory is refused.
pub fn open_log_if_asked<E: Env>(
    env: &E,
    alloc: Global,
) -> Result<Logged<(), ErrorLines>, AllocError> {
    if isatty(STDERR_FILENO) == 1 || names_level(env) {
        return open_log(env, alloc);
    }
    Ok(Logged::new((), LevelFilter::Off, ErrorLines::new(alloc)?))
}

/// Logs at `error` an event of this name, which has only a reason.
pub fn tell_reason<L: Log, D: Display>(log: &L, event: &str, reason: &D) {
    tell_error(log, &format_args!("event={event} reason=\"{reason}\""));
}

/// Logs at `warn` an event of this name, which has only a reason.
pub fn warn_of_reason<L: Log, D: Display>(log: &L, event: &str, reason: &D) {
    tell_warning(log, &format_args!("event={event} reason=\"{reason}\""));
}
