//! Paths that the environment names.

use crate::telling::warn_of_reason;
use log::Log;
use std::alloc::{AllocError, AllocGlobal};
use std::env::{self, Env, VarError};
use std::fmt::Display;

/// Returns the path that a variable of the environment names, if any; an empty value names none. If the value is not
/// UTF-8, it logs an event of this name with this reason, and returns none.
///
/// # Errors
///
/// `AllocError` if memory is refused.
pub fn find_path<R, L, D>(
    rt: &R,
    variable: &str,
    log: &L,
    event: &str,
    no_text: &D,
) -> Result<Option<String>, AllocError>
where
    R: Env + AllocGlobal,
    L: Log,
    D: Display,
{
    match env::var(rt, variable) {
        Ok(path) if path.is_empty() => Ok(None),
        Ok(path) => Ok(Some(path)),
        Err(VarError::NotPresent) => Ok(None),
        Err(VarError::OutOfMemory) => Err(AllocError),
        Err(VarError::NotUnicode) => {
            warn_of_reason(log, event, no_text);
            Ok(None)
        }
    }
}
