//! The level of the log, and the environment variable that names it.

ghost use Rattle.std.specs.Prelude.{◌≡◌};
ghost use Rattle.log.specs.Level.{parse_filter};

use log::LevelFilter;
use std::env::{Env, FillError};
use std::str;

/// The environment variable that names the level.
const LEVEL: &str = "RAD_PROXY_LOG";

/// How many octets of its value are read: more than the name of any level has.
const ROOM: usize = 16;

/// Returns the level that a word names: `off`, `error`, `warn`, `info`, `debug` or `trace`, in letters of either
/// case.
pub fn level_of(word: &str) -> Option<LevelFilter>
    ensures { result ≡ parse_filter word.now }
{
    match word.parse::<LevelFilter>() {
        Ok(level) => Some(level),
        Err(_) => None,
    }
}

/// Returns whether the environment has the variable that names the level.
pub fn names_level(env: &impl Env) -> bool {
    let mut room = [0; ROOM];
    !matches!(env.var(LEVEL, &mut room), Err(FillError::NotPresent))
}

/// Returns the level that the environment names, `Info` if the variable is absent, and none if its value is not a
/// level. It takes no memory.
pub fn read_level(env: &impl Env) -> Option<LevelFilter> {
    let mut room = [0; ROOM];
    let count = match env.var(LEVEL, &mut room) {
        Ok(count) => count,
        Err(FillError::NotPresent) => return Some(LevelFilter::Info),
        Err(FillError::TooLong) => return None,
    };
    match str::from_utf8(room.get(..count)?) {
        Ok(word) => level_of(word),
        Err(_) => None,
    }
}
