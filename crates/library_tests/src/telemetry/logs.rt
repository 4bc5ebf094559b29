//! A log in memory.

use rad_log::{LevelFilter, Log, Logged, Metadata, Record, Source, Spans};
use std::alloc::Global;
use std::fmt::Display;
use std::io::Write;
use std::sync::Mutex;

/// A log in memory, up to a level.
pub type MemoryLog = Logged<(), Kept>;

/// Keeps the text of each record as one line. Only one thread at a time logs.
#[derive(Drop)]
pub struct Kept {
    text: Mutex<Vec<u8>>,
}

/// Makes a log in memory up to a level.
pub fn log_up_to(alloc: Global, level: LevelFilter) -> MemoryLog {
    let text = Mutex::new(Vec::new(alloc));
    Logged::new((), level, Kept { text })
}

/// Returns whether exactly these lines were logged.
pub fn has_logged(log: &MemoryLog, expected: &str) -> bool {
    match log.sink().text.try_lock() {
        Some(text) => text.as_slice() == expected.as_bytes(),
        None => false,
    }
}

impl Log for Kept {
    ghost use Rattle.std.specs.Prelude.{Some, true, []};

    ghost enables = { λ _ _ _. Some true };

    ghost target_of = { λ _. Some [] };

    fn enabled(&self, _metadata: &Metadata<'_>) -> bool {
        true
    }

    fn log<D: Display, K: Source, S: Spans>(&self, record: &Record<'_, D, K, S>) {
        let Some(mut text) = self.text.try_lock() else {
            return;
        };
        let line = record.args();
        let _ = writeln!(text, "{line}");
    }

    fn flush(&self) {}

    fn target(&self) -> &str {
        ""
    }
}
