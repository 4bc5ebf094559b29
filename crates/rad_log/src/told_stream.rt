//! Streams whose failures are logged.

use crate::telling::tell_reason;
use log::Log;
use std::io::{self, ErrorKind, Read, Write};

/// A reader or a writer. Its first failed read or write is logged when it happens, unless it only has to be tried again.
#[derive(Drop)]
pub struct ToldStream<'a, S: Drop, L> {
    stream: S,
    /// The event under which a failure is logged.
    event: &'a str,
    log: &'a L,
    is_told: bool,
}

impl<'a, S: Drop, L: Log> ToldStream<'a, S, L> {
    /// Makes a stream whose first failure is logged as an event of this name.
    pub fn new(stream: S, event: &'a str, log: &'a L) -> ToldStream<'a, S, L> {
        ToldStream {
            stream,
            event,
            log,
            is_told: false,
        }
    }
}

/// Logs a failure, if it is the first and not an interrupt, nor an answer that a read or a write would wait.
fn tell<L: Log>(is_told: &mut bool, event: &str, log: &L, error: &io::Error) {
    let is_passing = matches!(error.kind(), ErrorKind::Interrupted | ErrorKind::WouldBlock);
    if !*is_told && !is_passing {
        *is_told = true;
        tell_reason(log, event, error);
    }
}

impl<S: Read + Drop, L: Log> Read for ToldStream<'_, S, L> {
    ghost remaining = { λ s. S.remaining s.stream };

    fn read(&mut self, buf: &mut [u8]) -> io::Result<usize> {
        let got = self.stream.read(buf);
        if let Err(error) = &got {
            tell(&mut self.is_told, self.event, self.log, error);
        }
        got
    }
}

impl<S: Write + Drop, L: Log> Write for ToldStream<'_, S, L> {
    fn write(&mut self, buf: &[u8]) -> io::Result<usize> {
        let put = self.stream.write(buf);
        if let Err(error) = &put {
            tell(&mut self.is_told, self.event, self.log, error);
        }
        put
    }

    fn flush(&mut self) -> io::Result<()> {
        self.stream.flush()
    }
}
