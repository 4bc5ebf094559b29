//! Printed lines: they are written as far as the output accepts them. Once the input has ended, the output is waited
//! for no longer than `linger`.

use super::streams::{Descriptors, StreamPoll};
use crate::faults::ServeFault;
use crate::serving::has_passed;
use std::alloc::Global;
use std::fmt::Display;
use std::io::{ErrorKind, Write};
use std::sync::{Wait, WaitMethods};
use std::time::{Clock, Duration, Instant};

/// The octets of room for a line. The longest, of `state`, has 237 with its line feed.
const LINE: usize = 256;

/// How far the output was written.
#[derive(Clone, Copy, PartialEq, Eq)]
pub(crate) enum Progress {
    /// All was written.
    Done,
    /// Some was written.
    Went,
    /// Nothing was written in a short while.
    Waits,
}

/// How long the output is waited for once the input has ended.
#[derive(Clone, Copy)]
struct Patience {
    most: Duration,
    /// When the output was first waited for after the end of the input.
    first: Option<Instant>,
    /// Since when the output has accepted nothing.
    since: Option<Instant>,
}

impl Patience {
    /// Records that the output accepts something.
    fn renew(&mut self) {
        self.since = None;
    }

    /// Returns whether the output was waited for as long as allowed. If the clock fails, it was.
    fn is_over(&mut self, clock: &impl Clock) -> bool {
        if let Some(since) = self.since {
            return has_passed(clock, since, self.most);
        }
        let Ok(now) = Instant::now(clock) else {
            return true;
        };
        self.since = Some(now);
        if self.first.is_none() {
            self.first = Some(now);
        }
        false
    }
}

/// The printed lines that are not written yet.
#[derive(Drop)]
pub(crate) struct Output<O: Drop> {
    writer: O,
    streams: StreamPoll,
    patience: Patience,
    /// The lines that were printed since all was written.
    text: Vec<u8>,
    /// How many of these octets were written.
    gone: usize,
}

impl<O: Write + Drop> Output<O> {
    /// Makes an output for this writer, with room for `lines` lines. Once the input has ended, it waits for the writer
    /// for at most `most`, and that time starts anew with each octet that is written.
    ///
    /// # Errors
    ///
    /// `Memory` if that room is refused.
    pub(crate) fn new(
        alloc: Global,
        writer: O,
        descriptors: Descriptors,
        lines: usize,
        most: Duration,
    ) -> Result<Output<O>, ServeFault> {
        Ok(Output {
            writer,
            streams: StreamPoll::new(descriptors),
            patience: Patience {
                most,
                first: None,
                since: None,
            },
            text: Vec::with_capacity(alloc, lines.saturating_mul(LINE))?,
            gone: 0,
        })
    }

    /// Returns the text to which lines are added that are to be written.
    pub(crate) fn text(&mut self) -> &mut Vec<u8> {
        &mut self.text
    }

    /// Adds a line.
    ///
    /// # Errors
    ///
    /// `Memory` if memory is refused.
    pub(crate) fn add<D: Display>(&mut self, line: &D) -> Result<(), ServeFault> {
        match writeln!(self.text, "{line}") {
            Ok(()) => Ok(()),
            Err(_) => Err(ServeFault::Memory),
        }
    }

    /// Returns whether the input was seen to have ended while the output was waited for.
    pub(crate) fn has_input_ended(&self) -> bool {
        self.streams.has_ended()
    }

    /// Returns when the output was first waited for after the end of the input, if it was.
    pub(crate) fn waited_from(&self) -> Option<Instant> {
        self.patience.first
    }

    /// Writes all, after the input was read to its end.
    ///
    /// # Errors
    ///
    /// As [`Output::advance`].
    pub(crate) fn finish<R: Clock + Wait>(&mut self, rt: &R) -> Result<(), ServeFault> {
        self.streams.end();
        for _ in rt.forever() {
            if self.advance(rt)? == Progress::Done {
                return Ok(());
            }
        }
        unreachable!()
    }

    /// Writes the next line, or as much of it as the output accepts. Waits for that for a short while only.
    ///
    /// # Errors
    ///
    /// `Output` if the writer fails, or was waited for as long as allowed.
    pub(crate) fn advance(&mut self, clock: &impl Clock) -> Result<Progress, ServeFault> {
        if self.gone >= self.text.len() {
            return self.clear();
        }
        if self.streams.look() && self.write()? {
            return Ok(Progress::Went);
        }
        if self.streams.has_ended() && self.patience.is_over(clock) {
            return Err(ServeFault::Output);
        }
        Ok(Progress::Waits)
    }

    /// Empties the text, all of which was written, and flushes the writer.
    fn clear(&mut self) -> Result<Progress, ServeFault> {
        self.text.clear();
        self.gone = 0;
        match self.writer.flush() {
            Ok(()) => Ok(Progress::Done),
            Err(_) => Err(ServeFault::Output),
        }
    }

    /// Writes the next line, or as much of it as the output accepts. Returns whether to go on at once: not if the output
    /// does not block and another writer took its room.
    fn write(&mut self) -> Result<bool, ServeFault> {
        let at = self.gone.min(self.text.len());
        let part = first_line(&self.text.as_slice()[at..], self.streams.most());
        match self.writer.write(part) {
            Ok(0) => Err(ServeFault::Output),
            Ok(count) => {
                self.gone = self.gone.saturating_add(count);
                self.patience.renew();
                Ok(true)
            }
            Err(error) => match error.kind() {
                ErrorKind::Interrupted => Ok(true),
                ErrorKind::WouldBlock => Ok(false),
                _ => Err(ServeFault::Output),
            },
        }
    }
}

fn first_line(text: &[u8], most: usize) -> &[u8] {
    let line = match find_feed(text) {
        Some(place) => place.saturating_add(1),
        None => text.len(),
    };
    let count = line.min(most).min(text.len());
    &text[..count]
}

fn find_feed(text: &[u8]) -> Option<usize> {
    text.iter().position(|octet| *octet == b'\n')
}
