//! Writing lines to standard error, even if it accepts only a part of them or nothing.

use crate::line_buffer::LineBuffer;
use libc::STDERR_FILENO;
use libc::net::{POLLOUT, poll};
use libc::types::pollfd;
use std::fmt::{self, Display};
use std::io::Write;

/// The most octets in one write. A pipe that is ready accepts this many.
const MOST: usize = 4096;

/// The octets of room for the line that says how many lines were lost. The longest one has 58.
const LOST_LINE: usize = 64;

/// Returns whether standard error accepts octets. If `is_patient` is set, it waits until it does.
fn is_ready(is_patient: bool) -> bool {
    let mut ends = [pollfd {
        fd: STDERR_FILENO,
        events: POLLOUT,
        revents: 0,
    }];
    let wait = if is_patient { -1 } else { 0 };
    poll(&mut ends, wait) == 1 && ends[0].revents & POLLOUT != 0
}

/// Writes the first of these octets to standard error, and returns how many; 0 if that failed.
fn take(octets: &[u8]) -> usize {
    usize::try_from(libc::write(STDERR_FILENO, octets)).unwrap_or(0)
}

/// Writes lines to standard error. If a write fails, the rest of the lines is lost. Before the next line it then writes a line end, if
/// a part of a line was written last, and how many lines were lost.
#[derive(Drop)]
pub struct LineWriter {
    /// Whether a part of a line was written last.
    is_inside: bool,
    /// How many lines were lost since their number was last written.
    lost: u64,
}

/// The line that says how many lines were lost.
#[derive(Clone, Copy)]
struct LostLine(u64);

impl LineWriter {
    /// Makes a writer that has written nothing yet.
    pub fn new() -> LineWriter {
        LineWriter {
            is_inside: false,
            lost: 0,
        }
    }

    /// Writes the lines of a buffer, and then how many were dropped after them. If `is_patient` is set, it waits
    /// while standard error accepts nothing; otherwise the lines are lost.
    pub fn write(&mut self, room: &LineBuffer, is_patient: bool) {
        self.write_all(room.lines(), is_patient);
        self.lost = self.lost.saturating_add(room.dropped());
        self.tell_lost(is_patient);
    }

    /// Writes lines, after the number of lines that were lost before them.
    fn write_all(&mut self, lines: &[u8], is_patient: bool) {
        if lines.is_empty() {
            return;
        }
        let is_told = self.tell_lost(is_patient);
        let taken = if is_told {
            self.put(lines, is_patient)
        } else {
            0
        };
        let rest = lines.get(taken..).unwrap_or(&[]);
        self.lost = self.lost.saturating_add(lines_in(rest));
    }

    /// Writes how many lines were lost, if that is not written yet, and returns whether it is written now.
    fn tell_lost(&mut self, is_patient: bool) -> bool {
        if self.lost == 0 {
            return true;
        }
        if self.is_inside && self.put(b"\n", is_patient) == 0 {
            return false;
        }
        let is_told = self.put_lost(is_patient);
        if is_told {
            self.lost = 0;
        }
        is_told
    }

    /// Writes how many lines were lost, and returns whether all of that is written.
    fn put_lost(&mut self, is_patient: bool) -> bool {
        let mut room = [0; LOST_LINE];
        match line_in(&mut room, &LostLine(self.lost)) {
            Some(line) => self.put(line, is_patient) >= line.len(),
            None => false,
        }
    }

    /// Writes octets as far as standard error accepts them, and returns how many.
    fn put(&mut self, octets: &[u8], is_patient: bool) -> usize {
        let mut taken = 0;
        for _ in 0..octets.len() {
            let rest = octets.get(taken..).unwrap_or(&[]);
            let next = rest.get(..MOST).unwrap_or(rest);
            if next.is_empty() || !is_ready(is_patient) {
                return taken;
            }
            let count = take(next).min(next.len());
            if count == 0 {
                return taken;
            }
            taken = taken.saturating_add(count);
            self.is_inside = octets.get(taken.saturating_sub(1)) != Some(&b'\n');
        }
        taken
    }
}

impl Display for LostLine {
    fn fmt<W: fmt::Write>(&self, f: &mut fmt::Formatter<W>) -> fmt::Result {
        let lost = self.0;
        write!(f, "level=warn event=lines-dropped count={lost}")
    }
}

/// Writes a line and its line end into this room, and returns them if the room suffices.
pub fn line_in<'a, D: Display>(room: &'a mut [u8], line: &D) -> Option<&'a [u8]> {
    let size = room.len();
    let mut free = &mut room[..];
    writeln!(free, "{line}").ok()?;
    let count = size.saturating_sub(free.len());
    room.get(..count)
}

fn lines_in(octets: &[u8]) -> u64 {
    let mut count = 0u64;
    for octet in octets {
        if *octet == b'\n' {
            count = count.saturating_add(1);
        }
    }
    count
}
