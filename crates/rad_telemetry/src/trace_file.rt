//! The file that names what is traced, and how it is read.

use crate::tracer::{Tracer, Wanted};
use rad_desk::Session;
use rad_log::{Level, Log, find_path, tell, warn_of_reason};
use rad_realms::read_address;
use std::alloc::{AllocError, AllocGlobal, Global};
use std::env::Env;
use std::fmt::{self, Display};
use std::fs::{self, Files};
use std::io::{Error, ErrorKind, Read};
use std::mem;
use std::sync::Wait;

/// The environment variable that names the file.
const TRACE: &str = "RAD_PROXY_TRACE";

const FAULT: &str = "trace-fault";

const MOST_OCTETS: usize = 4096;

const MOST_LINES: usize = 16;

/// The most octets of the Value of an attribute (RFC 2865 section 5).
const MOST_VALUE: usize = 253;

/// Why nothing is traced, though there is a file. The first reason that applies is logged.
#[derive(Clone, Copy, PartialEq, Eq)]
pub enum TraceFault {
    /// The value of the variable is not UTF-8, so there is no file.
    NoText,
    /// At the path is a directory, a link, a pipe, a device or something else that is not a regular file. It is left
    /// alone.
    NotRegular,
    /// The system refused to read it, or memory was refused.
    NotRead,
    /// It has more than 4096 octets.
    TooLong,
    /// It is not UTF-8.
    NotUtf8,
    /// This line, counted from 1, names nothing that can be traced.
    Line(usize),
    /// More than 16 lines name something.
    TooMany,
}

/// A source of what is to be traced.
pub trait TraceText {
    /// Replaces `text` with the text of the file at a path, or with nothing if there is none.
    ///
    /// # Errors
    ///
    /// `NotRegular`, `NotRead` and `TooLong`, as these say; `text` is empty then.
    fn read_trace(&self, path: &str, text: &mut Vec<u8>) -> Result<(), TraceFault>;
}

/// Replaces `text` with the text of the file at a path, or with nothing if there is none.
///
/// # Errors
///
/// Those of [`TraceText::read_trace`].
pub fn read_trace_text<R: Files>(
    files: &R,
    path: &str,
    text: &mut Vec<u8>,
) -> Result<(), TraceFault>
where
    R::File: Drop,
{
    text.clear();
    let outcome = match fs::symlink_metadata(files, path) {
        Ok(found) if found.is_file() => read_regular(files, path, text),
        Ok(_) => Err(TraceFault::NotRegular),
        Err(error) => unless_absent(&error),
    };
    if outcome.is_err() {
        text.clear();
    }
    outcome
}

/// Adds the text of the regular file at a path to `text`.
fn read_regular<R: Files>(files: &R, path: &str, text: &mut Vec<u8>) -> Result<(), TraceFault>
where
    R::File: Drop,
{
    let file = match fs::open(files, path) {
        Ok(file) => file,
        Err(error) => return unless_absent(&error),
    };
    match file.take(MOST_OCTETS as u64 + 1).read_to_end(text) {
        Ok(_) if text.len() > MOST_OCTETS => Err(TraceFault::TooLong),
        Ok(_) => Ok(()),
        Err(_) => Err(TraceFault::NotRead),
    }
}

/// Returns the fault of a system's error, unless that is that there is no file.
fn unless_absent(error: &Error) -> Result<(), TraceFault> {
    if error.kind() == ErrorKind::NotFound {
        Ok(())
    } else {
        Err(TraceFault::NotRead)
    }
}

/// What was last read of the file, whose memory is used again.
#[derive(Drop)]
pub(crate) struct TraceLook {
    text: Vec<u8>,
    fault: Option<TraceFault>,
    read: Vec<u8>,
    wanted: Vec<Wanted>,
    /// Whether the next look is the first one of a report.
    is_first: bool,
}

impl TraceLook {
    /// Makes it of no file.
    pub(crate) fn new(alloc: Global) -> TraceLook {
        TraceLook {
            text: Vec::new(alloc),
            fault: None,
            read: Vec::new(alloc),
            wanted: Vec::new(alloc),
            is_first: true,
        }
    }

    /// Looks at the file, as each report does twice, but for the last one. If it is another one than before, what it names is
    /// traced from now on, and that is logged; so is why nothing is. The first look of a report logs how many lines were left out.
    pub(crate) fn look<R: Wait, S: TraceText, L: Log>(
        &mut self,
        rt: &R,
        source: &S,
        path: &str,
        tracer: &Tracer<L>,
        log: &L,
    ) {
        if self.is_first {
            tracer.tell_left_out();
        }
        self.is_first = !self.is_first;
        let fault = source.read_trace(path, &mut self.read).err();
        if fault == self.fault && self.read.as_slice() == self.text.as_slice() {
            return;
        }
        self.fault = fault;
        mem::swap(&mut self.text, &mut self.read);
        let fault = fault.or(read_lines(self.text.as_slice(), &mut self.wanted).err());
        if fault.is_some() {
            self.wanted.clear();
        }
        let count = self.wanted.len();
        tracer.set(rt, &mut self.wanted);
        match fault {
            Some(fault) => warn_of_reason(log, FAULT, &fault),
            None => tell(log, Level::Info, &format_args!("event=trace count={count}")),
        }
    }
}

/// Replaces `wanted` with what the lines of a text name. Empty lines name nothing.
///
/// # Errors
///
/// `NotUtf8`, `Line` and `TooMany`, as these say; `NotRead` if memory is refused.
fn read_lines(text: &[u8], wanted: &mut Vec<Wanted>) -> Result<(), TraceFault> {
    wanted.clear();
    let Ok(text) = str::from_utf8(text) else {
        return Err(TraceFault::NotUtf8);
    };
    for (place, line) in text.lines().enumerate() {
        if line.is_empty() {
            continue;
        }
        let Some(one) = wanted_by(line) else {
            return Err(TraceFault::Line(place.saturating_add(1)));
        };
        if wanted.len() >= MOST_LINES {
            return Err(TraceFault::TooMany);
        }
        if wanted.push(one).is_err() {
            return Err(TraceFault::NotRead);
        }
    }
    Ok(())
}

/// Returns what a line names: `user NAME`, `session ID` or `client ADDRESS`.
fn wanted_by(line: &str) -> Option<Wanted> {
    let (kind, value) = line.split_once(' ')?;
    match kind {
        "user" => Some(Wanted::User(octets_of(value)?)),
        "session" => Some(Wanted::Session(octets_of(value)?)),
        "client" => Some(Wanted::Client(read_address(value)?)),
        _ => None,
    }
}

/// Returns the octets of a value: 1 to 253. A `%` and two hexadecimal digits stand for the octet of that number, as in a
/// log line, and anything else for itself.
fn octets_of(value: &str) -> Option<Session> {
    let mut octets = [0; MOST_VALUE];
    let mut count = 0_usize;
    let mut rest = value.as_bytes();
    for _ in 0..value.len() {
        let Some((octet, after)) = rest.split_first() else {
            break;
        };
        let place = octets.get_mut(count)?;
        (*place, rest) = match *octet {
            b'%' => escaped_octet(after)?,
            octet => (octet, after),
        };
        count = count.saturating_add(1);
    }
    if count == 0 {
        return None;
    }
    Some(Session::of(octets.get(..count)?))
}

/// Returns the octet of two hexadecimal digits, and what follows them.
fn escaped_octet(text: &[u8]) -> Option<(u8, &[u8])> {
    let (first, rest) = text.split_first()?;
    let (second, rest) = rest.split_first()?;
    let first = char::from(*first).to_digit(16)?;
    let number = first
        .saturating_mul(16)
        .saturating_add(char::from(*second).to_digit(16)?);
    Some((u8::try_from(number).ok()?, rest))
}

impl Display for TraceFault {
    fn fmt<W: fmt::Write>(&self, f: &mut fmt::Formatter<W>) -> fmt::Result {
        match *self {
            TraceFault::NoText => f.write_str("RAD_PROXY_TRACE is no text"),
            TraceFault::NotRegular => f.write_str("no regular file"),
            TraceFault::NotRead => f.write_str("not read"),
            TraceFault::TooLong => f.write_str("more than 4096 octets"),
            TraceFault::NotUtf8 => f.write_str("no text"),
            TraceFault::Line(line) => {
                write!(
                    f,
                    "line {line} is none of user NAME, session ID, client ADDRESS"
                )
            }
            TraceFault::TooMany => f.write_str("more than 16 lines"),
        }
    }
}

/// Returns the file that `RAD_PROXY_TRACE` names in the environment, if any; an empty value names none. If the value is
/// not UTF-8, it logs `event=trace-fault` and returns none.
///
/// # Errors
///
/// `AllocError` if memory is refused.
pub fn find_trace_file<R: Env + AllocGlobal, L: Log>(
    rt: &R,
    log: &L,
) -> Result<Option<String>, AllocError> {
    find_path(rt, TRACE, log, FAULT, &TraceFault::NoText)
}
