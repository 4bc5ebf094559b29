//! Lines that Python makes, as they are written again once they were read.

use crate::comparing::holds_at;
use crate::vectors::LINES;
use ledger_lines::{Line, Room, read_line, write_begin, write_end, write_entry, write_left};
use std::alloc::{AllocError, Global};
use std::process::Abort;
use std::test::Fail;

/// What stands before the sum of a line.
const SUM_KEY: &[u8] = b",\"sum\":\"";

fn written(alloc: Global, line: &Line<'_>) -> Result<Vec<u8>, AllocError> {
    let out = Vec::new(alloc);
    match line {
        Line::Begin(begin) => write_begin(alloc, begin, out),
        Line::Entry(entry) => write_entry(alloc, entry, out),
        Line::Left(left) => write_left(alloc, left, out),
        Line::End(end) => write_end(alloc, end, out),
        Line::Unsent(_)
        | Line::Again(_)
        | Line::AgainEarlier(_)
        | Line::Resumed(_)
        | Line::Hidden(_) => Ok(out),
    }
}

/// Whether a line is this body, and behind it the end of the object, with a sum before that or without one.
fn is_line_of(body: &[u8], text: &str) -> bool {
    match text.as_bytes().strip_prefix(body) {
        Some(rest) => {
            rest == b"}".as_slice() || rest.starts_with(SUM_KEY) && rest.len() == SUM_KEY.len() + 66
        }
        None => false,
    }
}

/// Whether a line is written again as it was read.
fn stays(alloc: Global, room: &mut Room, text: &str) -> Result<bool, AllocError> {
    match read_line(alloc, text.as_bytes(), room) {
        Ok(read) => Ok(is_line_of(written(alloc, &read.line)?.as_slice(), text)),
        Err(_) => Ok(false),
    }
}

fn each_stays(rt: &impl Abort, alloc: Global, room: &mut Room) -> Result<(), Fail> {
    for (place, line) in LINES.iter().enumerate() {
        holds_at(rt, place, stays(alloc, room, line)?);
    }
    Ok(())
}

#[test]
fn lines_are_written_as_they_were_read(rt: HostRuntime) -> Result<(), Fail> {
    let mut room = Room::new(rt.alloc());
    each_stays(&rt, rt.alloc(), &mut room)
}
