//! The lines of a ledger: a line for each response that the front took, for each request that was left, and for each that a lane took
//! over from an earlier run, lines that name a run and end one, lines that count what became of a response, and lines that stand for
//! others that are left out.
//!
//! [`read_line`] reads a line, and [`write_begin`], [`write_entry`], [`write_left`], [`write_resumed`], [`write_record_count`],
//! [`write_answer_count`] and [`write_end`] write one without its last brace: its sum comes behind that. `specs/Lines.antt` says which octets are a line, and `specs/Written.antt` what is written.
#![tactic(auto)]

mod about;
mod begin;
mod digits;
mod end;
mod entry;
mod faults;
mod hidden;
mod lane_start;
mod laws;
mod left;
mod moments;
mod reading;
mod record_count;
mod resumed;
mod values;
mod writing;

pub use begin::{Begin, FileBefore, write_begin};
pub use end::{End, LaneCount, write_end};
pub use entry::write_entry;
pub use faults::LineFault;
pub use hidden::{Hidden, HiddenKind};
pub use lane_start::LaneStart;
pub use laws::written_lines_are_read;
pub use left::write_left;
pub use moments::moment_of;
pub use reading::{Line, MOST_LINE_OCTETS, Room, SummedLine, read_line};
pub use record_count::{CountKind, write_answer_count, write_record_count};
pub use resumed::write_resumed;
