//! Lines of a file, read some at a time and judged by themselves side by side.

ghost use Rattle.std.specs.Prelude.{◌≡◌, All, IfOk, flat_map, map};
ghost use Rattle.rad_audit.specs.Blocks.{HaveLines, IsJudgedPart, IsWhole, octets_in, octets_of, read_into};
ghost use Rattle.rad_audit.specs.Judging.{AreJudged, IsFound};

use crate::judging::{JudgedLine, judge_line};
use crate::line_room::{LineRoom, Piece};
use ledger_lines::{LineFault, Room};
use rad_realms::Config;
use std::alloc::{AllocError, Global};
use std::io::{self, BufRead};
use std::thread::{self, Threads};

/// How many lines one thread judges at a time.
const LINES_EACH: usize = 64;

/// The most threads that judge lines.
const MOST_THREADS: usize = 16;

/// What was read of a file in the place of a line.
#[derive(Drop)]
pub enum Found<'a> {
    /// A line of a ledger.
    Line(JudgedLine<'a>),
    /// A line that is none of a ledger.
    NoLine,
    /// A line that is longer than a line of a ledger can be.
    TooLong,
    /// The last line, which has no line feed.
    Unended,
}

/// A line of a file.
#[derive(Drop)]
pub struct FileLine<'a> {
    /// Its octets, without the line feed.
    pub octets: &'a [u8],
    pub found: Found<'a>,
}

/// What one thread has of the lines that it judged.
#[derive(Drop)]
pub enum Part<'a> {
    /// The lines, in their order.
    Lines(Vec<FileLine<'a>>),
    /// Memory was refused.
    NoMemory,
}

/// A line that was read, and the room that it is judged in.
#[derive(Drop)]
struct Slot {
    line: LineRoom,
    piece: Piece,
    room: Room,
}

/// The lines that were read last.
#[derive(Drop)]
pub struct Block {
    alloc: Global,
    slots: Vec<Slot>,
    /// How many of the slots have a line.
    count: usize,
    /// How many lines are read at a time.
    most: usize,
}

impl Block {
    /// Returns a block without lines, for as many threads as the machine has processors.
    pub fn new<R: Threads>(rt: &R, alloc: Global) -> Block {
        let threads = match thread::available_parallelism(rt) {
            Ok(count) => count.get().min(MOST_THREADS),
            Err(_) => 1,
        };
        Block {
            alloc,
            slots: Vec::new(alloc),
            count: 0,
            most: threads * LINES_EACH,
        }
    }

    /// Reads the next lines of a file. Returns whether there may be more of them. On an error it has those before it.
    ///
    /// # Errors
    ///
    /// The reader's own error, or `OutOfMemory` if memory is refused.
    pub fn read<R: BufRead>(&mut self, reader: &mut R) -> io::Result<bool> {
        self.count = 0;
        for _ in 0..self.most {
            if !self.read_one(reader)? {
                return Ok(false);
            }
        }
        Ok(true)
    }

    /// Reads the next line of a file alone. Returns whether there was one.
    ///
    /// # Errors
    ///
    /// Those of `read`.
    pub fn read_first<R: BufRead>(&mut self, reader: &mut R) -> io::Result<bool> {
        self.count = 0;
        self.read_one(reader)
    }

    fn read_one<R: BufRead>(&mut self, reader: &mut R) -> io::Result<bool> {
        if self.count >= self.slots.len() {
            self.slots.push(Slot::new(self.alloc))?;
            self.count = self.slots.len() - 1;
        }
        let slot = &mut self.slots[self.count];
        slot.piece = slot.line.read(reader)?;
        if matches!(slot.piece, Piece::End) {
            return Ok(false);
        }
        self.count += 1;
        Ok(true)
    }

    /// Judges the lines by themselves. Returns them by parts: each line once, in their order, if no part lacks memory.
    ///
    /// # Errors
    ///
    /// `AllocError` if memory is refused.
    pub fn judge<'a, R: Threads + Sync>(
        &'a mut self,
        rt: &R,
        config: &'a Config,
    ) -> Result<Vec<Part<'a>>, AllocError>
        ensures judged { IfOk result (λ parts. All IsJudgedPart parts.items) }
        ensures whole { IfOk result (λ parts. HaveLines parts.items (octets_in self.old)) }
    {
        let alloc = self.alloc;
        let count = self.count.min(self.slots.len());
        let jobs = jobs_of(alloc, &mut self.slots[..count])?;
        thread::map_vec(rt, jobs, &|slots| judge_part(alloc, config, slots))
    }
}

impl Slot {
    fn new(alloc: Global) -> Slot {
        Slot {
            line: LineRoom::new(alloc),
            piece: Piece::End,
            room: Room::new(alloc),
        }
    }
}

/// Divides slots among threads.
fn jobs_of<'a>(alloc: Global, slots: &'a mut [Slot]) -> Result<Vec<&'a mut [Slot]>, AllocError>
    ensures { IfOk result (λ jobs. flat_map (λ job. map read_into job.now) jobs.items ≡ map read_into slots.old) }
{
    let mut jobs = Vec::with_capacity(alloc, slots.len().div_ceil(LINES_EACH))?;
    for job in slots.chunks_mut(LINES_EACH) {
        jobs.push(job)?;
    }
    Ok(jobs)
}

fn judge_part<'a>(alloc: Global, config: &'a Config, slots: &'a mut [Slot]) -> Part<'a>
    ensures judged { IsJudgedPart result }
    ensures whole { IsWhole result → octets_of result ≡ map read_into slots.old }
{
    match judge_slots(alloc, config, slots) {
        Ok(lines) => Part::Lines(lines),
        Err(_) => Part::NoMemory,
    }
}

fn judge_slots<'a>(
    alloc: Global,
    config: &'a Config,
    slots: &'a mut [Slot],
) -> Result<Vec<FileLine<'a>>, AllocError>
    ensures judged { IfOk result (λ lines. AreJudged lines.items) }
    ensures whole { IfOk result (λ lines. map (λ line. line.octets.now) lines.items ≡ map read_into slots.old) }
{
    let mut lines = Vec::with_capacity(alloc, slots.len())?;
    for slot in slots.iter_mut() {
        lines.push(judge_slot(alloc, config, slot)?)?;
    }
    Ok(lines)
}

fn judge_slot<'a>(
    alloc: Global,
    config: &'a Config,
    slot: &'a mut Slot,
) -> Result<FileLine<'a>, AllocError>
    ensures found { IfOk result (λ line. IsFound line.octets.now line.found) }
    ensures read { IfOk result (λ line. line.octets.now ≡ read_into slot.old) }
{
    let piece = slot.piece;
    let octets = slot.line.as_slice();
    let found = match piece {
        Piece::Whole => find(alloc, config, octets, &mut slot.room)?,
        Piece::TooLong => Found::TooLong,
        Piece::Unended | Piece::End => Found::Unended,
    };
    Ok(FileLine { octets, found })
}

fn find<'a>(
    alloc: Global,
    config: &'a Config,
    octets: &'a [u8],
    room: &'a mut Room,
) -> Result<Found<'a>, AllocError>
    ensures { IfOk result (λ found. IsFound octets.now found) }
{
    match judge_line(alloc, config, octets, room) {
        Ok(line) => Ok(Found::Line(line)),
        Err(LineFault::NotALine) => Ok(Found::NoLine),
        Err(LineFault::OutOfMemory) => Err(AllocError),
    }
}
