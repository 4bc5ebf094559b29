//! The commands on standard input while the proxy runs, one a line.

ghost use Rattle.std.specs.Prelude.{◌≡◌, ◌≢◌, ◌≤◌, [], ◌++◌, ◌↔◌, All, length, take, drop, true, false, IfOk, OnErr, MatchOption, IsTrue};
ghost use Rattle.std.specs.Io.KnownBytes.{Keeps, prepend_known};
ghost use Rattle.rad_console.specs.Commands.{Asks, EndsLine, HasNoFeed, IsFirstAt, IsFront, ReadsNext, ReadsMore};

use std::io::{Error, ErrorKind, Read, Result};
use std::marker::Model;

/// The most octets of a line that may be a command.
const MOST: usize = 64;

/// The most octets that one read returns.
const ROOM: usize = 512;

/// The command of a line.
#[derive(Clone, Copy, Debug, PartialEq, Eq)]
pub enum Command {
    /// Print the status of each lane.
    State,
    /// Drain each lane.
    Drain,
    /// No known command.
    Unknown,
}

impl Command {
    /// Returns the command of a line without its line feed.
    pub fn of(line: &[u8]) -> Command
        ensures { Asks line.now result }
    {
        if line == b"state".as_slice() {
            Command::State
        } else if line == b"drain".as_slice() {
            Command::Drain
        } else {
            Command::Unknown
        }
    }
}

/// The octets of a line that were read so far, but no more than a command may have.
#[derive(Drop)]
struct Line {
    octets: [u8; MOST],
    count: usize,
}

impl Model for Line {
    ghost use Rattle.std.specs.Prelude.{ℕ, List, ◌≤◌, take};

    ghost Value = { List ℕ };

    ghost view = { λ line. take line.count line.octets };

    ghost invariant = { λ line. line.count ≤ 64 };
}

impl Line {
    fn new() -> Line
        ensures { result ≡ [] }
    {
        Line {
            octets: [0; MOST],
            count: 0,
        }
    }

    /// Adds octets, as many as there is room for.
    fn push(&mut self, octets: &[u8])
        ensures { self.new ≡ take 64 (self.old ++ octets.now) }
    {
        let start = self.count;
        let count = octets.len().min(MOST - start);
        self.octets[start..start + count].copy_from_slice(&octets[..count]);
        self.count = start + count;
    }

    fn is_empty(&self) -> bool
        ensures { IsTrue result ↔ (self.now ≡ []) }
    {
        self.count == 0
    }

    /// Returns the command of the line, and begins an empty line.
    fn end(&mut self) -> Command
        ensures asked { Asks self.old result }
        ensures empty { self.new ≡ [] }
    {
        let command = Command::of(&self.octets[..self.count]);
        self.count = 0;
        command
    }
}

/// The octets that were read and not yet looked at.
#[derive(Drop)]
struct Unread {
    room: [u8; ROOM],
    /// The index of the first of them.
    at: usize,
    /// The index after the last of them.
    end: usize,
}

impl Model for Unread {
    ghost use Rattle.std.specs.Prelude.{ℕ, List, ◌≤◌, take, drop};

    ghost Value = { List ℕ };

    ghost view = { λ unread. drop unread.at (take unread.end unread.room) };

    ghost invariant = { λ unread. (unread.at ≤ unread.end) × (unread.end ≤ 512) };
}

impl Unread {
    fn new() -> Unread
        ensures { result ≡ [] }
    {
        Unread {
            room: [0; ROOM],
            at: 0,
            end: 0,
        }
    }

    fn as_slice(&self) -> &[u8]
        ensures { result.now ≡ self.now }
    {
        &self.room[self.at..self.end]
    }

    /// Skips the first `count` octets, which were looked at.
    fn skip(&mut self, count: usize)
        requires { count ≤ length self.old }
        ensures { self.new ≡ drop count self.old }
    {
        self.at += count;
    }

    /// Reads on after all octets were looked at, and returns whether the input has not ended yet.
    fn read<R: Read>(&mut self, reader: &mut R) -> Result<bool>
        requires { self.old ≡ [] }
        ensures more { IfOk result (ReadsMore (R.remaining reader.old) self.new (R.remaining reader.new)) }
        ensures none { OnErr result ((self.new ≡ []) × Keeps (R.remaining reader.old) (R.remaining reader.new)) }
    {
        self.at = 0;
        self.end = 0;
        let count = reader.read(&mut self.room)?;
        self.end = count;
        Ok(count > 0)
    }
}

/// The commands of a reader, up to its end. The last line may have no line feed.
#[derive(Drop)]
pub struct Commands<R: Drop> {
    reader: R,
    line: Line,
    unread: Unread,
    ghost front: { IsFront line },
}

impl<R: Read + Drop> Commands<R> {
    pub fn new(reader: R) -> Commands<R>
        ensures reader { result.reader ≡ reader }
        ensures none { (result.line ≡ []) × (result.unread ≡ []) }
    {
        Commands {
            reader,
            line: Line::new(),
            unread: Unread::new(),
        }
    }

    /// Returns the next command, or none at the end of the input. It waits for the reader.
    ///
    /// # Errors
    ///
    /// The reader's own error. After `Interrupted` the next call continues where this one ended.
    pub fn next(&mut self) -> Result<Option<Command>>
        ensures { ReadsNext (prepend_known (self.old.line ++ self.old.unread) (R.remaining self.old.reader)) result
            (prepend_known (self.new.line ++ self.new.unread) (R.remaining self.new.reader)) }
    {
        for _ in 0..u64::MAX {
            if let Some(command) = self.next_read() {
                return Ok(Some(command));
            }
            match self.unread.read(&mut self.reader) {
                Ok(true) => {}
                Ok(false) => return Ok(self.last()),
                Err(error) => return Err(error),
            }
        }
        Err(Error::from(ErrorKind::Interrupted))
    }

    /// Returns the next command whose line ends among the octets that were read.
    fn next_read(&mut self) -> Option<Command>
        ensures reader { self.new.reader ≡ self.old.reader }
        ensures ends { MatchOption result
            ((self.new.line ≡ take 64 (self.old.line ++ self.old.unread)) × (self.new.unread ≡ []) × HasNoFeed self.old.unread)
            (λ command. EndsLine self.old.line self.old.unread command self.new.unread × (self.new.line ≡ [])) }
    {
        let unread = self.unread.as_slice();
        match find_first(unread, b'\n') {
            Some(count) => {
                self.line.push(&unread[..count]);
                self.unread.skip(count + 1);
                Some(self.line.end())
            }
            None => {
                let count = unread.len();
                self.line.push(unread);
                self.unread.skip(count);
                None
            }
        }
    }

    fn last(&mut self) -> Option<Command>
        ensures rest { (self.new.reader ≡ self.old.reader) × (self.new.unread ≡ self.old.unread) × (self.new.line ≡ []) }
        ensures last { MatchOption result (self.old.line ≡ []) (λ command. (self.old.line ≢ []) × Asks self.old.line command) }
    {
        if self.line.is_empty() {
            return None;
        }
        Some(self.line.end())
    }
}

/// Returns the place of the first octet of a text that equals `wanted`, if there is one.
pub fn find_first(text: &[u8], wanted: u8) -> Option<usize>
    ensures { MatchOption result (All (λ octet. octet ≢ wanted) text.now) (λ place. IsFirstAt text.now wanted place) }
{
    text.iter().position(|octet| *octet == wanted)
}
