//! Reading the lines of a file into a room of fixed size.

ghost use Rattle.std.specs.Prelude.{◌≡◌};

use ledger_lines::MOST_LINE_OCTETS;
use memchr::memchr;
use std::alloc::Global;
use std::io::{BufRead, ErrorKind, Result};

/// What was read of a file.
#[derive(Clone, Copy)]
pub enum Piece {
    /// A line with its line feed.
    Whole,
    /// A line that is longer than a line of a ledger can be. The room has its front.
    TooLong,
    /// The last line, which has no line feed.
    Unended,
    /// No line is left.
    End,
}

/// The line that was read last, without its line feed.
#[derive(Drop)]
pub struct LineRoom {
    octets: Vec<u8>,
}

impl LineRoom {
    /// Returns a room without a line. It grows with the longest line that is read into it.
    pub fn new(alloc: Global) -> LineRoom {
        LineRoom {
            octets: Vec::new(alloc),
        }
    }

    /// Returns the line.
    pub fn as_slice(&self) -> &[u8]
        ensures { result.now ≡ self.now.octets.items }
    {
        self.octets.as_slice()
    }

    /// Reads the next line of a file. Of one that is too long, it keeps the front alone.
    ///
    /// # Errors
    ///
    /// The reader's own error, or `OutOfMemory` if memory is refused.
    pub fn read<R: BufRead>(&mut self, reader: &mut R) -> Result<Piece> {
        self.octets.clear();
        for _ in 0..u64::MAX {
            let buffer = match reader.fill_buf() {
                Ok(buffer) => buffer,
                Err(error) if error.kind() == ErrorKind::Interrupted => continue,
                Err(error) => return Err(error),
            };
            let end = memchr(b'\n', buffer);
            let count = end.unwrap_or(buffer.len());
            self.keep(&buffer[..count])?;
            if end.is_some() {
                reader.consume(count + 1);
                return Ok(if self.octets.len() <= MOST_LINE_OCTETS {
                    Piece::Whole
                } else {
                    Piece::TooLong
                });
            }
            if count == 0 {
                break;
            }
            reader.consume(count);
        }
        Ok(if self.octets.is_empty() {
            Piece::End
        } else {
            Piece::Unended
        })
    }

    /// Adds octets of a line, as far as there is room.
    fn keep(&mut self, octets: &[u8]) -> Result<()> {
        let room = (MOST_LINE_OCTETS + 1).saturating_sub(self.octets.len());
        self.octets
            .extend_from_slice(&octets[..octets.len().min(room)])?;
        Ok(())
    }
}
