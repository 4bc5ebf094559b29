//! The file of another run that a run names.

use crate::shown::Word;
use ledger_lines::FileBefore;
use memchr::memrchr;
use std::alloc::{AllocError, Global};
use std::str;

/// A file of another run, as a run names it: the one that was written last when the run began.
#[derive(Drop)]
pub struct NamedFile {
    /// Its name in the folder.
    name: Word,
    /// The sum of its last whole line, if that has one.
    sum: Option<[u8; 32]>,
}

/// The run of a file, and its number in it, as its name has them.
#[derive(Clone, Copy)]
pub struct NameParts {
    pub run: u64,
    pub number: u64,
}

impl NamedFile {
    ghost use Rattle.std.specs.Prelude.{◌≡◌, IfOk, string_bytes};

    /// Keeps what a run names.
    ///
    /// # Errors
    ///
    /// `AllocError` if memory is refused.
    pub fn new(alloc: Global, before: &FileBefore<'_>) -> Result<NamedFile, AllocError>
        ensures { IfOk result (λ named. (string_bytes named.name.0 ≡ before.now.name.now) × (named.sum ≡ before.now.sum)) }
    {
        Ok(NamedFile {
            name: Word::new(alloc, before.name)?,
            sum: before.sum,
        })
    }

    /// Returns its name.
    pub fn name(&self) -> &str
        ensures { result.now ≡ string_bytes self.now.name.0 }
    {
        self.name.as_str()
    }

    /// Returns the sum of its last whole line, if the run names it.
    pub fn sum(&self) -> Option<[u8; 32]>
        ensures { result ≡ self.now.sum }
    {
        self.sum
    }

    /// Returns its run and its number, if its name has them.
    pub fn parts(&self) -> Option<NameParts> {
        parts_of(self.name.as_str())
    }
}

/// Returns the run and the number of a file of this name: sixteen digits, a dash, and what stands behind the last dash.
pub fn parts_of(name: &str) -> Option<NameParts> {
    let stem = name.as_bytes().strip_suffix(b".jsonl")?;
    let dash = memrchr(b'-', stem)?;
    let (front, digits) = (&stem[..dash], &stem[dash + 1..]);
    let mut run = [0; 8];
    hex::decode_to_slice(&front[dash.checked_sub(16)?..], &mut run).ok()?;
    Some(NameParts {
        run: u64::from_be_bytes(run),
        number: str::from_utf8(digits).ok()?.parse::<u64>().ok()?,
    })
}
