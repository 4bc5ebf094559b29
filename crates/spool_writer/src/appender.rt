//! A segment to which the thread appends batches.

ghost use Rattle.std.specs.Prelude.{◌≡◌, [], ◌∷◌, ◌++◌, List, IfOk};
ghost use Rattle.spool_files.specs.Batches.{Batch, sealed};
ghost use Rattle.spool_files.specs.Calls.{Made};
ghost use Rattle.spool_files.specs.Logged.{log_of};
ghost use Rattle.spool_writer.specs.Settled.{Has};

use spool_files::{AppendError, DeviceFault, FileCalls, LoggedFile, Segment, begin};
use std::alloc::Global;
use std::marker::Model;

/// A segment that takes more batches: each crash leaves the batches that it has. One to which a batch could not be appended is
/// dropped.
#[derive(Drop)]
pub(crate) struct Appender<C: FileCalls> {
    segment: Segment<LoggedFile<C>>,
}

impl<C: FileCalls> Model for Appender<C> {
    ghost use Rattle.spool_files.specs.Settled.{IsSettledFile};
    ghost use Rattle.spool_files.specs.declared.logged_file.LoggedFile.{LoggedFile};
    ghost use Rattle.spool_files.specs.declared.segment.Segment.{Segment};

    ghost Value = { Segment (LoggedFile C) };

    ghost view = { λ a. a.segment };

    ghost invariant = { λ a. IsSettledFile a.segment };
}

impl<C: FileCalls + Drop> Appender<C> {
    /// Begins a file that was just made.
    ///
    /// # Errors
    ///
    /// If the device fails. The file is of no use then.
    pub(crate) fn begin(file: LoggedFile<C>) -> Result<Appender<C>, DeviceFault>
        requires { log_of file ≡ Made ∷ [] }
        ensures { IfOk result (λ appender. Has appender []) }
    {
        let mut file = file;
        begin(&mut file)?;
        let segment = Segment::new(file);
        Ok(Appender { segment })
    }

    /// Appends a batch.
    ///
    /// # Errors
    ///
    /// If the segment has no room for it, the device fails, or memory is refused.
    pub(crate) fn append(self, alloc: Global, body: &[u8]) -> Result<Appender<C>, AppendError>
        ensures { IfOk result (λ appender. (batches : List Batch) → Has self batches → Has appender (batches ++ sealed body.now ∷ [])) }
    {
        let mut segment = self.segment;
        segment.append(alloc, body)?;
        Ok(Appender { segment })
    }

    /// Returns how many octets the segment has.
    pub(crate) fn octets(&self) -> u64 {
        self.segment.end as u64
    }
}
