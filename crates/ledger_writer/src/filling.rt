//! Filling a batch with the lines of the parcels that wait.

ghost use Rattle.std.specs.Prelude.{◌≡◌, ℕ, List, [], vec_len, IfOk};
ghost use Rattle.ledger_files.specs.Batches.{HoldsLines};
ghost use Rattle.ledger_files.specs.Runs.{IsRun};
ghost use Rattle.ledger_writer.specs.Fills.{Fills, HasPassed, Taken};
ghost use Rattle.ledger_writer.specs.Parcels.{IsLineHead};

use crate::lines::line_of;
use crate::parcel::{ParcelHead, ParcelKind};
use crate::writer::LineSource;
use ledger_files::{Batch, LedgerDisk, LineHead, RunFiles, day_of};
use ledger_lines::MOST_LINE_OCTETS;
use std::alloc::{AllocError, Global};
use std::mem;

/// How many octets of lines are put together.
const SIZE: usize = 262_144;

/// The most lines that are put together. A line has at least 300 octets.
const LINES: usize = 1024;

/// Makes an empty batch, with room for its lines.
pub(crate) fn new_batch(alloc: Global) -> Result<Batch, AllocError>
    ensures { IfOk result (λ batch. HoldsLines batch []) }
{
    Batch::new(alloc, SIZE + MOST_LINE_OCTETS, LINES)
}

impl LineSource {
    /// Replaces the lines of entries, all of which are written, by those of the next entries of one day, the one of this
    /// number or that of the first of them.
    ///
    /// # Errors
    ///
    /// `AllocError` if memory is refused. The entry whose line is not made is the next one.
    pub(crate) fn fill<D: LedgerDisk + Drop>(
        &mut self,
        files: &mut RunFiles<D>,
        alloc: Global,
        day: u64,
    ) -> Result<(), AllocError>
        requires written { files.old.batch.whole ≡ vec_len files.old.batch.ends }
        requires goes_on { vec_len files.old.last.octets ≡ 0 }
        ensures { (before : List Taken) → HasPassed self.old.entries before → (lines : List (List ℕ)) → IsRun (D.files files.old.disk) files.old lines → Fills self.old.names day before lines self.new.entries (λ all. IsRun (D.files files.new.disk) files.new all) }
    {
        files.clear();
        let mut day = day;
        for made in 0..LINES {
            self.entries.take();
            let Some(parcel) = self.entries.parcel() else {
                return Ok(());
            };
            let head = parcel.head;
            if made == 0 {
                day = day.max(day_of(head.time));
            }
            if files.batch().size() >= SIZE || day_of(head.time) > day {
                return Ok(());
            }
            let mut body = mem::replace(&mut self.room, Vec::new(alloc));
            body.clear();
            let body = line_of(alloc, &self.names, &parcel, body)?;
            files.add(line_head(head), body.as_slice())?;
            self.room = body;
            self.entries.pass();
        }
        Ok(())
    }
}

/// Returns what a batch keeps of a parcel's head.
fn line_head(head: ParcelHead) -> LineHead
    ensures { IsLineHead head result }
{
    LineHead {
        time: head.time,
        lane: head.lane,
        serial: match head.its {
            ParcelKind::Response { serial, .. } => Some(serial),
            ParcelKind::Left { .. } => None,
            ParcelKind::Count { .. } => None,
        },
    }
}
