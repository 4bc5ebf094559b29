//! A segment: the file to which a run appends batches, and what a crash leaves of it.
//!
//! A batch is there whole or not at all. It is written behind a closed gate and synced; only then the gate, one octet, is
//! opened, and synced. So no checksum is trusted.

ghost use Rattle.std.specs.Prelude.{◌≡◌, ◌<◌, ◌+◌, ◌^◌, ◌∷◌, [], ◌++◌, List, length};
ghost use Rattle.std.specs.Prelude.{IfOk, OnOk, OnErr, IsErrOf};
ghost use Rattle.spool_files.specs.Devices.{Only, LeavesOnly};
ghost use Rattle.spool_files.specs.Batches.{Batch, sealed, at_rest, batch_views, octets_of_batches, Has, IsBeforeOrAfter};
ghost use Rattle.spool_files.specs.Segments.{IsSettled};
ghost use Rattle.spool_files.specs.declared.segment.AppendError.TheVariants.{Memory, Failed};

use crate::batches::{FoundBatches, framed, read_batches};
use crate::device::{Device, DeviceFault};
use std::alloc::{AllocError, Global};

/// How many octets a segment has at most: 16 MiB.
pub const MOST_OCTETS: usize = 1 << 24;

/// What a batch has beside its body: its gate, the body's length and CRC-32, and the closed gate behind it.
const BESIDE: usize = 10;

/// Why a batch was not appended, or a segment not read.
#[derive(Clone, Copy)]
pub enum AppendError {
    /// Memory was refused.
    Memory,
    /// The segment has no room for the batch.
    Full,
    /// The device failed.
    Failed(DeviceFault),
}

impl From<AllocError> for AppendError {
    ghost from_gives = { λ _ e. e ≡ Memory };

    fn from(_e: AllocError) -> AppendError {
        AppendError::Memory
    }
}

impl From<DeviceFault> for AppendError {
    ghost from_gives = { λ fault e. e ≡ Failed fault };

    fn from(fault: DeviceFault) -> AppendError {
        AppendError::Failed(fault)
    }
}

/// A segment to which batches are appended.
#[derive(Drop)]
pub struct Segment<D: Device> {
    /// The segment's file.
    pub device: D,
    /// Where its closed gate is, behind the last batch.
    pub end: usize,
}

/// Makes an empty file a segment without batches: it writes a closed gate.
///
/// # Errors
///
/// If the device fails. The file is of no use then.
pub fn begin<D: Device>(device: &mut D) -> Result<(), DeviceFault>
    requires empty { D.seen device.old ≡ [] }
    requires durable { Only [] (D.may_leave device.old) }

    ensures closed { OnOk result (D.seen device.new ≡ at_rest []) }
    ensures durable { OnOk result (Only (at_rest []) (D.may_leave device.new)) }

    // A crash at any moment leaves a file without batches.
    ensures any_moment { LeavesOnly D.moment D.left_since device.old device.new (λ c. Has c []) }

    ensures failed { OnErr result (D.faults device.old < D.faults device.new) }
{
    device.write_at(0, &[0])?;
    device.sync()
}

impl<D: Device> Segment<D> {
    /// Takes a file that was begun.
    pub fn new(device: D) -> Segment<D>
        requires closed { D.seen device ≡ at_rest [] }
        requires durable { Only (at_rest []) (D.may_leave device) }
        ensures { IsSettled D.seen D.may_leave result [] }
    {
        Segment { device, end: 0 }
    }

    /// Appends a batch. At `Ok` each later crash leaves it.
    ///
    /// # Errors
    ///
    /// `Full` if the segment has no room for it. After `Failed` the segment takes no more: the next run finds it there or
    /// not, and this one goes on in a new segment, since a sync that follows one that failed may lie.
    pub fn append(&mut self, alloc: Global, body: &[u8]) -> Result<(), AppendError>
        requires { (batches : List Batch) × IsSettled D.seen D.may_leave self.old batches }

        ensures kept { OnOk result ((batches : List Batch) → IsSettled D.seen D.may_leave self.old batches
            → IsSettled D.seen D.may_leave self.new (batches ++ sealed body.now ∷ [])) }

        // A crash at any moment of the call leaves the batches from before it, with the new one or without.
        ensures any_moment { (batches : List Batch) → IsSettled D.seen D.may_leave self.old batches
            → LeavesOnly D.moment D.left_since self.old.device self.new.device (IsBeforeOrAfter batches (sealed body.now)) }

        ensures room { OnOk result (self.new.end < 2 ^ 24) }

        // It gives up for no other reason.
        ensures full { IsErrOf result AppendError.Full → 2 ^ 24 < self.old.end + length body.now + 10 }
        ensures failed { (fault : DeviceFault) → IsErrOf result (AppendError.Failed fault)
            → D.faults self.old.device < D.faults self.new.device }
    {
        let room = MOST_OCTETS.saturating_sub(self.end);
        if room < BESIDE || room - BESIDE < body.len() {
            return Err(AppendError::Full);
        }
        let frame = framed(alloc, body)?;
        self.device.write_at(self.end + 1, &frame)?;
        self.device.sync()?;
        self.device.write_at(self.end, &[1])?;
        self.device.sync()?;
        self.end += 9 + body.len();
        Ok(())
    }
}

/// Reads the batches of a segment that a crash may have left, and has the device keep them. It writes nothing, so it may
/// crash at any moment, and what it leaves is closed for good: a run appends to segments of its own alone.
///
/// # Errors
///
/// If the device fails, or memory is refused.
pub fn recover<'a, D: Device>(
    alloc: Global,
    device: &mut D,
    file: &'a [u8],
) -> Result<FoundBatches<'a>, AppendError>
    // What was read is what the file has.
    requires { file.now ≡ D.seen device.old }

    ensures batches { IfOk result (λ found. Has (D.seen device.new) (batch_views found.batches.items)) }
    ensures end { IfOk result (λ found. found.end ≡ length (octets_of_batches (batch_views found.batches.items))) }
    ensures same { D.seen device.new ≡ D.seen device.old }
    ensures durable { OnOk result (Only (D.seen device.new) (D.may_leave device.new)) }

    // A crash at any moment leaves what one before the call might have left.
    ensures any_moment { LeavesOnly D.moment D.left_since device.old device.new (D.may_leave device.old) }

    ensures full { IsErrOf result AppendError.Full → ⊥ }
    ensures failed { (fault : DeviceFault) → IsErrOf result (AppendError.Failed fault) → D.faults device.old < D.faults device.new }
{
    device.sync()?;
    Ok(read_batches(alloc, file)?)
}
