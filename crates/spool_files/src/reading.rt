//! Reading segments whose disk may lie: what is wrong is told by its place, and the rest is read on.

ghost use Rattle.std.specs.Prelude.{◌≡◌, List, IfOk, IsErrOf};
ghost use Rattle.spool_files.specs.CheckSums.{crc32};
ghost use Rattle.spool_files.specs.Entries.{Entry, Spells, views};
ghost use Rattle.spool_files.specs.Reading.{beginning_fault, fault_name};
ghost use Rattle.spool_files.specs.declared.reading.BatchError.TheVariants.{Memory};

use crate::batches::{FoundBatches, is_sound, read_batches};
use crate::counting::{Counted, sort_by_arrival};
use crate::device::Device;
use crate::entries::{ReadError, read_entries};
use crate::entry::Head;
use crate::folder::{find_segment, segment_numbers};
use crate::segment::{AppendError, recover};
use std::alloc::{AllocError, AllocGlobal, Global};
use std::fs::Files;
use std::io::{self, ErrorKind};

/// The version of the format.
pub const VERSION: u16 = 1;

/// What is wrong with a segment.
#[derive(Clone, Copy, PartialEq, Eq)]
pub enum FaultKind {
    /// The CRC-32 beside a batch is not that of its octets.
    WrongSum,
    /// The octets of a batch are not those of entries.
    NotEntries,
    /// Behind an open gate is no whole batch.
    CutShort,
    /// It does not begin as the segment of its number.
    NoBeginning,
    /// A later program wrote it. Nothing of it is read.
    LaterVersion,
}

impl FaultKind {
    /// Returns the name of the fault.
    pub fn name(self) -> &'static str
        ensures { result.now ≡ fault_name self }
    {
        match self {
            FaultKind::WrongSum => "wrong sum",
            FaultKind::NotEntries => "not entries",
            FaultKind::CutShort => "cut short",
            FaultKind::NoBeginning => "no beginning",
            FaultKind::LaterVersion => "later version",
        }
    }
}

/// Something is wrong with a segment: its disk lies, or another hand wrote it. No crash leaves it so. What else is in the
/// segment was read; as long as there is a fault, no segment should be removed.
#[derive(Clone, Copy)]
pub struct Fault {
    /// The segment's number.
    pub segment: u64,
    /// Where in its file the batch begins.
    pub offset: usize,
    /// What is wrong.
    pub kind: FaultKind,
}

/// Why a batch was not read.
#[derive(Clone, Copy)]
pub enum BatchError {
    /// Memory was refused.
    Memory,
    /// Its CRC-32 is not that of its octets.
    WrongSum,
    /// Its octets are not those of entries.
    NotEntries,
}

/// Reads the entries of a batch.
///
/// # Errors
///
/// `WrongSum` if its CRC-32 is not that of its octets, else `NotEntries` if these are not those of any entries.
pub fn read_batch(alloc: Global, check: u32, body: &[u8]) -> Result<Vec<(Head, &[u8])>, BatchError>
    ensures sound { IfOk result (λ _. check ≡ crc32 body.now) }
    ensures found { IfOk result (λ v. Spells body.now (views v.items)) }
    ensures wrong { IsErrOf result BatchError.WrongSum → check ≡ crc32 body.now → ⊥ }
    ensures malformed { IsErrOf result BatchError.NotEntries → (entries : List Entry) → Spells body.now entries → ⊥ }
    ensures sum_first { IsErrOf result BatchError.NotEntries → check ≡ crc32 body.now }
{
    if !is_sound(check, body) {
        return Err(BatchError::WrongSum);
    }
    match read_entries(alloc, body) {
        Ok(entries) => Ok(entries),
        Err(ReadError::Memory) => Err(BatchError::Memory),
        Err(ReadError::Malformed) => Err(BatchError::NotEntries),
    }
}

/// Returns what is wrong with the first entry of the segment of a number, if something is.
pub fn fault_of_beginning(number: u64, head: &Head) -> Option<FaultKind>
    ensures { result ≡ beginning_fault number head.now }
{
    match head {
        Head::Begun(begun) if begun.version > VERSION => Some(FaultKind::LaterVersion),
        Head::Begun(begun) if begun.version == VERSION && begun.number == number => None,
        _ => Some(FaultKind::NoBeginning),
    }
}

/// What was read of a segment.
#[derive(Drop)]
pub struct SegmentRead<'a> {
    /// The entries of its sound batches, in their order.
    pub entries: Vec<(Head, &'a [u8])>,
    /// What is wrong with it, in the order of the places.
    pub faults: Vec<Fault>,
}

/// Returns what is wrong with the beginning of a segment of which these entries are the first batch.
fn fault_of_first(number: u64, entries: &[(Head, &[u8])]) -> Option<FaultKind> {
    match entries {
        [(head, _), ..] => fault_of_beginning(number, head),
        [] => Some(FaultKind::NoBeginning),
    }
}

/// Reads the batches of a segment's file, each that is sound.
///
/// # Errors
///
/// If memory is refused.
pub fn read_segment(
    alloc: Global,
    number: u64,
    file: &[u8],
) -> Result<SegmentRead<'_>, AllocError> {
    let found = read_batches(alloc, file)?;
    let mut read = SegmentRead {
        entries: Vec::new(alloc),
        faults: Vec::new(alloc),
    };
    let is_cut = file.get(found.end) == Some(&1);
    match read.take_batches(alloc, number, &found, is_cut) {
        Ok(()) => Ok(read),
        Err(error) => Err(error),
    }
}

impl<'a> SegmentRead<'a> {
    /// Takes the batches of a segment that were found, behind which one is cut short or not.
    fn take_batches(
        &mut self,
        alloc: Global,
        number: u64,
        found: &FoundBatches<'a>,
        is_cut: bool,
    ) -> Result<(), AllocError> {
        let mut place = Place {
            segment: number,
            offset: 0,
        };
        for batch in &found.batches {
            let (check, body) = *batch;
            if !self.take_batch(alloc, place, check, body)? {
                return Ok(());
            }
            place.offset = place.offset.saturating_add(9).saturating_add(body.len());
        }
        if is_cut {
            place.offset = found.end;
            self.add(place, FaultKind::CutShort)?;
        }
        Ok(())
    }

    /// Takes a batch. Returns whether to read on.
    fn take_batch(
        &mut self,
        alloc: Global,
        place: Place,
        check: u32,
        body: &'a [u8],
    ) -> Result<bool, AllocError> {
        match read_batch(alloc, check, body) {
            Ok(entries) => self.take_entries(place, &entries),
            Err(BatchError::Memory) => Err(AllocError),
            Err(BatchError::WrongSum) => self.add(place, FaultKind::WrongSum),
            Err(BatchError::NotEntries) => self.add(place, FaultKind::NotEntries),
        }
    }

    /// Takes the entries of a sound batch, unless they are of a later version. Returns whether to read on.
    fn take_entries(
        &mut self,
        place: Place,
        entries: &[(Head, &'a [u8])],
    ) -> Result<bool, AllocError> {
        if place.offset == 0
            && let Some(kind) = fault_of_first(place.segment, entries)
        {
            self.add(place, kind)?;
            if kind == FaultKind::LaterVersion {
                return Ok(false);
            }
        }
        self.entries.extend_from_slice(entries)?;
        Ok(true)
    }

    /// Adds a fault. Returns that the next batches are to be read.
    fn add(&mut self, place: Place, kind: FaultKind) -> Result<bool, AllocError> {
        let Place { segment, offset } = place;
        self.faults.push(Fault {
            segment,
            offset,
            kind,
        })?;
        Ok(true)
    }
}

/// Where a batch begins.
#[derive(Clone, Copy)]
struct Place {
    /// The segment's number.
    segment: u64,
    /// Where in its file.
    offset: usize,
}

/// What was read of a spool.
#[derive(Drop)]
pub struct SpoolRead {
    /// The requests that are open, in the order in which they came, and the answers that are remembered, in that in which they
    /// were given.
    pub counted: Counted,
    /// What is wrong with its segments, the oldest first.
    pub faults: Vec<Fault>,
    /// The numbers of its segments, in their order.
    pub segments: Vec<u64>,
}

impl AppendError {
    /// Returns it as an error of the system.
    pub fn as_io(self) -> io::Error {
        match self {
            AppendError::Failed(fault) => {
                io::Error::from_raw_os_error(i32::try_from(fault.number).unwrap_or(0))
            }
            AppendError::Full => ErrorKind::StorageFull.into(),
            AppendError::Memory => ErrorKind::OutOfMemory.into(),
        }
    }
}

/// Has the system keep what a segment has, and counts its entries from the last to the first. Returns what is wrong with it.
///
/// # Errors
///
/// If the system or memory refuses it. What was counted is of no use then.
pub fn count_segment<R: Files + AllocGlobal>(
    rt: &R,
    folder: &str,
    number: u64,
    now: u64,
    span: u64,
    counted: &mut Counted,
) -> io::Result<Vec<Fault>> {
    let alloc = rt.alloc();
    let (mut device, octets) = find_segment(rt, alloc, folder, number)?;
    count_found(alloc, &mut device, &octets, number, (now, span), counted)
}

/// Counts the entries of a segment's file that was found, until a moment and for a span.
fn count_found<D: Device>(
    alloc: Global,
    device: &mut D,
    file: &[u8],
    number: u64,
    until: (u64, u64),
    counted: &mut Counted,
) -> io::Result<Vec<Fault>>
    requires { file.now ≡ D.seen device.old }
{
    if let Err(error) = recover(alloc, device, file) {
        return Err(error.as_io());
    }
    let read = read_segment(alloc, number, file)?;
    let (now, span) = until;
    for entry in read.entries.iter().rev() {
        let (head, text) = *entry;
        counted.count(alloc, now, span, &head, text)?;
    }
    Ok(read.faults)
}

/// Reads the segments of a folder, the newest first and one at a time, and has the system keep what was read: the requests
/// that are open, and the answers to which no more than `span` milliseconds passed up to `now`.
///
/// # Errors
///
/// If the system or memory refuses it.
pub fn read_spool<R>(
    rt: &R,
    alloc: Global,
    folder: &str,
    now: u64,
    span: u64,
) -> io::Result<SpoolRead>
where
    R: Files + AllocGlobal + Copy,
{
    let segments = segment_numbers(rt, alloc, folder)?;
    let mut read = SpoolRead {
        counted: Counted::new(alloc),
        faults: Vec::new(alloc),
        segments,
    };
    match read_segments(rt, folder, now, span, &mut read) {
        Ok(()) => Ok(read),
        Err(error) => Err(error),
    }
}

/// Reads the segments of a spool.
fn read_segments<R: Files + AllocGlobal>(
    rt: &R,
    folder: &str,
    now: u64,
    span: u64,
    read: &mut SpoolRead,
) -> io::Result<()> {
    for number in read.segments.iter().rev() {
        let wrong = count_segment(rt, folder, *number, now, span, &mut read.counted)?;
        add_reversed(&mut read.faults, &wrong)?;
    }
    read.faults.reverse();
    read.counted.answers.reverse();
    sort_by_arrival(read.counted.requests.as_mut_slice());
    Ok(())
}

/// Adds faults behind others, the last first.
fn add_reversed(faults: &mut Vec<Fault>, wrong: &[Fault]) -> Result<(), AllocError> {
    for fault in wrong.iter().rev() {
        faults.push(*fault)?;
    }
    Ok(())
}
