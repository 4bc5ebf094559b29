//! The segments of a spool as files of a folder. Nothing is proved of them but that they are memory-safe and end.

ghost use Rattle.std.specs.Prelude.{◌≡◌, [], ◌∷◌, IfOk};
ghost use Rattle.spool_files.specs.Calls.{Made, Found};
ghost use Rattle.spool_files.specs.Logged.{log_of};

use crate::device::{DeviceFault, Step};
use crate::logged_file::{FileCalls, LoggedFile};
use crate::segment::MOST_OCTETS;
use std::alloc::{AllocError, AllocGlobal, Global};
use std::fs::{self, DirBuilder, Files, OpenFile, OpenOptions, Permissions};
use std::io::{self, ErrorKind, Read, Seek, SeekFrom, Write};
use std::os::unix::fs::{DirBuilderExt, OpenOptionsExt, PermissionsExt};

/// Who may read and write a segment: its owner.
const MODE: u32 = 0o600;

/// Who may list the folder: its owner.
const FOLDER_MODE: u32 = 0o700;

/// What the name of a segment's file ends with, behind the 16 hexadecimal digits of its number.
const SUFFIX: &str = ".spool";

/// What follows that in the name of a file that is no segment any more, since it is damaged.
const ASIDE: &str = ".damaged";

/// How many digits the number in a file's name has.
const DIGITS: usize = 16;

/// The file of a segment, on the disks of a runtime.
#[derive(Drop)]
pub struct SegmentFile<F: Drop> {
    file: F,
}

impl<F: Write + Seek + Drop> SegmentFile<F> {
    fn put(&mut self, at: usize, octets: &[u8]) -> io::Result<()> {
        self.file.seek(SeekFrom::Start(at as u64))?;
        self.file.write_all(octets)
    }
}

impl<F: Write + Seek + OpenFile + Drop> FileCalls for SegmentFile<F> {
    fn write_at(&mut self, at: usize, octets: &[u8]) -> Result<(), DeviceFault> {
        fault_of(Step::Write, self.put(at, octets))
    }

    fn sync(&mut self) -> Result<(), DeviceFault> {
        fault_of(Step::Sync, self.file.sync_data())
    }
}

fn fault_of(step: Step, outcome: io::Result<()>) -> Result<(), DeviceFault> {
    match outcome {
        Ok(()) => Ok(()),
        Err(error) => {
            let number = match error.raw_os_error() {
                Some(number) => u32::try_from(number).unwrap_or(0),
                None => 0,
            };
            Err(DeviceFault { step, number })
        }
    }
}

fn path_of(alloc: Global, folder: &str, number: u64) -> Result<String, AllocError> {
    format!(in alloc; "{folder}/{number:016x}{SUFFIX}")
}

fn sync_folder<R: Files>(rt: &R, folder: &str) -> io::Result<()> {
    fs::open(rt, folder)?.sync_all()
}

/// Makes the folder of a spool, unless it is there.
///
/// # Errors
///
/// If the system refuses it.
pub fn make_folder<R: Files>(rt: &R, folder: &str) -> io::Result<()> {
    match DirBuilder::new().mode(FOLDER_MODE).create(rt, folder) {
        Err(error) if error.kind() == ErrorKind::AlreadyExists => Ok(()),
        outcome => outcome,
    }
}

/// Makes the file of a segment, which must not exist yet, and has the system keep it.
///
/// # Errors
///
/// If the system refuses it.
pub fn make_segment<R>(
    rt: &R,
    alloc: Global,
    folder: &str,
    number: u64,
) -> io::Result<LoggedFile<SegmentFile<R::File>>>
where
    R: Files,
    ensures { IfOk result (λ file. log_of file ≡ Made ∷ []) }
{
    let path = path_of(alloc, folder, number)?;
    let file = OpenOptions::new()
        .write(true)
        .create_new(true)
        .mode(MODE)
        .open(rt, path.as_str())?;
    file.set_permissions(Permissions::from_mode(MODE))?;
    file.sync_all()?;
    sync_folder(rt, folder)?;
    Ok(LoggedFile::made(SegmentFile { file }))
}

/// Opens the file of a segment, and reads its octets.
///
/// # Errors
///
/// If the system or memory refuses it, or the file has more than [`MOST_OCTETS`].
pub fn find_segment<R>(
    rt: &R,
    alloc: Global,
    folder: &str,
    number: u64,
) -> io::Result<(LoggedFile<SegmentFile<R::File>>, Vec<u8>)>
where
    R: Files,
    ensures { IfOk result (λ found. log_of found.0 ≡ Found found.1.items ∷ []) }
{
    let path = path_of(alloc, folder, number)?;
    let mut file = OpenOptions::new()
        .read(true)
        .write(true)
        .open(rt, path.as_str())?;
    let length = file.metadata()?.len();
    if length > MOST_OCTETS as u64 {
        return Err(ErrorKind::InvalidData.into());
    }
    let mut octets = Vec::new(alloc);
    octets.resize(length as usize, 0)?;
    file.read_exact(octets.as_mut_slice())?;
    Ok((LoggedFile::found(SegmentFile { file }, &octets), octets))
}

/// Removes the file of a segment, and has the system keep that.
///
/// # Errors
///
/// If the system refuses it. Then a crash may bring the file back, so no newer segment should be removed any more: its answers
/// may close what stands in this one.
pub fn remove_segment<R: Files>(
    rt: &R,
    alloc: Global,
    folder: &str,
    number: u64,
) -> io::Result<()> {
    fs::remove_file(rt, path_of(alloc, folder, number)?.as_str())?;
    sync_folder(rt, folder)
}

/// Renames the file of a damaged segment, so that it is no segment any more and its octets stay, and has the system keep that.
///
/// # Errors
///
/// If the system refuses it. Then, as with [`remove_segment`], no newer segment should be removed any more.
pub fn set_segment_aside<R: Files>(
    rt: &R,
    alloc: Global,
    folder: &str,
    number: u64,
) -> io::Result<()> {
    let path = path_of(alloc, folder, number)?;
    let aside = format!(in alloc; "{path}{ASIDE}")?;
    fs::rename(rt, path.as_str(), aside.as_str())?;
    sync_folder(rt, folder)
}

/// Returns the numbers of the segments of a folder, in their order.
///
/// # Errors
///
/// If the system or memory refuses it.
pub fn segment_numbers<R>(rt: &R, alloc: Global, folder: &str) -> io::Result<Vec<u64>>
where
    R: Files + AllocGlobal + Copy,
{
    let mut numbers = Vec::new(alloc);
    for entry in fs::read_dir(rt, folder)? {
        if let Some(number) = number_in(entry?.file_name()) {
            numbers.push(number)?;
        }
    }
    numbers.sort()?;
    Ok(numbers)
}

/// Returns the number of the segment whose file has this name. A name of another form has none.
fn number_in(name: &str) -> Option<u64> {
    let digits = name.strip_suffix(SUFFIX)?;
    if digits.len() != DIGITS
        || !digits.bytes().all(|octet| octet.is_ascii_digit() || octet >= b'a' && octet <= b'f')
    {
        return None;
    }
    u64::from_str_radix(digits, 16).ok()
}
