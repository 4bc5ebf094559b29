//! A disk in memory for a spool, which stops where it is told. A crash then leaves what was synced, and the last write of a file
//! torn. Tests and the simulation use it; the program does not.
//!
//! Nothing is proved of it, but for what [`spool_writer::SpoolDisk`] asks.
#![tactic(auto)]

use spool_files::{DeviceFault, FileCalls, LoggedFile, Step};
use spool_writer::{SpoolDisk, SpoolFault};
use std::alloc::{AllocError, Global};
use std::io::{self, ErrorKind};
use std::sync::atomic::{AtomicU64, Ordering};
use std::sync::{Arc, Mutex};

/// The system's number of a disk that is full.
const FULL: u32 = 28;

/// The files of a folder, and how many more calls succeed that change them.
#[derive(Drop)]
pub struct MemoryFolder {
    files: Mutex<Vec<MemoryFile>>,
    calls: AtomicU64,
}

/// A file.
#[derive(Drop)]
struct MemoryFile {
    number: u64,
    /// What it has, whether that is kept or not.
    seen: Vec<u8>,
    /// What was kept at the last sync.
    kept: Vec<u8>,
    /// Where the last write was, and how long it was, if no sync followed.
    last: (usize, usize),
    /// From where on something was written since the last sync.
    changed: usize,
}

/// Puts octets at a place of a file, which may end before them.
fn put_at(file: &mut Vec<u8>, at: usize, octets: &[u8]) -> Result<(), AllocError> {
    let end = at.saturating_add(octets.len());
    if file.len() < end {
        file.resize(end, 0)?;
    }
    if let Some(place) = file.as_mut_slice().get_mut(at..end)
        && place.len() == octets.len()
    {
        place.copy_from_slice(octets);
    }
    Ok(())
}

impl MemoryFile {
    fn write(&mut self, at: usize, octets: &[u8]) -> Result<(), AllocError> {
        self.last = (at, octets.len());
        self.changed = self.changed.min(at);
        put_at(&mut self.seen, at, octets)
    }

    fn sync(&mut self) -> Result<(), AllocError> {
        let changed = self.seen.get(self.changed..).unwrap_or(&[]);
        put_at(&mut self.kept, self.changed, changed)?;
        self.last = (0, 0);
        self.changed = self.seen.len();
        Ok(())
    }

    /// Returns what a crash leaves that keeps this many octets of the last write, and another octet behind them.
    fn left(&self, alloc: Global, count: usize) -> Result<Vec<u8>, AllocError> {
        let mut file = self.kept.to_vec(alloc)?;
        let (at, length) = self.last;
        let end = at.saturating_add(count.min(length));
        put_at(&mut file, at, self.seen.get(at..end).unwrap_or(&[]))?;
        if count < length {
            put_at(&mut file, end, &[0xa5])?;
        }
        Ok(file)
    }

    fn crash(&mut self, alloc: Global, count: usize) -> Result<(), AllocError> {
        self.seen = self.left(alloc, count)?;
        self.kept = self.seen.to_vec(alloc)?;
        self.last = (0, 0);
        self.changed = self.seen.len();
        Ok(())
    }
}

impl MemoryFolder {
    /// Makes an empty folder, of which no call fails.
    ///
    /// # Errors
    ///
    /// `AllocError` if memory is refused.
    pub fn new(alloc: Global) -> Result<Arc<MemoryFolder>, AllocError> {
        let folder = MemoryFolder {
            files: Mutex::new(Vec::new(alloc)),
            calls: AtomicU64::new(u64::MAX),
        };
        Ok(Arc::new(alloc, folder)?)
    }

    /// Has so many more calls succeed that change a file or the folder. The one behind them fails, which may have been done in part, and each
    /// later one.
    pub fn stop_after(&self, calls: u64) {
        self.calls.store(calls, Ordering::SeqCst);
    }

    /// Has no call fail any more.
    pub fn go_on(&self) {
        self.stop_after(u64::MAX);
    }

    /// Returns how many files there are.
    pub fn count(&self) -> usize {
        match self.files.try_lock() {
            Some(files) => files.len(),
            None => 0,
        }
    }

    /// Returns what a crash leaves of a file that keeps this many octets of its last write.
    pub fn left(&self, alloc: Global, number: u64, count: usize) -> Option<Vec<u8>> {
        let files = self.files.try_lock()?;
        let place = files.iter().position(|file| file.number == number)?;
        files.get(place)?.left(alloc, count).ok()
    }

    /// Has each file be as a crash leaves it that keeps this many octets of its last write, and has no call fail any more.
    ///
    /// # Errors
    ///
    /// `AllocError` if memory is refused.
    pub fn crash(&self, alloc: Global, count: usize) -> Result<(), AllocError> {
        self.go_on();
        let Some(mut files) = self.files.try_lock() else {
            return Err(AllocError);
        };
        for file in files.as_mut_slice().iter_mut() {
            file.crash(alloc, count)?;
        }
        Ok(())
    }

    /// Counts a call, and returns whether it succeeds.
    fn may(&self) -> bool {
        match self.calls.load(Ordering::SeqCst) {
            0 => false,
            u64::MAX => true,
            more => {
                self.stop_after(more.saturating_sub(1));
                true
            }
        }
    }

    fn write(&self, number: u64, at: usize, octets: &[u8]) -> bool {
        let is_done = self.may();
        let Some(mut files) = self.files.try_lock() else {
            return false;
        };
        match find_mut(files.as_mut_slice(), number) {
            Some(file) => file.write(at, octets).is_ok() && is_done,
            None => false,
        }
    }

    fn sync(&self, number: u64) -> bool {
        let is_done = self.may();
        let Some(mut files) = self.files.try_lock() else {
            return false;
        };
        match find_mut(files.as_mut_slice(), number) {
            Some(file) => is_done && file.sync().is_ok(),
            None => false,
        }
    }
}

fn find_mut(files: &mut [MemoryFile], number: u64) -> Option<&mut MemoryFile> {
    let place = files.iter().position(|file| file.number == number)?;
    files.get_mut(place)
}

/// The calls of a file.
#[derive(Drop)]
pub struct MemoryCalls {
    folder: Arc<MemoryFolder>,
    number: u64,
}

impl FileCalls for MemoryCalls {
    fn write_at(&mut self, at: usize, octets: &[u8]) -> Result<(), DeviceFault> {
        done(Step::Write, self.folder.write(self.number, at, octets))
    }

    fn sync(&mut self) -> Result<(), DeviceFault> {
        done(Step::Sync, self.folder.sync(self.number))
    }
}

fn done(step: Step, is_done: bool) -> Result<(), DeviceFault> {
    if is_done {
        Ok(())
    } else {
        Err(DeviceFault { step, number: FULL })
    }
}

/// A disk that has this folder alone, by whatever name.
#[derive(Drop)]
pub struct MemoryDisk {
    folder: Arc<MemoryFolder>,
}

impl MemoryDisk {
    /// Makes the disk that has a folder.
    ///
    /// # Errors
    ///
    /// `AllocError` if memory is refused.
    pub fn new(folder: &Arc<MemoryFolder>) -> Result<MemoryDisk, AllocError> {
        let folder = Arc::try_clone(folder)?;
        Ok(MemoryDisk { folder })
    }

    fn calls(&self, number: u64) -> io::Result<MemoryCalls> {
        match Arc::try_clone(&self.folder) {
            Ok(folder) => Ok(MemoryCalls { folder, number }),
            Err(_) => Err(ErrorKind::OutOfMemory.into()),
        }
    }
}

impl SpoolDisk for MemoryDisk {
    type Calls = MemoryCalls;

    fn take_folder(&mut self, _alloc: Global, _folder: &str) -> Result<(), SpoolFault> {
        Ok(())
    }

    fn numbers(&self, alloc: Global, _folder: &str) -> io::Result<Vec<u64>> {
        let mut numbers = Vec::new(alloc);
        if let Some(files) = self.folder.files.try_lock() {
            for file in files.iter() {
                numbers.push(file.number)?;
            }
        }
        Ok(numbers)
    }

    fn find(
        &self,
        alloc: Global,
        _folder: &str,
        number: u64,
    ) -> io::Result<(LoggedFile<MemoryCalls>, Vec<u8>)> {
        let mut octets = Vec::new(alloc);
        if let Some(files) = self.folder.files.try_lock() {
            for file in files.iter() {
                if file.number == number {
                    octets.extend_from_slice(&file.seen)?;
                }
            }
        }
        let calls = self.calls(number)?;
        Ok((LoggedFile::found(calls, &octets), octets))
    }

    fn make(
        &self,
        alloc: Global,
        _folder: &str,
        number: u64,
    ) -> io::Result<LoggedFile<MemoryCalls>> {
        let calls = self.calls(number)?;
        if !self.folder.may() {
            return Err(ErrorKind::StorageFull.into());
        }
        let Some(mut files) = self.folder.files.try_lock() else {
            return Err(ErrorKind::WouldBlock.into());
        };
        files.push(MemoryFile {
            number,
            seen: Vec::new(alloc),
            kept: Vec::new(alloc),
            last: (0, 0),
            changed: 0,
        })?;
        Ok(LoggedFile::made(calls))
    }

    fn remove(&self, _alloc: Global, _folder: &str, number: u64) -> io::Result<()> {
        if !self.folder.may() {
            return Err(ErrorKind::StorageFull.into());
        }
        if let Some(mut files) = self.folder.files.try_lock() {
            files.retain(|file| file.number != number);
        }
        Ok(())
    }

    fn set_aside(&self, alloc: Global, folder: &str, number: u64) -> io::Result<()> {
        self.remove(alloc, folder, number)
    }
}
