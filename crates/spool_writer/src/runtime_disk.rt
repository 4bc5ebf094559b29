//! The folders and files of a runtime.

use crate::disk::SpoolDisk;
use crate::fault::{SpoolFault, system_number};
use libc::{LOCK_EX, LOCK_NB, flock};
use spool_files::{
    LoggedFile, SegmentFile, find_segment, make_folder, make_segment, remove_segment,
    segment_numbers, set_segment_aside,
};
use std::alloc::{AllocGlobal, Global};
use std::fs::{self, Files, OpenFile, OpenOptions};
use std::io::{self, ErrorKind, Read, Seek, Write};
use std::os::fd::AsRawFd;
use std::os::unix::fs::{OpenOptionsExt, PermissionsExt};

/// The name of the lock file.
const LOCK: &str = "lock";

/// Who may read and write the lock file: its owner.
const MODE: u32 = 0o600;

/// The bits of a folder's mode by which others than its owner may use it.
const OTHERS: u32 = 0o077;

/// The disks of a runtime, and the lock file that is held.
#[derive(Drop)]
pub struct RuntimeSpoolDisk<R, F: Drop> {
    rt: R,
    lock: Option<F>,
}

impl<R: Files<File = F>, F: Drop> RuntimeSpoolDisk<R, F> {
    /// Makes a value that holds no lock.
    pub fn new(rt: R) -> RuntimeSpoolDisk<R, F> {
        RuntimeSpoolDisk { rt, lock: None }
    }
}

impl<R, F> RuntimeSpoolDisk<R, F>
where
    R: Files<File = F> + AllocGlobal + Copy,
    F: Read + Write + Seek + OpenFile + AsRawFd + Drop,
{
    /// Fails unless the folder's owner alone may use it.
    fn check_folder(&self, folder: &str) -> Result<(), SpoolFault> {
        let found = fs::metadata(&self.rt, folder).map_err(folder_fault)?;
        if !found.is_dir() {
            return Err(SpoolFault::Folder(0));
        }
        if found.permissions().mode() & OTHERS != 0 {
            return Err(SpoolFault::Others);
        }
        Ok(())
    }

    /// Opens the lock file, and makes it unless it is there.
    fn open_lock(&self, alloc: Global, folder: &str) -> io::Result<F> {
        let path = format!(in alloc; "{folder}/{LOCK}")?;
        // To open a fifo would wait for whoever reads from it.
        if fs::metadata(&self.rt, path.as_str()).is_ok_and(|found| !found.is_file()) {
            return Err(ErrorKind::InvalidInput.into());
        }
        OpenOptions::new()
            .write(true)
            .create(true)
            .mode(MODE)
            .open(&self.rt, path.as_str())
    }
}

/// Returns the fault of a folder that could not be made or looked at.
fn folder_fault(error: io::Error) -> SpoolFault {
    SpoolFault::Folder(system_number(&error))
}

impl<R, F> SpoolDisk for RuntimeSpoolDisk<R, F>
where
    R: Files<File = F> + AllocGlobal + Copy,
    F: Read + Write + Seek + OpenFile + AsRawFd + Drop,
{
    type Calls = SegmentFile<F>;

    fn take_folder(&mut self, alloc: Global, folder: &str) -> Result<(), SpoolFault> {
        make_folder(&self.rt, folder).map_err(folder_fault)?;
        self.check_folder(folder)?;
        let file = match self.open_lock(alloc, folder) {
            Ok(file) => file,
            Err(error) => return Err(SpoolFault::Lock(system_number(&error))),
        };
        if flock(file.as_raw_fd(), LOCK_EX | LOCK_NB) != 0 {
            let error = io::Error::from_raw_os_error(os::errno());
            return if error.kind() == ErrorKind::WouldBlock {
                Err(SpoolFault::Held)
            } else {
                Err(SpoolFault::Lock(system_number(&error)))
            };
        }
        self.lock = Some(file);
        Ok(())
    }

    fn numbers(&self, alloc: Global, folder: &str) -> io::Result<Vec<u64>> {
        segment_numbers(&self.rt, alloc, folder)
    }

    fn find(
        &self,
        alloc: Global,
        folder: &str,
        number: u64,
    ) -> io::Result<(LoggedFile<SegmentFile<F>>, Vec<u8>)> {
        find_segment(&self.rt, alloc, folder, number)
    }

    fn make(
        &self,
        alloc: Global,
        folder: &str,
        number: u64,
    ) -> io::Result<LoggedFile<SegmentFile<F>>> {
        make_segment(&self.rt, alloc, folder, number)
    }

    fn remove(&self, alloc: Global, folder: &str, number: u64) -> io::Result<()> {
        remove_segment(&self.rt, alloc, folder, number)
    }

    fn set_aside(&self, alloc: Global, folder: &str, number: u64) -> io::Result<()> {
        set_segment_aside(&self.rt, alloc, folder, number)
    }
}
