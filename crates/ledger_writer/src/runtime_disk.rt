//! The files of a ledger, on the disks of a runtime.

use crate::file_before::find_file;
use ledger_files::{DiskFault, FoundFile, LedgerDisk};
use ledger_state::system_number;
use std::alloc::{AllocGlobal, Global};
use std::fs::{self, Files, Metadata, OpenFile, OpenOptions, Permissions};
use std::io::{self, ErrorKind, Read, Seek, Write};
use std::os::unix::fs::{MetadataExt, OpenOptionsExt, PermissionsExt};

/// Who may read and write a file: its owner may do both, and its group may read it.
const MODE: u32 = 0o640;

/// The disks of a runtime, and the file that is open.
#[derive(Drop)]
pub struct RuntimeDisk<R, F: Drop> {
    rt: R,
    open: Option<OpenedFile<F>>,
    /// A file that was made and is not open yet, since a step behind that failed.
    made: Option<MadeFile<F>>,
}

/// A file that was made.
#[derive(Drop)]
struct MadeFile<F: Drop> {
    file: F,
    path: String,
}

/// A file that is open, and where it is found again.
#[derive(Drop)]
struct OpenedFile<F: Drop> {
    file: F,
    path: String,
    /// The device and the inode, which tell the file from another one at the same path.
    device: u64,
    inode: u64,
    /// How many octets were written to it.
    size: u64,
    /// Whether octets were written that are not synced.
    is_unsynced: bool,
}

impl<R: Files<File = F>, F: Drop> RuntimeDisk<R, F> {
    /// Makes a value with no open file.
    pub fn new(rt: R) -> RuntimeDisk<R, F> {
        RuntimeDisk {
            rt,
            open: None,
            made: None,
        }
    }

    /// Makes a file of this path, or takes the one that was made for it. It is written at its end, also where others cut it.
    fn make(&mut self, path: String) -> io::Result<MadeFile<F>> {
        if let Some(made) = self.made.take()
            && made.path == path
        {
            return Ok(made);
        }
        let file = OpenOptions::new()
            .append(true)
            .create_new(true)
            .mode(MODE)
            .open(&self.rt, path.as_str())?;
        Ok(MadeFile { file, path })
    }
}

/// Sets a file's mode, and returns what the system knows of it.
fn set_up<F: OpenFile>(file: &F) -> io::Result<Metadata> {
    file.set_permissions(Permissions::from_mode(MODE))?;
    file.metadata()
}

/// Returns the fault of a file that could not be made.
fn create_fault(error: io::Error) -> DiskFault {
    DiskFault::Create(system_number(&error))
}

impl<R, F> LedgerDisk for RuntimeDisk<R, F>
where
    R: Files<File = F> + AllocGlobal + Copy,
    F: Read + Write + Seek + OpenFile + Drop,
{
    /// The file has its mode whatever the umask. If its mode can't be set or the file can't be looked at, the next call
    /// with the same path goes on with it.
    fn create(&mut self, path: String) -> Result<(), DiskFault> {
        let made = self.make(path).map_err(create_fault)?;
        let found = match set_up(&made.file) {
            Ok(found) => found,
            Err(error) => {
                self.made = Some(made);
                return Err(create_fault(error));
            }
        };
        self.open = Some(OpenedFile {
            device: found.dev(),
            inode: found.ino(),
            file: made.file,
            path: made.path,
            size: 0,
            is_unsynced: false,
        });
        Ok(())
    }

    fn is_open(&self) -> bool {
        self.open.is_some()
    }

    fn size(&self) -> u64 {
        match &self.open {
            Some(open) => open.size,
            None => 0,
        }
    }

    fn check_place(&self) -> Result<(), DiskFault> {
        let Some(open) = &self.open else {
            return Err(DiskFault::Gone);
        };
        match fs::symlink_metadata(&self.rt, open.path.as_str()) {
            Ok(found) if found.dev() == open.device && found.ino() == open.inode => Ok(()),
            _ => Err(DiskFault::Gone),
        }
    }

    fn write(&mut self, octets: &[u8]) -> Result<usize, DiskFault> {
        let Some(open) = &mut self.open else {
            return Err(DiskFault::Gone);
        };
        match open.file.write(octets) {
            Ok(0) => Err(DiskFault::Write(0)),
            Ok(count) => {
                open.size = open.size.saturating_add(count as u64);
                open.is_unsynced = true;
                Ok(count.min(octets.len()))
            }
            Err(error) if error.kind() == ErrorKind::Interrupted => Ok(0),
            Err(error) => Err(DiskFault::Write(system_number(&error))),
        }
    }

    fn find_before(&self, alloc: Global, folder: &str, run: u64) -> Option<FoundFile> {
        find_file(&self.rt, alloc, folder, run)
    }

    fn sync(&mut self) -> Result<(), DiskFault> {
        let Some(open) = &mut self.open else {
            return Ok(());
        };
        if !open.is_unsynced {
            return Ok(());
        }
        match open.file.sync_data() {
            Ok(()) => {
                open.is_unsynced = false;
                Ok(())
            }
            Err(error) => Err(DiskFault::Sync(system_number(&error))),
        }
    }
}
