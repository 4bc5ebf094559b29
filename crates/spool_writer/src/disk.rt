//! The disk that a spool is on.

ghost use Rattle.std.specs.Prelude.{◌≡◌, [], ◌∷◌, IfOk};
ghost use Rattle.spool_files.specs.Calls.{Made, Found};
ghost use Rattle.spool_files.specs.Logged.{log_of};

use crate::fault::SpoolFault;
use spool_files::{FileCalls, LoggedFile};
use std::alloc::Global;
use std::io;

/// The folders and files of a disk. But for what the calls of a file tell, nothing is proved of them.
pub trait SpoolDisk {
    /// The file of a segment.
    type Calls: FileCalls + Drop;

    /// Makes the folder, unless it is there, and takes the lock of its lock file, which this value holds from then on.
    ///
    /// # Errors
    ///
    /// If the folder can't be made, or others than its owner may use it, or another process holds the lock.
    fn take_folder(&mut self, alloc: Global, folder: &str) -> Result<(), SpoolFault>;

    /// Returns the numbers of the segments of a folder, in their order.
    ///
    /// # Errors
    ///
    /// If the system or memory refuses it.
    fn numbers(&self, alloc: Global, folder: &str) -> io::Result<Vec<u64>>;

    /// Opens the file of a segment, and reads its octets.
    ///
    /// # Errors
    ///
    /// If the system or memory refuses it.
    fn find(
        &self,
        alloc: Global,
        folder: &str,
        number: u64,
    ) -> io::Result<(LoggedFile<Self::Calls>, Vec<u8>)>
        ensures { IfOk result (λ found. log_of found.0 ≡ Found found.1.items ∷ []) };

    /// Makes the file of a segment, which must not exist yet, and has the system keep it.
    ///
    /// # Errors
    ///
    /// If the system or memory refuses it.
    fn make(&self, alloc: Global, folder: &str, number: u64) -> io::Result<LoggedFile<Self::Calls>>
        ensures { IfOk result (λ file. log_of file ≡ Made ∷ []) };

    /// Removes the file of a segment, and has the system keep that.
    ///
    /// # Errors
    ///
    /// If the system or memory refuses it.
    fn remove(&self, alloc: Global, folder: &str, number: u64) -> io::Result<()>;

    /// Renames the file of a damaged segment, so that it is no segment any more, and has the system keep that.
    ///
    /// # Errors
    ///
    /// If the system or memory refuses it.
    fn set_aside(&self, alloc: Global, folder: &str, number: u64) -> io::Result<()>;
}
