//! What the thread that writes a ledger needs of a disk.

ghost use Rattle.std.specs.Prelude.{◌≡◌, ◌↔◌, ◌≤◌, ◌<◌, ◌^◌, ℕ, List, length, take, Option, None, IfSome, IsTrue, MatchResult, string_bytes};
ghost use Rattle.ledger_files.specs.Files.{File, made, wrote, synced, IsOpen, octets_of_open};

use crate::chain::SUM_OCTETS;
use std::alloc::Global;

/// Why a step on a disk failed. A step that the system refused has the system's error number, or 0 if it gave none.
#[derive(Clone, Copy, Debug, PartialEq, Eq)]
pub enum DiskFault {
    /// The file is no longer at its path.
    Gone,
    /// A file could not be made.
    Create(u32),
    /// Octets could not be written to a file.
    Write(u32),
    /// A file could not be synced.
    Sync(u32),
    /// Memory was refused.
    Memory,
}

/// A file that a run found in its folder.
#[derive(Drop)]
pub struct FoundFile {
    /// Its name in the folder.
    pub name: String,
    /// The sum of its last whole line, if that has one.
    pub sum: Option<[u8; SUM_OCTETS]>,
    /// Whether its name says that it is compressed. Its end was not read then.
    pub is_compressed: bool,
}

/// Keeps one file of a ledger open at a time.
///
/// A disk may keep a record of its files. Contracts see each file that was made on such a disk, and what was written to
/// it. They say nothing of a disk without a record.
pub trait LedgerDisk {
    ghost files: { Self → Option (List File) } = { λ _. None };

    /// Makes a file of this path, which must not exist yet, in place of the one that is open. That one is closed, and what
    /// was not synced of it stays so.
    ///
    /// # Errors
    ///
    /// `Create` if the system refuses it. The file that was open stays open.
    fn create(&mut self, path: String) -> Result<(), DiskFault>
        ensures { MatchResult result (λ _. files self.new ≡ made (files self.old) (string_bytes path)) (λ _. files self.new ≡ files self.old) };

    /// Returns whether a file is open.
    fn is_open(&self) -> bool
        ensures { IfSome (files self.now) (λ files. IsTrue result ↔ IsOpen files) };

    /// Returns how many octets were written to the file that is open.
    fn size(&self) -> u64
        ensures { IfSome (files self.now) (λ files. length (octets_of_open files) < 2 ^ 64 → result ≡ length (octets_of_open files)) };

    /// Fails unless the file that is open is still at its path.
    ///
    /// # Errors
    ///
    /// `Gone` if it is not.
    fn check_place(&self) -> Result<(), DiskFault>;

    /// Writes the first of these octets to the file that is open, and returns how many.
    ///
    /// # Errors
    ///
    /// `Write` if the system refuses it.
    fn write(&mut self, octets: &[u8]) -> Result<usize, DiskFault>
        ensures { MatchResult result (λ count. (count ≤ length octets.now) × (files self.new ≡ wrote (files self.old) (take count octets.now))) (λ _. files self.new ≡ files self.old) };

    /// Finds the file of another run than this one that was written last in this folder, and the sum of its last whole line,
    /// without reading all of it. There is none if there is no such file, or if it can't be read.
    fn find_before(&self, alloc: Global, folder: &str, run: u64) -> Option<FoundFile>;

    /// Has the system put on its disk what was written to the file that is open, if there is one.
    ///
    /// # Errors
    ///
    /// `Sync` if the system refuses it. What was not synced stays so.
    fn sync(&mut self) -> Result<(), DiskFault>
        ensures { MatchResult result (λ _. files self.new ≡ synced (files self.old)) (λ _. files self.new ≡ files self.old) };
}
