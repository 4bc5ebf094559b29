//! The files of a run, and the lines that are to be written to the one that is open.

ghost use Rattle.std.specs.Prelude.{◌≡◌, ◌↔◌, ◌≤◌, ◌<◌, ◌+◌, [], ◌∷◌, ◌++◌, List, ℕ, Some, vec_len, slice_index, slice_index_or, slice_range, IfSome, IsTrue, MatchOption, MatchResult, OnOk};
ghost use Rattle.ledger_files.specs.Batches.{HoldsLines, IsHeadOf};
ghost use Rattle.ledger_files.specs.Chains.{chain_of};
ghost use Rattle.ledger_files.specs.Files.{IsOpen, synced, wrote};
ghost use Rattle.ledger_files.specs.Passing.{HasPassed, newly_passed};
ghost use Rattle.ledger_files.specs.Keeping.{KeepsAll, KeepsFile, KeepsLines};
ghost use Rattle.ledger_files.specs.Runs.{IsRun};
ghost use Rattle.ledger_files.specs.Tails.{body_in, line_after};

use crate::batch::{Batch, LineHead};
use crate::chain::{Chain, SUM_OCTETS};
use crate::disk::{DiskFault, LedgerDisk};
use crate::pending::Pending;
use std::alloc::{AllocError, Global};
use std::marker::Sync;
use std::thread::Threads;

/// The files of a run on a disk, and the lines that are to be written to the one that is open: the line that begins it,
/// lines of entries, and the line that ends the run.
///
/// A file is its begin line, whole lines of entries, and the front of one more line if that was cut short. The next file
/// has that line again, whole and sealed anew; the line that ends the run is made anew for it. `IsRun` says so of a disk that keeps a
/// record of its files, and that each line is sealed behind the one before.
#[derive(Drop)]
pub struct RunFiles<D: Drop> {
    disk: D,
    first: Pending,
    batch: Batch,
    last: Pending,
    /// The chain of the lines that were passed as written whole.
    chain: Chain,
}

impl<D: LedgerDisk + Drop> RunFiles<D> {
    /// Makes a value of a disk without files of the run, and of a batch without lines.
    pub fn new(alloc: Global, disk: D, batch: Batch) -> RunFiles<D>
        ensures run { HoldsLines batch [] → D.files disk ≡ Some [] → IsRun (D.files result.disk) result [] }
        ensures chain { HasPassed result [] }
    {
        RunFiles {
            disk,
            first: Pending::new(Vec::new(alloc)),
            batch,
            last: Pending::new(Vec::new(alloc)),
            chain: Chain::new(),
        }
    }

    /// Returns the disk.
    pub fn disk(&self) -> &D
        ensures { result.now ≡ self.now.disk }
    {
        &self.disk
    }

    /// Returns the lines of entries.
    pub fn batch(&self) -> &Batch
        ensures { result.now ≡ self.now.batch }
    {
        &self.batch
    }

    /// Returns the sum of the lines that were passed as written whole.
    pub fn sum(&self) -> [u8; SUM_OCTETS]
        ensures sum { result ≡ self.now.chain.sum }
        ensures lines { (lines : List (List ℕ)) → HasPassed self.now lines → result ≡ chain_of lines }
    {
        self.chain.sum()
    }

    /// Returns whether the line that begins the file is written whole.
    pub fn is_begun(&self) -> bool
        ensures { IsTrue result ↔ (self.now.first.done ≡ vec_len self.now.first.octets) }
    {
        self.first.is_done()
    }

    /// Returns whether the line that ends the run is made.
    pub fn is_ended(&self) -> bool
        ensures { IsTrue result ↔ (0 < vec_len self.now.last.octets) }
    {
        !self.last.is_empty()
    }

    /// Returns whether all lines are written.
    pub fn is_done(&self) -> bool
        ensures { IsTrue result ↔ ((self.now.first.done ≡ vec_len self.now.first.octets) × (self.now.batch.whole ≡ vec_len self.now.batch.ends) × (self.now.last.done ≡ vec_len self.now.last.octets)) }
    {
        self.first.is_done() && self.batch.is_done() && self.last.is_done()
    }

    /// Removes the lines of entries, all of which are written.
    pub fn clear(&mut self)
        requires { self.old.batch.whole ≡ vec_len self.old.batch.ends }
        ensures none { HoldsLines self.new.batch [] }
        ensures last { (self.new.last ≡ self.old.last) × (self.new.chain ≡ self.old.chain) }
        ensures run { (lines : List (List ℕ)) → IsRun (D.files self.old.disk) self.old lines → IsRun (D.files self.new.disk) self.new lines }
    {
        self.batch.clear();
    }

    /// Adds the line of an entry, which has this body, behind the others.
    ///
    /// # Errors
    ///
    /// `AllocError` if memory is refused. The lines stay as they are.
    #[tactic(auto, using(crate::proofs::RunCalls::batch_kept))]
    pub fn add(&mut self, head: LineHead, body: &[u8]) -> Result<(), AllocError>
        requires { vec_len self.old.last.octets ≡ 0 }
        ensures last { (self.new.last ≡ self.old.last) × (self.new.chain ≡ self.old.chain) }
        ensures run { (lines : List (List ℕ)) → IsRun (D.files self.old.disk) self.old lines → MatchResult result (λ _. IsRun (D.files self.new.disk) self.new (lines ++ body.now ∷ [])) (λ _. IsRun (D.files self.new.disk) self.new lines) }
    {
        self.batch.add(head, body)?;
        Ok(())
    }

    /// Sets the line that ends the run, which has this body, if all lines before it were passed. No entry may be added behind it.
    ///
    /// # Errors
    ///
    /// `AllocError` if memory is refused. There is no such line then.
    pub fn end_with(&mut self, body: Vec<u8>) -> Result<(), AllocError>
        requires { vec_len self.old.last.octets ≡ 0 }
        ensures last { OnOk result (IsTrue self.old.first.is_passed → self.old.batch.whole ≡ vec_len self.old.batch.ends → self.new.last.octets.items ≡ line_after self.old.chain.sum body.items) }
        ensures chain { self.new.chain ≡ self.old.chain }
        ensures run { (lines : List (List ℕ)) → IsRun (D.files self.old.disk) self.old lines → IsRun (D.files self.new.disk) self.new lines }
    {
        if !self.first.is_passed() || !self.batch.is_done() {
            return Ok(());
        }
        let last = Pending::seal(body, self.chain)?;
        self.last = last;
        Ok(())
    }

    /// Begins the next file, of this path and with a first line of this body. The line of an entry that was not written whole is
    /// written to it from its start. The line that ends the run is no longer set.
    ///
    /// # Errors
    ///
    /// `Memory` if memory is refused, and that of [`LedgerDisk::create`]. The file that was open stays open.
    pub fn begin_file(
        &mut self,
        alloc: Global,
        path: String,
        body: Vec<u8>,
    ) -> Result<(), DiskFault>
        ensures last { OnOk result (vec_len self.new.last.octets ≡ 0) }
        ensures chain { self.new.chain ≡ self.old.chain }
        ensures run { (lines : List (List ℕ)) → IsRun (D.files self.old.disk) self.old lines → IsRun (D.files self.new.disk) self.new lines }
    {
        let Ok(first) = Pending::seal(body, self.chain) else {
            return Err(DiskFault::Memory);
        };
        self.disk.create(path)?;
        self.first = first;
        self.batch.begin_line_again();
        self.last = Pending::new(Vec::new(alloc));
        Ok(())
    }

    /// Writes the line that begins the file and the lines of entries, as far as they are not written, if the file is still
    /// at its path. The lines of entries are sealed behind what was passed.
    ///
    /// # Errors
    ///
    /// `Gone` if no file is open or it is not at its path any more, and that of [`LedgerDisk::write`].
    pub fn write(&mut self) -> Result<(), DiskFault>
        ensures same { KeepsAll self.old self.new × (self.new.last.done ≡ self.old.last.done) }
        ensures begun { OnOk result (IsTrue self.new.first.is_passed) }
        ensures chain { (lines : List (List ℕ)) → HasPassed self.old lines → HasPassed self.new (lines ++ newly_passed self.old.first self.new.first) }
        ensures written { (self.old.first.done ≤ self.new.first.done) × (self.old.batch.done ≤ self.new.batch.done) × (D.files self.new.disk ≡ wrote (wrote (D.files self.old.disk) (slice_range self.old.first.octets.items self.old.first.done self.new.first.done)) (slice_range self.new.batch.octets.items self.old.batch.done self.new.batch.done)) }
        ensures all { OnOk result ((self.new.first.done ≡ vec_len self.old.first.octets) × (self.new.batch.done ≡ vec_len self.new.batch.octets)) }
        ensures run { (lines : List (List ℕ)) → IsRun (D.files self.old.disk) self.old lines → IsRun (D.files self.new.disk) self.new lines }
    {
        if !self.disk.is_open() {
            return Err(DiskFault::Gone);
        }
        self.disk.check_place()?;
        let begun = self.first.write(&mut self.disk);
        self.first.pass(&mut self.chain);
        begun?;
        self.batch.seal(self.chain);
        self.batch.write(&mut self.disk)?;
        Ok(())
    }

    /// Digests the lines of entries.
    ///
    /// # Errors
    ///
    /// That of [`Batch::digest`].
    pub fn digest<R: Threads + Sync>(&mut self, rt: &R) -> Result<(), AllocError>
        ensures same { KeepsFile self.old self.new × (self.new.chain ≡ self.old.chain) }
        ensures batch { (self.new.batch.done ≡ self.old.batch.done) × (self.new.batch.whole ≡ self.old.batch.whole) × KeepsLines self.old.batch self.new.batch }
        ensures all { OnOk result (vec_len self.new.batch.digests ≡ vec_len self.old.batch.ends) }
        ensures run { (lines : List (List ℕ)) → IsRun (D.files self.old.disk) self.old lines → IsRun (D.files self.new.disk) self.new lines }
    {
        self.batch.digest(rt)?;
        Ok(())
    }

    /// Passes the next line of an entry as written whole, if it is, and returns what it is of. It is then the next one of
    /// the chain.
    pub fn pass_line(&mut self) -> Option<LineHead>
        ensures same { KeepsFile self.old self.new × (self.new.batch.done ≡ self.old.batch.done) × KeepsLines self.old.batch self.new.batch }
        ensures passed { MatchOption result (self.new.batch.whole ≡ self.old.batch.whole) (λ head. (self.new.batch.whole ≡ self.old.batch.whole + 1) × IsHeadOf self.old.batch head × (slice_index self.old.batch.ends.items self.old.batch.whole ≤ self.old.batch.done)) }
        ensures rest { MatchOption result (IfSome (D.files self.old.disk) (λ files. IsOpen files → IsTrue self.old.first.is_passed → self.old.batch.whole < vec_len self.old.batch.ends → self.old.batch.done < slice_index self.old.batch.ends.items self.old.batch.whole)) (λ _. Unit {0}) }
        ensures none { MatchOption result (self.new.chain ≡ self.old.chain) (λ _. Unit {0}) }
        ensures chain { MatchOption result (Unit {0}) (λ _. (held : List (List ℕ)) → HoldsLines self.old.batch held → (lines : List (List ℕ)) → HasPassed self.old lines → HasPassed self.new (lines ++ body_in (slice_index_or held self.old.batch.whole []) ∷ [])) }
        ensures run { (lines : List (List ℕ)) → IsRun (D.files self.old.disk) self.old lines → IsRun (D.files self.new.disk) self.new lines }
    {
        if !self.disk.is_open() || !self.first.is_passed() {
            return None;
        }
        let head = self.batch.pass_line(&mut self.chain)?;
        Some(head)
    }

    /// Writes the line that ends the run, as far as it is not written, if there is one and all lines before it were passed.
    ///
    /// # Errors
    ///
    /// `Gone` if no file is open, and that of [`LedgerDisk::write`].
    pub fn write_end(&mut self) -> Result<(), DiskFault>
        ensures same { (self.new.first ≡ self.old.first) × (self.new.batch ≡ self.old.batch) × (self.new.last.octets ≡ self.old.last.octets) }
        ensures written { (self.old.last.done ≤ self.new.last.done) × (D.files self.new.disk ≡ wrote (D.files self.old.disk) (slice_range self.old.last.octets.items self.old.last.done self.new.last.done)) }
        ensures all { OnOk result (IsTrue self.old.first.is_passed → self.old.batch.whole ≡ vec_len self.old.batch.ends → self.new.last.done ≡ vec_len self.old.last.octets) }
        ensures chain { (lines : List (List ℕ)) → HasPassed self.old lines → HasPassed self.new (lines ++ newly_passed self.old.last self.new.last) }
        ensures run { (lines : List (List ℕ)) → IsRun (D.files self.old.disk) self.old lines → IsRun (D.files self.new.disk) self.new lines }
    {
        if self.last.is_empty() || !self.first.is_passed() || !self.batch.is_done() {
            return Ok(());
        }
        if !self.disk.is_open() {
            return Err(DiskFault::Gone);
        }
        let ended = self.last.write(&mut self.disk);
        self.last.pass(&mut self.chain);
        ended
    }

    /// Has the system put on its disk what was written to the file that is open.
    ///
    /// # Errors
    ///
    /// That of [`LedgerDisk::sync`]. What was not synced stays so.
    pub fn sync(&mut self) -> Result<(), DiskFault>
        ensures same { (self.new.first ≡ self.old.first) × (self.new.batch ≡ self.old.batch) × (self.new.last ≡ self.old.last) × (self.new.chain ≡ self.old.chain) }
        ensures synced { MatchResult result (λ _. D.files self.new.disk ≡ synced (D.files self.old.disk)) (λ _. D.files self.new.disk ≡ D.files self.old.disk) }
        ensures run { (lines : List (List ℕ)) → IsRun (D.files self.old.disk) self.old lines → IsRun (D.files self.new.disk) self.new lines }
    {
        self.disk.sync()
    }
}
