//! Octets that are to be written, and how far they are written.

ghost use Rattle.std.specs.Prelude.{◌≡◌, ◌≤◌, length, vec_len, slice_range, IsOk, OnOk};
ghost use Rattle.ledger_files.specs.Files.{wrote};

use crate::chain::Chain;
use crate::disk::{DiskFault, LedgerDisk};
use crate::tail::{NO_TAIL, body_of, write_tail};
use std::alloc::AllocError;

/// Writes octets that are written up to `done`, and returns up to where they are written then. If all are written, it
/// asks nothing of the disk.
///
/// # Errors
///
/// That of [`LedgerDisk::write`]. If the disk takes nothing as often as there are octets, it is `Write(0)`.
pub fn write_rest<D: LedgerDisk>(
    disk: &mut D,
    octets: &[u8],
    done: usize,
) -> (usize, Result<(), DiskFault>)
    requires { done ≤ length octets.now }
    ensures written { (done ≤ result.0) × (result.0 ≤ length octets.now) × (D.files disk.new ≡ wrote (D.files disk.old) (slice_range octets.now done result.0)) }
    ensures all { OnOk result.1 (result.0 ≡ length octets.now) }
    ensures none { done ≡ length octets.now → (disk.new ≡ disk.old) × IsOk result.1 }
{
    let mut at = done;
    for _ in 0..octets.len() {
        if at == octets.len() {
            return (at, Ok(()));
        }
        match disk.write(&octets[at..]) {
            Ok(count) => at += count,
            Err(fault) => return (at, Err(fault)),
        }
    }
    if at == octets.len() {
        (at, Ok(()))
    } else {
        (at, Err(DiskFault::Write(0)))
    }
}

/// The octets of a line that are to be written, and how many of them are.
#[derive(Drop)]
pub struct Pending {
    octets: Vec<u8>,
    done: usize,
    /// Whether the line was passed as written whole.
    is_passed: bool,
    ghost within: { done ≤ vec_len octets },
}

impl Pending {
    ghost use Rattle.std.specs.Prelude.{◌≡◌, ◌↔◌, ◌≤◌, ◌++◌, false, ℕ, List, vec_len, slice_range, IfOk, IsOk, IsTrue, OnOk};
    ghost use Rattle.ledger_files.specs.Chains.{chain_of};
    ghost use Rattle.ledger_files.specs.Files.{wrote};
    ghost use Rattle.ledger_files.specs.Passing.{Passes, newly_passed};
    ghost use Rattle.ledger_files.specs.Tails.{line_after};

    /// Makes a value of the line of a body that follows this chain. None of its octets is written.
    ///
    /// # Errors
    ///
    /// `AllocError` if memory is refused.
    pub fn seal(body: Vec<u8>, before: Chain) -> Result<Pending, AllocError>
        ensures { IfOk result (λ pending. (pending.octets.items ≡ line_after before.sum body.items) × (pending.done ≡ 0) × (pending.is_passed ≡ false)) }
    {
        let mut chain = before;
        chain.add(body.as_slice());
        let mut tail = NO_TAIL;
        write_tail(chain.sum(), &mut tail);
        let mut line = body;
        line.extend_from_slice(&tail)?;
        Ok(Pending::new(line))
    }

    /// Makes a value of octets, none of which is written.
    pub fn new(octets: Vec<u8>) -> Pending
        ensures { (result.octets.items ≡ octets.items) × (result.done ≡ 0) × (result.is_passed ≡ false) }
    {
        Pending {
            octets,
            done: 0,
            is_passed: false,
        }
    }

    /// Returns whether all octets are written.
    pub fn is_done(&self) -> bool
        ensures { IsTrue result ↔ (self.now.done ≡ vec_len self.now.octets) }
    {
        self.done == self.octets.len()
    }

    /// Returns whether there are no octets, written or not.
    pub fn is_empty(&self) -> bool
        ensures { IsTrue result ↔ (vec_len self.now.octets ≡ 0) }
    {
        self.octets.is_empty()
    }

    /// Returns whether the line was passed as written whole.
    pub fn is_passed(&self) -> bool
        ensures { result ≡ self.now.is_passed }
    {
        self.is_passed
    }

    /// Passes the line as written whole, if it is and was not passed before: it is then the next one of the chain.
    pub fn pass(&mut self, chain: &mut Chain)
        ensures passes { Passes self.old self.new }
        ensures chain { (bodies : List (List ℕ)) → chain.old.sum ≡ chain_of bodies → chain.new.sum ≡ chain_of (bodies ++ newly_passed self.old self.new) }
    {
        if self.is_passed || !self.is_done() {
            return;
        }
        chain.add(body_of(self.octets.as_slice()));
        self.is_passed = true;
    }

    /// Writes the octets that are not written yet.
    ///
    /// # Errors
    ///
    /// That of [`write_rest`]. What was written before counts as written.
    pub fn write<D: LedgerDisk>(&mut self, disk: &mut D) -> Result<(), DiskFault>
        ensures octets { (self.new.octets ≡ self.old.octets) × (self.new.is_passed ≡ self.old.is_passed) }
        ensures written { (self.old.done ≤ self.new.done) × (D.files disk.new ≡ wrote (D.files disk.old) (slice_range self.old.octets.items self.old.done self.new.done)) }
        ensures all { OnOk result (self.new.done ≡ vec_len self.old.octets) }
        ensures none { self.old.done ≡ vec_len self.old.octets → (disk.new ≡ disk.old) × IsOk result }
    {
        let (done, outcome) = write_rest(disk, self.octets.as_slice(), self.done);
        self.done = done;
        outcome
    }
}
