//! The chain of the lines of a run, and whether the sums of the lines are right.

ghost use Rattle.std.specs.Prelude.{◌≡◌, ◌↔◌, IsTrue};
ghost use Rattle.rad_audit.specs.Chained.{Fits, left_out, sum_of};

use ledger_files::{Chain, split_sum};
use sha2::{Digest, Sha256};

/// What the end of a line says.
#[derive(Clone, Copy)]
pub struct LineSum {
    /// The SHA-256 of what stands before the sum; none if that, or a part of it, is left out.
    pub digest: Option<[u8; 32]>,
    /// The sum.
    pub sum: [u8; 32],
}

impl LineSum {
    ghost use Rattle.std.specs.Prelude.{◌≡◌, None};
    ghost use Rattle.rad_audit.specs.Chained.{HasLineSum};

    /// Returns what the end of a line says, which is given without its line end, if it ends with a sum.
    pub fn of(line: &[u8]) -> Option<LineSum>
        ensures { HasLineSum line.now result }
    {
        let found = split_sum(line)?;
        let sum = found.1;
        let digest = Sha256::digest(found.0);
        Some(LineSum {
            digest: Some(digest),
            sum,
        })
    }

    /// Returns the same of a line that is left out, or a part of it.
    pub fn left_out(sum: [u8; 32]) -> LineSum
        ensures { (result.digest ≡ None) × (result.sum ≡ sum) }
    {
        LineSum { digest: None, sum }
    }
}

/// What is known of the chain of a run.
#[derive(Clone, Copy)]
pub struct RunChain {
    /// The sum of the last line; none if any is right behind it.
    last: Option<[u8; 32]>,
    /// Whether sums are looked at: the last `begin` has one, or none was read.
    sealed: bool,
    /// The number of the file that comes next: 0 if no `begin` was read, else one above that of the last one.
    next: u64,
    /// How many lines are left out, or a part of them.
    hidden: u64,
    /// Whether a `begin` had no sum.
    bare: bool,
}

impl RunChain {
    ghost use Rattle.std.specs.Prelude.{◌≡◌, ◌↔◌, ◌+◌, ◌-◌, ◌^◌, ◌||◌, List, Option, Some, None, true, false, min, not, is_some, if◌then◌else◌, IsTrue};
    ghost use Rattle.ledger_files.specs.Chains.{chain_start};
    ghost use Rattle.rad_audit.specs.Chained.{Fits, IsRightBegin, IsRightLine, left_out, sum_of};

    /// Returns the chain of a run of which no line was read.
    pub fn new() -> RunChain
        ensures last { (result.last ≡ Some chain_start) × (result.sealed ≡ true) }
        ensures counts { (result.next ≡ 0) × (result.hidden ≡ 0) × (result.bare ≡ false) }
    {
        RunChain {
            last: Some(Chain::new().sum()),
            sealed: true,
            next: 0,
            hidden: 0,
            bare: false,
        }
    }

    /// Takes a `begin` line of this file, whose end says this. Returns whether its sum is right.
    pub fn begin(&mut self, file: u64, line: Option<LineSum>) -> bool
        ensures right { IsTrue result ↔ IsRightBegin self.old file line }
        ensures last { (self.new.last ≡ sum_of line) × (self.new.sealed ≡ is_some line) }
        ensures counts { (self.new.next ≡ min (file + 1) (2 ^ 64 - 1)) × (self.new.hidden ≡ min (self.old.hidden + left_out line) (2 ^ 64 - 1)) × (self.new.bare ≡ (self.old.bare || not (is_some line))) }
    {
        let is_right = match line {
            None => self.next == 0 || !self.sealed,
            Some(its) => self.next != file || !self.sealed || fits(self.last, its),
        };
        self.last = sum_in(line);
        self.sealed = line.is_some();
        self.next = file.saturating_add(1);
        self.hidden = self.hidden.saturating_add(count_of(line));
        self.bare = self.bare || line.is_none();
        is_right
    }

    /// Takes another line, whose end says this. Returns whether its sum is right.
    pub fn pass(&mut self, line: Option<LineSum>) -> bool
        ensures right { IsTrue result ↔ IsRightLine self.old line }
        ensures last { self.new.last ≡ (if self.old.sealed then sum_of line else self.old.last) }
        ensures counts { (self.new.next ≡ self.old.next) × (self.new.hidden ≡ min (self.old.hidden + left_out line) (2 ^ 64 - 1)) }
        ensures sealed { (self.new.sealed ≡ self.old.sealed) × (self.new.bare ≡ self.old.bare) }
    {
        self.hidden = self.hidden.saturating_add(count_of(line));
        if !self.sealed {
            return true;
        }
        let is_right = match line {
            None => false,
            Some(its) => fits(self.last, its),
        };
        self.last = sum_in(line);
        is_right
    }

    /// Returns the sum of the last line, if that is known.
    pub fn last(&self) -> Option<[u8; 32]>
        ensures { result ≡ self.now.last }
    {
        self.last
    }

    /// Returns the number of the file that comes next.
    pub fn next(&self) -> u64
        ensures { result ≡ self.now.next }
    {
        self.next
    }

    /// Returns the number of the file that is read; 0 if no `begin` was.
    pub fn file(&self) -> u64
        ensures { result ≡ self.now.next - 1 }
    {
        self.next.saturating_sub(1)
    }

    /// Whether sums are looked at.
    pub fn is_sealed(&self) -> bool
        ensures { result ≡ self.now.sealed }
    {
        self.sealed
    }

    /// Returns how many lines are left out, or a part of them.
    pub fn hidden(&self) -> u64
        ensures { result ≡ self.now.hidden }
    {
        self.hidden
    }

    /// Whether a `begin` line had no sum.
    pub fn is_bare(&self) -> bool
        ensures { result ≡ self.now.bare }
    {
        self.bare
    }
}

/// Whether the sum of a line is right behind a line of this sum.
fn fits(last: Option<[u8; 32]>, line: LineSum) -> bool
    ensures { IsTrue result ↔ Fits last line }
{
    match (last, line.digest) {
        (Some(sum), Some(digest)) => {
            let mut chain = Chain::from_sum(sum);
            chain.add_digest(digest);
            chain.sum() == line.sum
        }
        _ => true,
    }
}

fn sum_in(line: Option<LineSum>) -> Option<[u8; 32]>
    ensures { result ≡ sum_of line }
{
    match line {
        Some(its) => Some(its.sum),
        None => None,
    }
}

/// How many lines are left out, or a part of them: this one, or none.
fn count_of(line: Option<LineSum>) -> u64
    ensures { result ≡ left_out line }
{
    match line {
        Some(LineSum { digest: None, .. }) => 1,
        _ => 0,
    }
}
