//! The files of a run.

use ledger_rules::Gap;

/// Which files of a run were read.
#[derive(Clone, Copy)]
pub struct RunFiles {
    /// The number of the first one.
    first: u64,
    /// One more than the greatest number.
    next: u64,
}

impl RunFiles {
    ghost use Rattle.std.specs.Prelude.{◌≡◌, ◌+◌, ◌-◌, ◌^◌, ◌==◌, ◌<◌, ◌↔◌, not, max, min, IsTrue};
    ghost use Rattle.rad_audit.specs.Files.{LacksFiles};

    /// Returns those of a run whose first file that is read has this number.
    pub fn from(file: u64) -> RunFiles
        ensures { (result.first ≡ file) × (result.next ≡ min (file + 1) (2 ^ 64 - 1)) }
    {
        RunFiles {
            first: file,
            next: file.saturating_add(1),
        }
    }

    /// Takes the file of this number, and returns those that are missing before it, if any are.
    pub fn take(&mut self, file: u64) -> Option<Gap>
        ensures lacks { LacksFiles self.old.next file result }
        ensures taken { (self.new.first ≡ self.old.first) × (self.new.next ≡ max self.old.next (min (file + 1) (2 ^ 64 - 1))) }
    {
        let next = self.next;
        self.next = next.max(file.saturating_add(1));
        if file <= next {
            return None;
        }
        Some(Gap {
            first: next,
            last: file - 1,
        })
    }

    /// Whether the file of this number comes again, or too late.
    pub fn has_passed(&self, file: u64) -> bool
        ensures { IsTrue result ↔ (file < self.now.next) }
    {
        file < self.next
    }

    /// Whether no file behind the one of this number was read, and this one was.
    pub fn end_with(&self, file: u64) -> bool
        ensures { result ≡ (self.now.next == min (file + 1) (2 ^ 64 - 1)) }
    {
        self.next == file.saturating_add(1)
    }

    /// Whether the run has a file before the first one that was read.
    pub fn begin_late(&self) -> bool
        ensures { result ≡ not (self.now.first == 0) }
    {
        self.first != 0
    }
}
