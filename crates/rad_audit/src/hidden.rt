//! Lines of a lane that are left out.

use ledger_lines::HiddenKind;

/// How many lines of a lane are left out, where their lane and their kind are told.
#[derive(Clone, Copy)]
pub struct HiddenLines {
    pub entries: u64,
    pub left: u64,
}

impl HiddenLines {
    ghost use Rattle.std.specs.Prelude.{◌≡◌, ◌+◌, ◌-◌, ◌^◌, min};
    ghost use Rattle.rad_audit.specs.Taking.{with_hidden};

    /// Returns those of a lane without lines.
    pub fn new() -> HiddenLines
        ensures { (result.entries ≡ 0) × (result.left ≡ 0) }
    {
        HiddenLines {
            entries: 0,
            left: 0,
        }
    }

    /// Counts a line of this kind.
    pub fn take(&mut self, kind: HiddenKind)
        ensures { self.new ≡ with_hidden kind self.old }
    {
        match kind {
            HiddenKind::Entry => self.entries = self.entries.saturating_add(1),
            HiddenKind::Left => self.left = self.left.saturating_add(1),
            HiddenKind::Unsent | HiddenKind::Again | HiddenKind::Resumed => {}
        }
    }
}
