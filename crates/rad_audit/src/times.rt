//! The moments of the entries of a lane.

/// The moment of the last entry of a lane, and how often one was before that of the entry before it.
#[derive(Clone, Copy)]
pub struct Times {
    /// The moment of the last entry, as a number; 0 if there is none yet.
    last: u64,
    /// How many steps back in time there are.
    back: u64,
}

impl Times {
    ghost use Rattle.std.specs.Prelude.{◌≡◌};
    ghost use Rattle.rad_audit.specs.Times.{back_after};

    /// Returns those of a lane without entries.
    pub fn new() -> Times
        ensures { (result.last ≡ 0) × (result.back ≡ 0) }
    {
        Times { last: 0, back: 0 }
    }

    /// Takes the moment of an entry.
    pub fn take(&mut self, moment: u64)
        ensures last { self.new.last ≡ moment }
        ensures back { self.new.back ≡ back_after self.old.last moment self.old.back }
    {
        if moment < self.last {
            self.back = self.back.saturating_add(1);
        }
        self.last = moment;
    }

    /// Returns how many steps back in time there are.
    pub fn back(&self) -> u64
        ensures { result ≡ self.now.back }
    {
        self.back
    }
}
