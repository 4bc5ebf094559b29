//! How far the entries of each lane are written.

ghost use Rattle.std.specs.Prelude.{◌≡◌, ◌==◌, ◌+◌, ◌-◌, ◌^◌, if◌then◌else◌, get_or, min, slice_set};
ghost use Rattle.ledger_writer.specs.Progress.{at_next_file, not_begun, passed_by, start_by};

/// How far the entries of a lane are written.
#[derive(Clone, Copy, Debug, PartialEq, Eq)]
pub(crate) struct LaneProgress {
    /// The serial behind the last entry that was written.
    pub(crate) next: u64,
    /// The serial that the file that is open begins with, as its first line says.
    pub(crate) from: u64,
    /// The serial of the first entry that was written to that file.
    pub(crate) first: u64,
    /// How many entries were written to it.
    pub(crate) held: u64,
}

/// Nothing is written.
pub(crate) const NOT_BEGUN: LaneProgress = LaneProgress {
    next: 0,
    from: 0,
    first: 0,
    held: 0,
};

impl LaneProgress {
    /// Returns it once the entry of this serial is written to the file that is open.
    pub(crate) fn passed(self, serial: u64) -> LaneProgress
        ensures { result ≡ passed_by serial self }
    {
        LaneProgress {
            next: behind(serial),
            from: self.from,
            first: self.first_with(serial),
            held: behind(self.held),
        }
    }

    /// Returns the serial of the first entry that was written to the file, once this one is.
    fn first_with(self, serial: u64) -> u64
        ensures { result ≡ (if self.held == 0 then serial else self.first) }
    {
        if self.held == 0 { serial } else { self.first }
    }

    /// Returns the serial that the next file begins with: that of the file before, if this is gone with its entries.
    pub(crate) fn start(self, is_gone: bool) -> u64
        ensures { result ≡ start_by is_gone self }
    {
        if is_gone { self.from } else { self.next }
    }

    /// Returns it once the next file is begun.
    pub(crate) fn at_next_file(self, is_gone: bool) -> LaneProgress
        ensures { result ≡ at_next_file is_gone self }
    {
        LaneProgress {
            next: self.next,
            from: self.start(is_gone),
            first: self.first,
            held: 0,
        }
    }
}

/// Returns the progress of a lane. Of one that the run has not nothing is written.
pub(crate) fn progress_at(lanes: &[LaneProgress], lane: usize) -> LaneProgress
    ensures { result ≡ get_or lanes.now lane not_begun }
{
    match lanes.get(lane) {
        Some(progress) => *progress,
        None => NOT_BEGUN,
    }
}

/// Sets the progress of a lane, if the run has it.
pub(crate) fn put_at(lanes: &mut Vec<LaneProgress>, lane: usize, progress: LaneProgress)
    ensures { lanes.new.items ≡ slice_set lanes.old.items lane progress }
{
    if let Some(place) = lanes.get_mut(lane) {
        *place = progress;
    }
}

/// Returns the number behind this one. The greatest has none: it stands for itself.
fn behind(number: u64) -> u64
    ensures { result ≡ min (number + 1) (2 ^ 64 - 1) }
{
    number.saturating_add(1)
}
