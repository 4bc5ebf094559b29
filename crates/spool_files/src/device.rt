//! The device that a segment is on, as far as a crash matters.

ghost use Rattle.std.specs.Prelude.{◌≡◌, ◌<◌, ◌≤◌, List, ℕ, length, OnOk, OnErr};
ghost use Rattle.spool_files.specs.Devices.{Only, Follows, Torn, Holds, Elapses};

/// A step of a device that failed.
#[derive(Clone, Copy)]
pub enum Step {
    /// Octets were to be written.
    Write,
    /// What was written was to be kept.
    Sync,
}

/// A device failed.
#[derive(Clone, Copy)]
pub struct DeviceFault {
    /// At which step.
    pub step: Step,
    /// The system's error number, or 0 if it gave none.
    pub number: u32,
}

/// The file of one segment.
pub trait Device {
    /// What the file has as long as nothing crashes.
    ghost seen: { Self → List ℕ };

    /// What a crash at this moment may leave of the file.
    ghost may_leave: { Self → List ℕ → Type 0 };

    /// The moment, as a number that doesn't fall.
    ghost moment: { Self → ℕ };

    /// What a crash at some moment from that one on might have left, in a call or between two.
    ghost left_since: { Self → ℕ → List ℕ → Type 0 };

    /// How often the device failed.
    ghost faults: { Self → ℕ };

    /// Writes octets at a place. Until a sync, a crash may leave any octets there.
    ///
    /// # Errors
    ///
    /// If the system refuses it. What the file has there then is not known.
    fn write_at(&mut self, at: usize, octets: &[u8]) -> Result<(), DeviceFault>
        requires { at ≤ length (seen self.old) }
        ensures written { OnOk result (Holds (seen self.old) at octets.now (seen self.new)) }
        ensures crash { Follows (Torn at (length octets.now)) (may_leave self.old) (may_leave self.new) }
        ensures time { Elapses (moment self.old) (moment self.new) (left_since self.old) (left_since self.new) (may_leave self.new) }
        ensures later { faults self.old ≤ faults self.new }
        ensures cause { OnErr result (faults self.old < faults self.new) };

    /// Has the system keep what was written: behind it each crash leaves what the file has.
    ///
    /// # Errors
    ///
    /// If the system refuses it.
    fn sync(&mut self) -> Result<(), DeviceFault>
        ensures seen { seen self.new ≡ seen self.old }
        ensures durable { OnOk result (Only (seen self.new) (may_leave self.new)) }
        ensures crash { (c : List ℕ) → may_leave self.new c → may_leave self.old c }
        ensures time { Elapses (moment self.old) (moment self.new) (left_since self.old) (left_since self.new) (may_leave self.new) }
        ensures later { faults self.old ≤ faults self.new }
        ensures cause { OnErr result (faults self.old < faults self.new) };

    /// This moment is one of those since an earlier one.
    ghost counts_now: { (file : Self) (t : ℕ) (c : List ℕ) → t ≤ moment file → may_leave file c → left_since file t c };

    /// Since this moment there is no other.
    ghost only_now: { (file : Self) (c : List ℕ) → left_since file (moment file) c → may_leave file c };
}
