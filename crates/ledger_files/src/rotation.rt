//! When a file is closed and the next one begun.

ghost use Rattle.std.specs.Prelude.{◌↔◌, IsTrue};
ghost use Rattle.ledger_files.specs.Rotation.{IsNextDue, Sees, StaysBack};

/// The most octets of a file before the line that ends the run: 256 MiB less 64 KiB.
pub const MOST_OCTETS: u64 = 268_369_920;

/// How many milliseconds a clock that went back to an earlier day has to stay there until its next midnight counts.
pub const STAY: u64 = 10_000;

/// The file that is open.
#[derive(Clone, Copy, Debug, PartialEq, Eq)]
pub struct OpenFile {
    /// How many octets were written to it.
    pub size: u64,
    /// The number of the day of its entries, counted from 1970-01-01.
    pub day: u64,
}

/// Returns whether the next file is to be begun before so many octets of entries of this day are written.
pub fn is_next_due(opened: Option<OpenFile>, day: u64, octets: u64) -> bool
    ensures { IsTrue result ↔ IsNextDue opened day octets }
{
    match opened {
        Some(file) => day > file.day || file.size.saturating_add(octets) > MOST_OCTETS,
        None => true,
    }
}

/// The day of a file, and how the clock went back since.
#[derive(Clone, Copy, Debug, PartialEq, Eq)]
pub struct FileDay {
    /// The number of the day of the file's entries, counted from 1970-01-01.
    pub day: u64,
    /// How the clock went back, if it shows a day before that one.
    pub back: Option<StepBack>,
}

/// A step of the clock back to a day before that of the file.
#[derive(Clone, Copy, Debug, PartialEq, Eq)]
pub struct StepBack {
    /// The earliest day that was seen since.
    pub day: u64,
    /// When the first one was seen, in milliseconds of a clock that never goes back.
    pub since: u64,
}

impl FileDay {
    /// Returns the day of the file once this day is seen at the moment `now`, in milliseconds of the clock of
    /// [`StepBack::since`]. If the clock stayed at earlier days for [`STAY`], the file's day is the earliest of them, so
    /// that the next midnight begins a file. Until then it stays, so that a clock that goes to and fro begins none.
    pub fn see(self, day: u64, now: u64) -> FileDay
        ensures { Sees self day now result }
    {
        if day >= self.day {
            return FileDay {
                day: self.day,
                back: None,
            };
        }
        match self.back {
            Some(step) => self.stay_back(step, day, now),
            None => FileDay {
                day: self.day,
                back: Some(StepBack { day, since: now }),
            },
        }
    }

    /// Returns the day of the file once a day before it is seen, after a step back.
    fn stay_back(self, step: StepBack, day: u64, now: u64) -> FileDay
        ensures { StaysBack self.day step day now result }
    {
        let earliest = step.day.min(day);
        if now.saturating_sub(step.since) >= STAY {
            return FileDay {
                day: earliest,
                back: None,
            };
        }
        FileDay {
            day: self.day,
            back: Some(StepBack {
                day: earliest,
                since: step.since,
            }),
        }
    }
}
