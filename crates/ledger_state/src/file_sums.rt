//! The sums of a ledger's chain that are to be logged.

use std::alloc::{AllocError, Global};
use std::fmt;
use std::sync::atomic::{AtomicU64, Ordering};

/// How many sums are kept until they are logged. At most a few files are begun between two looks of the reporter.
const SUMS: usize = 16;

/// How many words of eight octets a sum has.
const WORDS: usize = 4;

/// The sum of a run's lines at some place of one of its files.
#[derive(Clone, Copy, Debug, PartialEq, Eq)]
pub struct FileSum {
    /// The name of the run.
    pub run: u64,
    /// The number of the file in the run.
    pub file: u64,
    /// How many entries the run has before that place.
    pub entries: u64,
    /// The sum, as four numbers of eight octets each.
    pub sum: [u64; WORDS],
}

impl fmt::Display for FileSum {
    ghost use Rattle.std.specs.Prelude.{Some};
    ghost use Rattle.ledger_state.specs.LogLines.{sum_text};

    ghost output = { λ its. Some (sum_text its) };

    fn fmt<W: fmt::Write>(&self, f: &mut fmt::Formatter<W>) -> fmt::Result {
        let FileSum {
            run,
            file,
            entries,
            sum,
        } = *self;
        let run = Word { value: run };
        let first = Word { value: sum[0] };
        let second = Word { value: sum[1] };
        let third = Word { value: sum[2] };
        let fourth = Word { value: sum[3] };
        write!(
            f,
            "run={run} file={file} entries={entries} sum={first}{second}{third}{fourth}"
        )
    }
}

/// Eight octets, which are printed as sixteen hexadecimal digits.
#[derive(Clone, Copy)]
struct Word {
    value: u64,
}

impl fmt::Display for Word {
    ghost use Rattle.std.specs.Prelude.{Some};
    ghost use Rattle.ledger_state.specs.LogLines.{word_text};

    ghost output = { λ word. Some (word_text word.value) };

    fn fmt<W: fmt::Write>(&self, f: &mut fmt::Formatter<W>) -> fmt::Result {
        let value = self.value;
        write!(f, "{value:016x}")
    }
}

/// The sums that the thread that writes the ledger tells, in order, of which the last ones are kept. One thread tells them,
/// and one logs them.
#[derive(Drop)]
pub(crate) struct FileSums {
    places: Vec<FileSumPlace>,
    /// How many were told.
    told: AtomicU64,
    /// How many of them were logged, or passed over.
    logged: AtomicU64,
}

/// A place for a sum.
#[derive(Drop)]
struct FileSumPlace {
    run: AtomicU64,
    file: AtomicU64,
    entries: AtomicU64,
    sum: [AtomicU64; WORDS],
}

impl FileSums {
    /// Makes the places of none.
    ///
    /// # Errors
    ///
    /// `AllocError` if memory is refused.
    pub(crate) fn new(alloc: Global) -> Result<FileSums, AllocError> {
        let mut places = Vec::with_capacity(alloc, SUMS)?;
        for _ in 0..SUMS {
            places.push(FileSumPlace {
                run: AtomicU64::new(0),
                file: AtomicU64::new(0),
                entries: AtomicU64::new(0),
                sum: [
                    AtomicU64::new(0),
                    AtomicU64::new(0),
                    AtomicU64::new(0),
                    AtomicU64::new(0),
                ],
            })?;
        }
        Ok(FileSums {
            places,
            told: AtomicU64::new(0),
            logged: AtomicU64::new(0),
        })
    }

    /// Tells a sum.
    pub(crate) fn tell(&self, its: FileSum) {
        let number = self.told.load(Ordering::SeqCst);
        if let Some(place) = self.place(number) {
            place.run.store(its.run, Ordering::SeqCst);
            place.file.store(its.file, Ordering::SeqCst);
            place.entries.store(its.entries, Ordering::SeqCst);
            for word in 0..WORDS {
                place.sum[word].store(its.sum[word], Ordering::SeqCst);
            }
        }
        self.told.store(number.saturating_add(1), Ordering::SeqCst);
    }

    /// Returns the next sum that is not logged, if there is one and it was not replaced. From now on it counts as logged.
    pub(crate) fn take(&self) -> Option<FileSum> {
        let oldest = self.oldest();
        let number = self.logged.load(Ordering::SeqCst).max(oldest);
        if number >= self.told.load(Ordering::SeqCst) {
            return None;
        }
        self.logged
            .store(number.saturating_add(1), Ordering::SeqCst);
        let place = self.place(number)?;
        let its = FileSum {
            run: place.run.load(Ordering::SeqCst),
            file: place.file.load(Ordering::SeqCst),
            entries: place.entries.load(Ordering::SeqCst),
            sum: [
                place.sum[0].load(Ordering::SeqCst),
                place.sum[1].load(Ordering::SeqCst),
                place.sum[2].load(Ordering::SeqCst),
                place.sum[3].load(Ordering::SeqCst),
            ],
        };
        if number < self.oldest() {
            return None;
        }
        Some(its)
    }

    /// Returns how many were told before the first one that is kept. The place behind the last one may be written now.
    fn oldest(&self) -> u64 {
        let told = self.told.load(Ordering::SeqCst);
        told.saturating_sub(SUMS as u64 - 1)
    }

    /// Returns the place of a sum, by how many were told before it.
    fn place(&self, number: u64) -> Option<&FileSumPlace> {
        let place = usize::try_from(number % SUMS as u64).ok()?;
        self.places.get(place)
    }
}
