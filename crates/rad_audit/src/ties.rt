//! Sums of other runs' lines that runs name, and whether these lines were read.

ghost use Rattle.std.specs.Prelude.{◌≡◌};

use std::alloc::{AllocError, Global};

/// The sum of a line of a run, as the first line of another run names it.
#[derive(Clone, Copy)]
pub struct Tie {
    /// The name of the run whose line it is.
    pub run: u64,
    pub sum: [u8; 32],
    /// Whether the line was read.
    pub is_found: bool,
}

impl Tie {
    ghost use Rattle.std.specs.Prelude.{◌≡◌};
    ghost use Rattle.rad_audit.specs.Kept.{tied};

    fn seen(self, run: u64, sum: [u8; 32]) -> Tie
        ensures { result ≡ tied run sum self }
    {
        let is_found = self.is_found || (self.run == run && self.sum == sum);
        Tie { is_found, ..self }
    }
}

/// The sums of other runs' lines that are looked for.
#[derive(Drop)]
pub struct Ties {
    ties: Vec<Tie>,
}

impl Ties {
    ghost use Rattle.std.specs.Prelude.{◌≡◌, [], ◌∷◌, ◌++◌, OnOk, map};
    ghost use Rattle.rad_audit.specs.Kept.{tied};

    /// Returns none.
    pub fn new(alloc: Global) -> Ties
        ensures { result.ties.items ≡ [] }
    {
        Ties {
            ties: Vec::new(alloc),
        }
    }

    /// Adds one that is looked for.
    ///
    /// # Errors
    ///
    /// `AllocError` if memory is refused.
    pub fn add(&mut self, tie: Tie) -> Result<(), AllocError>
        ensures { OnOk result (self.new.ties.items ≡ self.old.ties.items ++ tie ∷ []) }
    {
        self.ties.push(tie)?;
        Ok(())
    }

    /// Whether this one is looked for.
    pub fn has(&self, run: u64, sum: [u8; 32]) -> bool {
        self.ties.iter().any(|tie| tie.run == run && tie.sum == sum)
    }

    /// Whether the line of this one was read.
    pub fn is_found(&self, run: u64, sum: [u8; 32]) -> bool {
        self.ties
            .iter()
            .any(|tie| tie.run == run && tie.sum == sum && tie.is_found)
    }

    /// Takes the sum of a line of a run.
    pub fn see(&mut self, run: u64, sum: [u8; 32])
        ensures { self.new.ties.items ≡ map (tied run sum) self.old.ties.items }
    {
        for tie in self.ties.iter_mut() {
            *tie = tie.seen(run, sum);
        }
    }
}
