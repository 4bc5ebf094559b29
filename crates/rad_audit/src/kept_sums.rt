//! Sums of chains that somebody kept, and whether the lines have them.

ghost use Rattle.std.specs.Prelude.{◌≡◌};

use std::alloc::{AllocError, Global};

/// A sum that somebody kept.
#[derive(Clone, Copy)]
pub struct KeptSum<'a> {
    /// The word that names it.
    pub word: &'a str,
    /// The name of its run.
    pub run: u64,
    /// The number of the file of the run that has a line of this sum, or whose first line is behind such a line.
    pub file: u64,
    pub sum: [u8; 32],
    /// Whether it was found there.
    pub is_found: bool,
}

impl<'a> KeptSum<'a> {
    ghost use Rattle.std.specs.Prelude.{◌≡◌};
    ghost use Rattle.rad_audit.specs.Kept.{seen as the_seen};

    /// Returns the sum that a word `RUN:FILE:SUM` names, if it is such a word.
    pub fn read(word: &'a str) -> Option<KeptSum<'a>> {
        let (run, rest) = word.split_once(':')?;
        let (file, digits) = rest.split_once(':')?;
        let mut name = [0; 8];
        let mut sum = [0; 32];
        hex::decode_to_slice(run, &mut name).ok()?;
        hex::decode_to_slice(digits, &mut sum).ok()?;
        Some(KeptSum {
            word,
            run: u64::from_be_bytes(name),
            file: file.parse::<u64>().ok()?,
            sum,
            is_found: false,
        })
    }

    fn seen(self, run: u64, file: u64, sum: [u8; 32]) -> KeptSum<'a>
        ensures { result ≡ the_seen run file sum self.entry }
    {
        let is_found = self.is_found || (self.run == run && self.file == file && self.sum == sum);
        KeptSum { is_found, ..self }
    }
}

/// Sums that somebody kept.
#[derive(Drop)]
pub struct KeptSums<'a> {
    sums: Vec<KeptSum<'a>>,
}

impl<'a> KeptSums<'a> {
    ghost use Rattle.std.specs.Prelude.{◌≡◌, [], ◌∷◌, ◌++◌, OnOk, map};
    ghost use Rattle.rad_audit.specs.Kept.{seen as the_seen};

    /// Returns no sums.
    pub fn new(alloc: Global) -> KeptSums<'a>
        ensures { result.sums.items ≡ [] }
    {
        KeptSums {
            sums: Vec::new(alloc),
        }
    }

    /// Adds a sum.
    ///
    /// # Errors
    ///
    /// `AllocError` if memory is refused.
    pub fn add(&mut self, sum: KeptSum<'a>) -> Result<(), AllocError>
        ensures { OnOk result (self.new.sums.items ≡ self.old.sums.items ++ sum.entry ∷ []) }
    {
        self.sums.push(sum)?;
        Ok(())
    }

    /// Returns the sums.
    pub fn as_slice(&self) -> &[KeptSum<'a>]
        ensures { result.now ≡ self.now.sums.items }
    {
        self.sums.as_slice()
    }

    /// Takes a sum that a run has in this file.
    pub fn see(&mut self, run: u64, file: u64, sum: [u8; 32])
        ensures { self.new.sums.items ≡ map (the_seen run file sum) self.old.sums.items }
    {
        for kept in self.sums.iter_mut() {
            *kept = kept.seen(run, file, sum);
        }
    }
}
