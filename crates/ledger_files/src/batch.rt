//! The lines of entries that are put together before they are written.

ghost use Rattle.std.specs.Prelude.{◌≡◌, ◌≤◌, ◌<◌, ◌++◌, ℕ, List, length, vec_len, MatchResult};
ghost use Rattle.ledger_files.specs.Tails.{no_tail, tail_of};

use crate::chain::{Chain, SUM_OCTETS};
use crate::digests::{digest_at, digest_lines, end_at};
use crate::disk::{DiskFault, LedgerDisk};
use crate::pending::write_rest;
use crate::tail::{NO_TAIL, TAIL_OCTETS, write_tail};
use std::alloc::{AllocError, Global};
use std::marker::Sync;
use std::thread::Threads;

/// From how many octets on the lines are shared out among threads to be digested, if they are long.
const SHARED: usize = 65_536;

/// How many octets long lines have, on average.
const LONG: usize = 2048;

/// How many threads digest such lines, this one among them.
const THREADS: usize = 3;

/// What a line is of: an entry, or a request that is left.
#[derive(Clone, Copy, Debug, PartialEq, Eq)]
pub struct LineHead {
    /// When the response was handed over, or the request was told as left, in milliseconds since 1970.
    pub time: u64,
    pub lane: u16,
    /// The serial of the response; `None` for a request that is left.
    pub serial: Option<u64>,
}

/// The lines of entries that are put together, and how far they are written. Each is a body, and behind it the tail with its sum, or
/// room for that until it is sealed.
#[derive(Drop)]
pub struct Batch {
    octets: Vec<u8>,
    /// How many of the octets are written.
    done: usize,
    /// Where the first line begins that is not written whole.
    start: usize,
    heads: Vec<LineHead>,
    /// Where each line ends.
    ends: Vec<usize>,
    /// How many of the lines are written whole.
    whole: usize,
    /// The SHA-256 of the body of each of the first lines, as far as they were digested.
    digests: Vec<[u8; SUM_OCTETS]>,
    ghost written: { (start ≤ done) × (done ≤ vec_len octets) },
    ghost counted: { (vec_len heads ≡ vec_len ends) × (whole ≤ vec_len ends) },
}

impl Batch {
    ghost use Rattle.std.specs.Prelude.{◌≡◌, ◌↔◌, ◌+◌, ◌-◌, ◌≤◌, ◌<◌, ℕ, List, [], ◌∷◌, ◌++◌, length, take, drop, vec_len, slice_index, slice_index_or, slice_range, IsOk, IsTrue, IfOk, OnOk, MatchResult, MatchOption};
    ghost use Rattle.ledger_files.specs.Batches.{HoldsLines, IsHeadOf};
    ghost use Rattle.sha2.specs.Sha256.{sha256};
    ghost use Rattle.ledger_files.specs.Chains.{chain_of};
    ghost use Rattle.ledger_files.specs.Files.{wrote};
    ghost use Rattle.ledger_files.specs.Keeping.{KeepsLines};
    ghost use Rattle.ledger_files.specs.Tails.{bodies_in, body_in, line_after, lines_after, no_tail, sum_after};

    /// Makes an empty batch, with room for so many octets and lines.
    ///
    /// # Errors
    ///
    /// `AllocError` if memory is refused.
    #[tactic(auto, using(crate::proofs::Ends::holds_none))]
    pub fn new(alloc: Global, octets: usize, lines: usize) -> Result<Batch, AllocError>
        ensures { IfOk result (λ batch. HoldsLines batch []) }
    {
        Ok(Batch {
            octets: Vec::with_capacity(alloc, octets)?,
            done: 0,
            start: 0,
            heads: Vec::with_capacity(alloc, lines)?,
            ends: Vec::with_capacity(alloc, lines)?,
            whole: 0,
            digests: Vec::with_capacity(alloc, lines)?,
        })
    }

    /// Returns whether all lines are written.
    pub fn is_done(&self) -> bool
        ensures { IsTrue result ↔ (self.now.whole ≡ vec_len self.now.ends) }
    {
        self.whole == self.ends.len()
    }

    /// Returns how many lines there are, written or not.
    pub fn count(&self) -> usize
        ensures { result ≡ vec_len self.now.ends }
    {
        self.ends.len()
    }

    /// Returns how many octets the lines have together.
    pub fn size(&self) -> usize
        ensures { result ≡ vec_len self.now.octets }
    {
        self.octets.len()
    }

    /// Returns how many octets of the lines are not written.
    pub fn left(&self) -> usize
        ensures { result ≡ vec_len self.now.octets - self.now.done }
    {
        self.octets.len() - self.done
    }

    /// Returns what the first line is of that is not written whole.
    pub fn oldest(&self) -> Option<LineHead>
        ensures { MatchOption result (self.now.whole ≡ vec_len self.now.ends) (λ head. IsHeadOf self.now head) }
    {
        if self.whole == self.ends.len() {
            return None;
        }
        Some(self.heads[self.whole])
    }

    /// Removes all lines.
    #[tactic(auto, using(crate::proofs::Ends::holds_none))]
    pub fn clear(&mut self)
        ensures { HoldsLines self.new [] }
    {
        self.octets.clear();
        self.done = 0;
        self.start = 0;
        self.heads.clear();
        self.ends.clear();
        self.whole = 0;
        self.digests.clear();
    }

    /// Adds the line of a body behind the others. It is not sealed yet.
    ///
    /// # Errors
    ///
    /// `AllocError` if memory is refused. The lines stay as they are.
    #[tactic(auto, using(crate::proofs::Ends::holds_same, crate::proofs::Ends::holds_more))]
    pub fn add(&mut self, head: LineHead, body: &[u8]) -> Result<(), AllocError>
        ensures lines { (lines : List (List ℕ)) → HoldsLines self.old lines → MatchResult result (λ _. HoldsLines self.new (lines ++ (body.now ++ no_tail) ∷ [])) (λ _. HoldsLines self.new lines) }
        ensures same { (self.new.done ≡ self.old.done) × (self.new.whole ≡ self.old.whole) }
    {
        self.heads.reserve(1)?;
        self.ends.reserve(1)?;
        add_line(&mut self.octets, body)?;
        self.heads.push_reserved(head);
        self.ends.push_reserved(self.octets.len());
        Ok(())
    }

    /// Digests the bodies of all lines, by a few threads if they are long and many. Lines that were not digested are when they are passed.
    ///
    /// # Errors
    ///
    /// `AllocError` if memory is refused. None of the lines is digested then.
    pub fn digest<R: Threads + Sync>(&mut self, rt: &R) -> Result<(), AllocError>
        ensures lines { (lines : List (List ℕ)) → HoldsLines self.old lines → HoldsLines self.new lines }
        ensures all { OnOk result (vec_len self.new.digests ≡ vec_len self.old.ends) }
        ensures same { (self.new.done ≡ self.old.done) × (self.new.whole ≡ self.old.whole) × KeepsLines self.old self.new }
    {
        let octets = self.octets.as_slice();
        let ends = self.ends.as_slice();
        let threads = threads_for(octets.len(), ends.len());
        digest_lines(rt, octets, ends, threads, &mut self.digests)?;
        Ok(())
    }

    /// Seals the lines that are not written whole: the first behind this chain, and each behind the one before.
    pub fn seal(&mut self, before: Chain)
        ensures lines { (lines : List (List ℕ)) → HoldsLines self.old lines → HoldsLines self.new (take self.old.whole lines ++ lines_after before.sum (bodies_in (drop self.old.whole lines))) }
        ensures same { (self.new.done ≡ self.old.done) × (self.new.whole ≡ self.old.whole) × (self.new.heads ≡ self.old.heads) × (self.new.ends ≡ self.old.ends) }
    {
        let mut chain = before;
        for place in self.whole..self.ends.len() {
            self.seal_line(place, &mut chain);
        }
    }

    /// Seals the line at a place behind this chain, and adds it to the chain.
    fn seal_line(&mut self, place: usize, chain: &mut Chain)
        ensures lines { (front rest : List (List ℕ)) (line : List ℕ) → HoldsLines self.old (front ++ line ∷ rest) → length front ≡ place → HoldsLines self.new (front ++ line_after chain.old.sum (body_in line) ∷ rest) }
        ensures chain { (lines : List (List ℕ)) → HoldsLines self.old lines → place < length lines → chain.new.sum ≡ sum_after chain.old.sum (body_in (slice_index_or lines place [])) }
        ensures same { (self.new.done ≡ self.old.done) × (self.new.whole ≡ self.old.whole) × (self.new.heads ≡ self.old.heads) × (self.new.ends ≡ self.old.ends) }
    {
        chain.add_digest(self.digest_of(place));
        let end = end_at(self.ends.as_slice(), place);
        set_tail(&mut self.octets, end, chain.sum());
    }

    /// Returns the SHA-256 of the body of the line at a place.
    fn digest_of(&self, place: usize) -> [u8; SUM_OCTETS]
        ensures { (lines : List (List ℕ)) → HoldsLines self.now lines → place < length lines → result ≡ sha256 (body_in (slice_index_or lines place [])) }
    {
        match self.digests.get(place) {
            Some(digest) => *digest,
            None => {
                let octets = self.octets.as_slice();
                let ends = self.ends.as_slice();
                digest_at(octets, ends, place)
            }
        }
    }

    /// Writes the octets that are not written yet.
    ///
    /// # Errors
    ///
    /// That of [`write_rest`]. What was written before counts as written.
    pub fn write<D: LedgerDisk>(&mut self, disk: &mut D) -> Result<(), DiskFault>
        ensures lines { (lines : List (List ℕ)) → HoldsLines self.old lines → HoldsLines self.new lines }
        ensures written { (self.old.done ≤ self.new.done) × (D.files disk.new ≡ wrote (D.files disk.old) (slice_range self.old.octets.items self.old.done self.new.done)) }
        ensures all { OnOk result (self.new.done ≡ vec_len self.old.octets) }
        ensures whole { self.new.whole ≡ self.old.whole }
        ensures same { KeepsLines self.old self.new }
        ensures none { self.old.done ≡ vec_len self.old.octets → (disk.new ≡ disk.old) × IsOk result }
    {
        let (done, outcome) = write_rest(disk, self.octets.as_slice(), self.done);
        self.done = done;
        outcome
    }

    /// Passes the next line as written whole, if it is, and returns what it is of. It is then the next one of the chain.
    #[tactic(auto, using(crate::proofs::Ends::holds_same, crate::proofs::Ends::holds_passed))]
    pub fn pass_line(&mut self, chain: &mut Chain) -> Option<LineHead>
        ensures lines { (lines : List (List ℕ)) → HoldsLines self.old lines → HoldsLines self.new lines }
        ensures same { (self.new.done ≡ self.old.done) × KeepsLines self.old self.new }
        ensures passed { MatchOption result (self.new.whole ≡ self.old.whole) (λ head. (self.new.whole ≡ self.old.whole + 1) × IsHeadOf self.old head × (slice_index self.old.ends.items self.old.whole ≤ self.old.done)) }
        ensures rest { MatchOption result (self.old.whole < vec_len self.old.ends → self.old.done < slice_index self.old.ends.items self.old.whole) (λ _. Unit {0}) }
        ensures none { MatchOption result (chain.new ≡ chain.old) (λ _. Unit {0}) }
        ensures chain { MatchOption result (Unit {0}) (λ _. (held : List (List ℕ)) → HoldsLines self.old held → (lines : List (List ℕ)) → chain.old.sum ≡ chain_of lines → chain.new.sum ≡ chain_of (lines ++ body_in (slice_index_or held self.old.whole []) ∷ [])) }
    {
        if self.whole == self.ends.len() {
            return None;
        }
        let end = self.ends[self.whole];
        if end > self.done {
            return None;
        }
        let head = self.heads[self.whole];
        chain.add_digest(self.digest_of(self.whole));
        self.start = end;
        self.whole += 1;
        Some(head)
    }

    /// Has the first line that is not written whole be written again from its start, to another file.
    pub fn begin_line_again(&mut self)
        ensures lines { (lines : List (List ℕ)) → HoldsLines self.old lines → HoldsLines self.new lines }
        ensures done { (self.new.done ≡ self.old.start) × (self.new.whole ≡ self.old.whole) }
    {
        self.done = self.start;
    }
}

/// Adds a body and room for its tail behind these octets, or nothing.
fn add_line(octets: &mut Vec<u8>, body: &[u8]) -> Result<(), AllocError>
    ensures { MatchResult result (λ _. octets.new.items ≡ octets.old.items ++ (body.now ++ no_tail)) (λ _. octets.new.items ≡ octets.old.items) }
{
    octets.reserve(body.len().saturating_add(TAIL_OCTETS))?;
    octets.extend_from_slice(body)?;
    octets.extend_from_slice(&NO_TAIL)?;
    Ok(())
}

/// Sets the tail of the line that ends at a place to that of this sum.
fn set_tail(octets: &mut Vec<u8>, end: usize, sum: [u8; SUM_OCTETS])
    ensures long { vec_len octets.new ≡ vec_len octets.old }
    ensures tail { (front body tail rest : List ℕ) → octets.old.items ≡ front ++ ((body ++ tail) ++ rest) → length tail ≡ 75 → end ≡ length (front ++ (body ++ tail)) → octets.new.items ≡ front ++ ((body ++ tail_of sum) ++ rest) }
{
    put_tail(octets.as_mut_slice(), end, sum);
}

fn put_tail(octets: &mut [u8], end: usize, sum: [u8; SUM_OCTETS])
    ensures long { length octets.new ≡ length octets.old }
    ensures tail { (front body tail rest : List ℕ) → octets.old ≡ front ++ ((body ++ tail) ++ rest) → length tail ≡ 75 → end ≡ length (front ++ (body ++ tail)) → octets.new ≡ front ++ ((body ++ tail_of sum) ++ rest) }
{
    if end < TAIL_OCTETS || end > octets.len() {
        return;
    }
    let (front, _) = octets.split_at_mut(end);
    let (_, tail) = front.split_at_mut(end - TAIL_OCTETS);
    write_tail(sum, tail);
}

/// Returns how many threads digest so many lines, which have so many octets together. Short lines are digested in less time
/// than threads take to start.
fn threads_for(octets: usize, lines: usize) -> usize
    ensures { 0 < result }
{
    if octets < SHARED || octets / LONG < lines {
        1
    } else {
        THREADS
    }
}
