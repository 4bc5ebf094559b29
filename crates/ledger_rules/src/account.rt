//! What became of the requests that a lane accepted in a run.

ghost use Rattle.std.specs.Prelude.{◌≡◌, ◌↔◌, ◌+◌, ℕ, List, IsTrue};
ghost use Rattle.ledger_rules.specs.Counting.{Counts};
ghost use Rattle.ledger_rules.specs.Numbers.{Keeps};
ghost use Rattle.ledger_rules.specs.Accounting.{JudgesLane, TellsLane};

use crate::ending::Ending;
use crate::numbers::Numbers;
use crate::tally::{Tally, Verdict};
use std::alloc::{AllocError, Global};

/// What an end line says of the requests of a lane.
#[derive(Clone, Copy, Debug, PartialEq, Eq)]
pub struct Fates {
    /// How many were accepted.
    pub accepted: u64,
    /// How many of these were left.
    pub left: u64,
}

/// What is counted of the requests of one lane of a run.
#[derive(Drop)]
pub struct Account {
    /// The numbers of the entries and of the requests that were left, in the lines that are right.
    numbers: Numbers,
    /// How many of these lines are of requests that were left.
    left: u64,
    /// What an end line says, if it does.
    told: Option<Fates>,
}

impl Account {
    ghost use Rattle.std.specs.Prelude.{◌≡◌, ◌↔◌, ◌+◌, ◌^◌, ◌-◌, ◌++◌, [], ◌∷◌, ℕ, List, None, min, IsTrue, IfOk, OnErr, MatchBool};
    ghost use Rattle.ledger_rules.specs.Numbers.{IsAsBefore, IsEachOnce, IsKnown, IsKnownAbsent, Keeps};
    ghost use Rattle.ledger_rules.specs.Accounting.{IsSettled};

    /// Returns the account of a lane without lines.
    pub fn new(alloc: Global) -> Account
        ensures none { Keeps result.numbers [] }
        ensures untold { (result.left ≡ 0) × (result.told ≡ None) }
    {
        Account {
            numbers: Numbers::new(alloc),
            left: 0,
            told: None,
        }
    }

    /// Whether it is known that a line has this number.
    pub fn has(&self, number: u64) -> bool
        ensures { IsTrue result ↔ IsKnown self.now.numbers number }
    {
        self.numbers.has(number)
    }

    /// Whether it is known that no line has this number.
    pub fn lacks(&self, number: u64) -> bool
        ensures { IsTrue result ↔ IsKnownAbsent self.now.numbers number }
    {
        self.numbers.lacks(number)
    }

    /// Whether it is known of each number whether a line has it.
    pub fn is_exact(&self) -> bool
        ensures { IsTrue result ↔ (self.now.numbers.exact_from ≡ 0) }
    {
        self.numbers.is_exact()
    }

    /// Returns how many requests were left.
    pub fn left(&self) -> u64
        ensures { result ≡ self.now.left }
    {
        self.left
    }

    /// Returns what an end line says, if it does.
    pub fn told(&self) -> Option<Fates>
        ensures { result ≡ self.now.told }
    {
        self.told
    }

    /// Counts the entry of this number. Returns whether it is counted: whether no line is known to have the number.
    ///
    /// # Errors
    ///
    /// `AllocError` if memory is refused. Nothing is counted then.
    pub fn answer(&mut self, number: u64) -> Result<bool, AllocError>
        ensures counted { IfOk result (λ fresh. MatchBool fresh ((¬ IsKnown self.old.numbers number) × ((all : List ℕ) → Keeps self.old.numbers all → Keeps self.new.numbers (all ++ number ∷ []))) (IsKnown self.old.numbers number × IsAsBefore self.old.numbers self.new.numbers)) }
        ensures others { (self.new.left ≡ self.old.left) × (self.new.told ≡ self.old.told) }
        ensures refused { OnErr result (IsAsBefore self.old.numbers self.new.numbers) }
    {
        self.numbers.insert(number)
    }

    /// Counts the request of this number that was left. Returns whether it is counted: whether no line is known to have the
    /// number.
    ///
    /// # Errors
    ///
    /// `AllocError` if memory is refused. Nothing is counted then.
    pub fn leave(&mut self, number: u64) -> Result<bool, AllocError>
        ensures counted { IfOk result (λ fresh. MatchBool fresh ((¬ IsKnown self.old.numbers number) × ((all : List ℕ) → Keeps self.old.numbers all → Keeps self.new.numbers (all ++ number ∷ []))) (IsKnown self.old.numbers number × IsAsBefore self.old.numbers self.new.numbers)) }
        ensures left { IfOk result (λ fresh. MatchBool fresh (self.new.left ≡ min (self.old.left + 1) (2 ^ 64 - 1)) (self.new.left ≡ self.old.left)) }
        ensures told { self.new.told ≡ self.old.told }
        ensures refused { OnErr result (IsAsBefore self.old.numbers self.new.numbers × (self.new.left ≡ self.old.left)) }
    {
        let fresh = self.numbers.insert(number)?;
        if fresh {
            self.left = self.left.saturating_add(1);
        }
        Ok(fresh)
    }

    /// Keeps what an end line says.
    pub fn end(&mut self, told: Option<Fates>)
        ensures told { self.new.told ≡ told }
        ensures others { (self.new.numbers ≡ self.old.numbers) × (self.new.left ≡ self.old.left) }
    {
        self.told = told;
    }

    /// Whether of so many entries from this serial on and the requests that were left each is accounted for, as an end line
    /// says it.
    pub fn is_settled(&self, first: u64, entries: u64) -> bool
        ensures { (all : List ℕ) → Keeps self.now.numbers all → IsTrue result ↔ IsSettled self.now first entries all }
    {
        match self.told {
            None => self.numbers.is_exact(),
            Some(told) => {
                self.are_known(first, told.accepted)
                    && told.left == self.left
                    && is_sum(first, entries, self.left, told.accepted)
            }
        }
    }

    /// Whether of each request it is known whether its number stands in a line, and if the first serial is 0, whether exactly
    /// the numbers below this one do, each once.
    fn are_known(&self, first: u64, accepted: u64) -> bool
        ensures { (all : List ℕ) → Keeps self.now.numbers all → IsTrue result ↔ ((self.now.numbers.exact_from ≡ 0) × (first ≡ 0 → IsEachOnce accepted all)) }
    {
        if first == 0 {
            self.numbers.are_all_below(accepted)
        } else {
            self.numbers.is_exact()
        }
    }
}

/// Whether these three numbers are together as much as another one.
fn is_sum(first: u64, entries: u64, left: u64, all: u64) -> bool
    ensures { IsTrue result ↔ (first + entries + left ≡ all) }
{
    left <= all && first <= all - left && entries == all - left - first
}

/// Returns what the lines of a lane show together. It is a part if the run begins before it, or if not all of it was judged.
pub fn lane_verdict(tally: &Tally, account: &Account, ending: &Ending, part: bool) -> Verdict
    ensures { (serials : List ℕ) (numbers : List ℕ) → Counts tally.now serials → Keeps account.now.numbers numbers → JudgesLane tally.now account.now ending.now (IsTrue part) serials numbers result }
{
    if ending.is_contradicted() || tally.is_passed() {
        return Verdict::Contradicted;
    }
    told_verdict(tally, account, part)
}

/// Returns what the lines of a lane show together, if nothing contradicts an end line.
fn told_verdict(tally: &Tally, account: &Account, part: bool) -> Verdict
    ensures { (serials : List ℕ) (numbers : List ℕ) → Counts tally.now serials → Keeps account.now.numbers numbers → TellsLane tally.now account.now (IsTrue part) serials numbers result }
{
    match tally.verdict() {
        Verdict::Whole if !account.is_settled(tally.first(), tally.entries()) =>
            Verdict::Unaccounted,
        Verdict::Whole if part => Verdict::Part,
        verdict => verdict,
    }
}
