//! The numbers of the requests of a lane, as a set.

ghost use Rattle.std.specs.Prelude.{◌≡◌, ◌↔◌, ◌≤◌, ◌<◌, ◌+◌, ◌^◌, ℕ, length, eqb, leb, ltb, IsTrue, OnOk, OnErr};
ghost use Rattle.std.specs.Vec.{vec_capacity, vec_len};
ghost use Rattle.ledger_rules.specs.Edges.{IsPlace, IsRising, flipped, is_in};

use std::alloc::{AllocError, Global};

/// The most ranges of a set.
pub const MOST_RANGES: usize = 4096;

/// A set of numbers, in little memory where they come nearly in order: as the ranges that they fill. If there are more
/// ranges than [`MOST_RANGES`], the two lowest are merged, and what is between them counts as taken.
#[derive(Drop)]
pub struct Numbers {
    /// The first number of each range and the first one behind it, in turn, rising. If a range ends with the greatest
    /// number, none is behind it.
    edges: Vec<u64>,
    /// From this number on it is known which are in the set: below it ranges were merged. 0 if none were.
    exact_from: u64,
    ghost rising: { IsRising edges.items },
}

impl Numbers {
    ghost use Rattle.std.specs.Prelude.{◌≡◌, ◌↔◌, ◌≤◌, ◌+◌, ◌++◌, [], ◌∷◌, ℕ, List, length, IsTrue, IfOk, OnOk, OnErr, MatchBool};
    ghost use Rattle.ledger_rules.specs.Numbers.{IsAsBefore, IsEachOnce, IsKnown, IsKnownAbsent, Keeps};

    /// Returns the set that is empty.
    pub fn new(alloc: Global) -> Numbers
        ensures none { Keeps result [] }
        ensures exact { result.exact_from ≡ 0 }
    {
        Numbers {
            edges: Vec::new(alloc),
            exact_from: 0,
        }
    }

    /// Whether it is known that a number is in the set.
    pub fn has(&self, number: u64) -> bool
        ensures { IsTrue result ↔ IsKnown self.now number }
    {
        self.exact_from <= number && is_within(self.edges.as_slice(), number)
    }

    /// Whether it is known that a number is not in the set.
    pub fn lacks(&self, number: u64) -> bool
        ensures { IsTrue result ↔ IsKnownAbsent self.now number }
    {
        self.exact_from <= number && !is_within(self.edges.as_slice(), number)
    }

    /// Whether no ranges were merged, so that it is known of each number whether it is in the set.
    pub fn is_exact(&self) -> bool
        ensures { IsTrue result ↔ (self.now.exact_from ≡ 0) }
    {
        self.exact_from == 0
    }

    /// Puts a number into the set. Returns whether it is a new one: whether it was not known to be in the set.
    ///
    /// # Errors
    ///
    /// `AllocError` if memory is refused. The set is then as before.
    pub fn insert(&mut self, number: u64) -> Result<bool, AllocError>
        ensures fresh { IfOk result (λ fresh. MatchBool fresh (¬ IsKnown self.old number) (IsKnown self.old number)) }
        ensures kept { IfOk result (λ fresh. MatchBool fresh ((all : List ℕ) → Keeps self.old all → Keeps self.new (all ++ number ∷ [])) (IsAsBefore self.old self.new)) }
        ensures exact { OnOk result (length self.old.edges.items + 2 ≤ 8192 → self.new.exact_from ≡ self.old.exact_from) }
        ensures refused { OnErr result (IsAsBefore self.old self.new) }
    {
        if self.has(number) {
            return Ok(false);
        }
        add(&mut self.edges, number)?;
        self.exact_from = merge_lowest(&mut self.edges, self.exact_from);
        Ok(true)
    }

    /// Whether exactly the numbers below this one were put into the set, each once.
    pub fn are_all_below(&self, count: u64) -> bool
        ensures { (all : List ℕ) → Keeps self.now all → IsTrue result ↔ ((self.now.exact_from ≡ 0) × IsEachOnce count all) }
    {
        self.exact_from == 0 && is_range(self.edges.as_slice(), count)
    }
}

fn place_of(edges: &[u64], number: u64) -> Result<usize, usize>
    requires { IsRising edges.now }
    ensures { IsPlace edges.now number result }
{
    edges.binary_search(&number)
}

fn is_within(edges: &[u64], number: u64) -> bool
    requires { IsRising edges.now }
    ensures { result ≡ is_in edges.now number }
{
    let not_above = match place_of(edges, number) {
        Ok(place) => place + 1,
        Err(place) => place,
    };
    not_above % 2 == 1
}

/// Whether exactly the numbers below this one are in the set of these edges.
fn is_range(edges: &[u64], count: u64) -> bool
    requires { IsRising edges.now }
    ensures { IsTrue result ↔ ((n : ℕ) → n < 2 ^ 64 → is_in edges.now n ≡ ltb n count) }
{
    match edges.len() {
        0 => count == 0,
        2 => edges[0] == 0 && edges[1] == count,
        _ => false,
    }
}

/// Puts a number that is not in the set of these edges into it.
fn add(edges: &mut Vec<u64>, number: u64) -> Result<(), AllocError>
    requires { IsRising edges.old.items }
    ensures rising { IsRising edges.new.items }
    ensures added { OnOk result ((n : ℕ) → n < 2 ^ 64 → is_in edges.new.items n ≡ flipped (eqb number n) (is_in edges.old.items n)) }
    ensures length { OnOk result (length edges.new.items ≤ length edges.old.items + 2) }
    ensures refused { OnErr result (edges.new.items ≡ edges.old.items) }
{
    edges.reserve(2)?;
    flip_from(edges, number);
    if let Some(next) = number.checked_add(1) {
        flip_from(edges, next);
    }
    Ok(())
}

/// Changes of each number from this one on whether it is in the set of these edges.
fn flip_from(edges: &mut Vec<u64>, edge: u64)
    requires rising { IsRising edges.old.items }
    requires room { vec_len edges.old < vec_capacity edges.old }
    ensures rising { IsRising edges.new.items }
    ensures flipped { (n : ℕ) → is_in edges.new.items n ≡ flipped (leb edge n) (is_in edges.old.items n) }
    ensures length { vec_len edges.new ≤ vec_len edges.old + 1 }
    ensures capacity { vec_capacity edges.old ≤ vec_capacity edges.new }
{
    match place_of(edges.as_slice(), edge) {
        Ok(place) => {
            let _ = edges.remove(place);
        }
        Err(place) => {
            let _ = edges.insert(place, edge);
        }
    }
}

/// Merges the two lowest ranges if there are too many. Returns the number from which on the set is what it was, which is
/// not below the one from which on it was known.
fn merge_lowest(edges: &mut Vec<u64>, exact_from: u64) -> u64
    requires { IsRising edges.old.items }
    ensures rising { IsRising edges.new.items }
    ensures same { (n : ℕ) → result ≤ n → is_in edges.new.items n ≡ is_in edges.old.items n }
    ensures later { exact_from ≤ result }
    ensures few { length edges.old.items ≤ 8192 → result ≡ exact_from }
{
    if edges.len() <= 2 * MOST_RANGES {
        return exact_from;
    }
    let _ = edges.remove(1);
    let next = edges.remove(1);
    exact_from.max(next)
}
