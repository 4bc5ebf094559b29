//! What is counted of one lane of a run.

ghost use Rattle.std.specs.Prelude.{◌≤◌, ◌+◌, ◌^◌};

use crate::reason::Reason;
use std::fmt;

/// Serials that are missing, from the first one to the last one.
#[derive(Clone, Copy, Debug, PartialEq, Eq)]
pub struct Gap {
    pub first: u64,
    pub last: u64,
}

impl Gap {
    ghost use Rattle.std.specs.Prelude.{◌≤◌};
    ghost use Rattle.ledger_rules.specs.Counting.{LeavesGap};

    fn between(next: u64, serial: u64) -> Option<Gap>
        requires { next ≤ serial }
        ensures { LeavesGap next serial result }
    {
        if next == serial {
            return None;
        }
        Some(Gap {
            first: next,
            last: serial - 1,
        })
    }
}

/// What the entries of a lane show together.
#[derive(Clone, Copy, Debug, PartialEq, Eq)]
pub enum Verdict {
    /// Each response is there, once and in order, up to the count of the end line.
    Whole,
    /// No response is missing so far, and no end line counts them all. The run may still go on, or was killed.
    Open,
    /// These are missing, and none before them.
    Missing(Gap),
    /// No response is missing, but not each request that was accepted stands in one line.
    Unaccounted,
    /// It is whole as far as it goes: the run begins before what is there, or not all of it was judged.
    Part,
    /// A line behind an end line shows that this was not the end, or what it counts is not what is there.
    Contradicted,
}

/// What is counted of one lane of a run: the entries that are right, in the order of their lines.
#[derive(Clone, Copy, Debug, PartialEq, Eq)]
pub struct Tally {
    /// The serial with which it begins.
    first: u64,
    /// The least serial that is above those of all entries.
    next: u64,
    /// How many entries there are.
    entries: u64,
    /// The first gap between them.
    gap: Option<Gap>,
    /// How many responses the lane had in the run, if an end line says it.
    end: Option<u64>,
    ghost bounded: { next ≤ 2 ^ 63 },
    ghost counted: { first + entries ≤ next },
}

impl Tally {
    ghost use Rattle.std.specs.Prelude.{◌≡◌, ◌↔◌, ◌≤◌, ◌<◌, ◌^◌, ◌-◌, ◌++◌, [], ◌∷◌, ℕ, List, Some, None, IsTrue, OnOk, IfOk, IfErr, max, unwrap_or};
    ghost use Rattle.rad_lane.specs.declared.outgoing.Outgoing.{Outgoing};
    ghost use Rattle.ledger_rules.specs.declared.reason.Reason.TheVariants.{SerialNotAbove};
    ghost use Rattle.ledger_rules.specs.declared.tally.Verdict.TheVariants.{Open, Whole};
    ghost use Rattle.ledger_rules.specs.Counting.{Counts, IsOpen, IsPassed, LeavesGap, Tells};
    ghost use Rattle.ledger_rules.specs.Outlets.{AreAllGiven, serials_of};

    /// Returns the tally of a lane without entries whose next response has this serial.
    #[tactic(auto, using(crate::proofs::Serials::counts_none))]
    pub fn new(first: u64) -> Tally
        requires { first < 2 ^ 63 }
        ensures first { (result.first ≡ first) × (result.end ≡ None) }
        ensures none { Counts result [] }
    {
        Tally {
            first,
            next: first,
            entries: 0,
            gap: None,
            end: None,
        }
    }

    /// Returns the serial of the first response that is looked for.
    pub fn first(&self) -> u64
        ensures { result ≡ self.now.first }
    {
        self.first
    }

    /// Returns the least serial that the next entry can have.
    pub fn next(&self) -> u64
        ensures { result ≡ self.now.next }
    {
        self.next
    }

    /// Whether an end line counts fewer responses than there are up to the last entry.
    pub fn is_passed(&self) -> bool
        ensures { (serials : List ℕ) → Counts self.now serials → IsTrue result ↔ IsPassed self.now serials }
    {
        match self.end {
            Some(count) => count < self.next,
            None => false,
        }
    }

    /// Returns how many entries there are.
    pub fn entries(&self) -> u64
        ensures { result ≡ self.now.entries }
    {
        self.entries
    }

    /// Returns how many serials are missing, as far as it is known how many there are.
    pub fn missing(&self) -> u64
        ensures { result ≡ max self.now.next (unwrap_or self.now.end 0) - self.now.first - self.now.entries }
    {
        let end = self.next.max(self.end.unwrap_or(0));
        end.saturating_sub(self.first).saturating_sub(self.entries)
    }

    /// Counts an entry with this serial, and returns the gap before it, if there is one.
    ///
    /// # Errors
    ///
    /// `SerialNotAbove` for a serial that is not above the last one, or is 2^63 or more. The entry is not counted then.
    pub fn take(&mut self, serial: u64) -> Result<Option<Gap>, Reason>
        ensures above { OnOk result ((self.old.next ≤ serial) × (serial < 2 ^ 63)) }
        ensures gap { IfOk result (λ gap. LeavesGap self.old.next serial gap) }
        ensures counted { OnOk result ((serials : List ℕ) → Counts self.old serials → Counts self.new (serials ++ serial ∷ [])) }
        ensures others { OnOk result ((self.new.first ≡ self.old.first) × (self.new.end ≡ self.old.end)) }
        ensures refused { IfErr result (λ reason. (reason ≡ SerialNotAbove) × ((self.old.next ≤ serial) → (2 ^ 63 ≤ serial)) × (self.new ≡ self.old)) }
    {
        if serial < self.next || serial >= 1 << 63 {
            return Err(Reason::SerialNotAbove);
        }
        let gap = Gap::between(self.next, serial);
        self.gap = self.gap.or(gap);
        self.entries += 1;
        self.next = serial + 1;
        Ok(gap)
    }

    /// Keeps how many responses the lane had, as an end line says it, and returns the gap after the last entry, if there is
    /// one.
    #[tactic(auto, using(crate::proofs::Serials::counts_still))]
    pub fn end(&mut self, count: u64) -> Option<Gap>
        ensures gap { self.old.next ≤ count → LeavesGap self.old.next count result }
        ensures none { count < self.old.next → result ≡ None }
        ensures counted { (serials : List ℕ) → Counts self.old serials → Counts self.new serials }
        ensures ended { (self.new.first ≡ self.old.first) × (self.new.end ≡ Some count) }
    {
        self.end = Some(count);
        if self.next < count {
            Gap::between(self.next, count)
        } else {
            None
        }
    }

    /// Returns what the entries show together.
    #[tactic(auto, using(crate::proofs::Outlets::open_exactly, crate::proofs::Outlets::whole_exactly))]
    pub fn verdict(&self) -> Verdict
        ensures tells { (serials : List ℕ) → Counts self.now serials → Tells self.now serials result }
        ensures open { (serials : List ℕ) → Counts self.now serials → (result ≡ Open) ↔ IsOpen self.now serials }
        ensures outlet { (given : List Outgoing) → Counts self.now (serials_of given) → self.now.first ≡ 0 → (result ≡ Whole) ↔ AreAllGiven self.now given }
    {
        self.found()
    }

    /// Finds what the entries show together.
    #[tactic(auto, using(crate::proofs::Serials::tells_gap, crate::proofs::Serials::tells_open, crate::proofs::Serials::tells_less, crate::proofs::Serials::tells_missing))]
    fn found(&self) -> Verdict
        ensures { (serials : List ℕ) → Counts self.now serials → Tells self.now serials result }
    {
        if let Some(gap) = self.gap {
            return Verdict::Missing(gap);
        }
        let Some(count) = self.end else {
            return Verdict::Open;
        };
        if count < self.next {
            return Verdict::Open;
        }
        match Gap::between(self.next, count) {
            None => Verdict::Whole,
            Some(gap) => Verdict::Missing(gap),
        }
    }
}

impl fmt::Display for Gap {
    ghost use Rattle.std.specs.Prelude.{Some};
    ghost use Rattle.ledger_rules.specs.Printed.{gap_text};

    ghost output = { λ gap. Some (gap_text gap) };

    fn fmt<W: fmt::Write>(&self, f: &mut fmt::Formatter<W>) -> fmt::Result {
        let (first, last) = (self.first, self.last);
        write!(f, "gap {first} to {last}")
    }
}

impl fmt::Display for Verdict {
    ghost use Rattle.std.specs.Prelude.{Some};
    ghost use Rattle.ledger_rules.specs.Printed.{verdict_text};

    ghost output = { λ verdict. Some (verdict_text verdict) };

    fn fmt<W: fmt::Write>(&self, f: &mut fmt::Formatter<W>) -> fmt::Result {
        match self {
            Verdict::Whole => f.write_str("whole"),
            Verdict::Open => f.write_str("open"),
            Verdict::Missing(gap) => write!(f, "{gap}"),
            Verdict::Unaccounted => f.write_str("unaccounted"),
            Verdict::Part => f.write_str("part"),
            Verdict::Contradicted => f.write_str("contradicted"),
        }
    }
}
