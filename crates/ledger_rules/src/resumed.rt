//! The requests that earlier runs left and that a lane took over.

ghost use Rattle.std.specs.Prelude.{◌≡◌, ◌↔◌, IsTrue};
ghost use Rattle.ledger_rules.specs.Resuming.{IsBehind, resumption_of as the_resumption_of};

use crate::account::Account;
use crate::reason::Reason;

/// A request that an earlier run left, and that a lane of this run accepted.
#[derive(Clone, Copy)]
pub struct Resumed<'a> {
    /// The name of the run.
    pub run: u64,
    /// When the line was made: RFC 3339, in UTC, with milliseconds.
    pub time: &'a str,
    /// The home server's name in the configuration.
    pub home: &'a str,
    /// The number of its lane.
    pub lane: u16,
    /// The number of the request in its lane. In a line its key is `record`.
    pub number: u64,
    /// The name of the run that accepted it first.
    pub first_run: u64,
    /// The number of its lane there.
    pub first_lane: u16,
    /// The number of the request in that lane. In a line its key is `first_record`.
    pub first_number: u64,
}

/// What the next such line of a lane is compared with.
#[derive(Clone, Copy)]
pub struct Resumption {
    number: u64,
    first_run: u64,
    first_lane: u16,
    first_number: u64,
}

/// The lines of a lane about requests that it took over, as far as they are right.
#[derive(Clone, Copy)]
pub struct Resumptions {
    count: u64,
    last: Option<Resumption>,
}

impl Resumptions {
    ghost use Rattle.std.specs.Prelude.{◌≡◌, ◌↔◌, ◌≤◌, None, IsTrue, MatchOption};
    ghost use Rattle.ledger_rules.specs.Resuming.{Resumes};

    /// Returns those of a lane without lines.
    pub fn new() -> Resumptions
        ensures { (result.count ≡ 0) × (result.last ≡ None) }
    {
        Resumptions {
            count: 0,
            last: None,
        }
    }

    /// Returns how many they are.
    pub fn count(&self) -> u64
        ensures { result ≡ self.now.count }
    {
        self.count
    }

    /// Takes one more line of the lane, of which these are the numbers so far. It counts exactly if nothing is wrong with it, and
    /// otherwise this is what is.
    pub fn take(&mut self, its: &Resumed<'_>, account: &Account) -> Option<Reason>
        ensures { Resumes its.now account.now self.old result self.new }
    {
        if its.first_run == its.run {
            return Some(Reason::UnknownRecord);
        }
        if account.has(its.number) || !is_behind(self.last, its) {
            return Some(Reason::RecordTwice);
        }
        self.count = self.count.saturating_add(1);
        self.last = Some(resumption_of(its));
        None
    }

    /// Returns whether the last of them tells of a request that a lane which accepted so many did not accept.
    pub fn is_beyond(&self, accepted: u64) -> bool
        ensures { IsTrue result ↔ MatchOption self.now.last ⊥ (λ last. accepted ≤ last.number) }
    {
        match self.last {
            Some(last) => accepted <= last.number,
            None => false,
        }
    }
}

/// Returns whether a line stands behind the last one in the order of acceptance, in this run and in the earlier one.
fn is_behind(last: Option<Resumption>, its: &Resumed<'_>) -> bool
    ensures { IsTrue result ↔ IsBehind last its.now }
{
    match last {
        None => true,
        Some(last) => {
            last.number < its.number
                && (last.first_run != its.first_run
                    || last.first_lane != its.first_lane
                    || last.first_number < its.first_number)
        }
    }
}

fn resumption_of(its: &Resumed<'_>) -> Resumption
    ensures { result ≡ the_resumption_of its.now }
{
    Resumption {
        number: its.number,
        first_run: its.first_run,
        first_lane: its.first_lane,
        first_number: its.first_number,
    }
}
