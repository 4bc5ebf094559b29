//! What is known of a lane of a run, and what its lines make of it.

ghost use Rattle.std.specs.Prelude.{◌≡◌};
ghost use Rattle.rad_audit.specs.Lanes.{fates_in};

use crate::hidden::HiddenLines;
use crate::judging::JudgedEntry;
use crate::shown::Word;
use crate::taking::{TakenEntry, judge_count, take_entry, take_left};
use crate::times::Times;
use ledger_lines::{LaneCount, LaneStart, moment_of};
use ledger_rules::{
    Account, AnswerCount, EndCounts, Ending, Fates, Gap, Left, Reason, RecordCount, Resumed,
    Resumptions, Tally,
};
use rad_auth::Secret;
use std::alloc::{AllocError, Global};

/// A lane of a run.
#[derive(Drop)]
pub struct Lane {
    pub number: u16,
    /// The home server's name.
    pub home: Word,
    /// The entries that are right.
    pub tally: Tally,
    /// The numbers of these entries and of the requests that were left.
    pub account: Account,
    /// The requests that it took over from earlier runs, in the lines that are right.
    pub resumed: Resumptions,
    /// What the end lines say.
    pub ending: Ending,
    /// The moments of these entries.
    pub times: Times,
    /// How many of these lines were not judged, or not all of them, because the configuration does not have the home server or
    /// the client.
    pub not_judged: u64,
    /// Its lines that are left out.
    pub hidden: HiddenLines,
    /// How many entries are `WrongSent`.
    pub wrong_sent: u64,
}

impl Lane {
    ghost use Rattle.std.specs.Prelude.{◌≡◌, ◌↔◌, not, IfOk, IsTrue, OnOk, option_copied};
    ghost use Rattle.rad_config.specs.Configuration.{Configuration};
    ghost use Rattle.rad_audit.specs.Judging.{IsJudged};
    ghost use Rattle.rad_audit.specs.Lanes.{IsBeyond, IsFresh, MakesCount, MakesEarlier, MakesEnd, MakesEntry, MakesLeft, MakesResumed, one_more_if, secret_at, standing};

    /// Returns a lane without lines.
    ///
    /// # Errors
    ///
    /// `AllocError` if memory is refused.
    pub fn new(alloc: Global, start: &LaneStart<'_>) -> Result<Lane, AllocError>
        ensures number { IfOk result (λ lane. lane.number ≡ start.now.lane) }
        ensures fresh { IfOk result (λ lane. IsFresh start.now (standing lane)) }
    {
        Ok(Lane {
            number: start.lane,
            home: Word::new(alloc, start.home)?,
            tally: Tally::new(start.serial),
            account: Account::new(alloc),
            resumed: Resumptions::new(),
            ending: Ending::new(),
            times: Times::new(),
            not_judged: 0,
            hidden: HiddenLines::new(),
            wrong_sent: 0,
        })
    }

    /// Takes an entry.
    ///
    /// # Errors
    ///
    /// `AllocError` if memory is refused. This is so of each of these calls.
    pub fn take_entry(&mut self, judged: &JudgedEntry<'_>) -> Result<TakenEntry, AllocError>
        requires { IsJudged judged.now }
        ensures number { self.new.number ≡ self.old.number }
        ensures makes { OnOk result (MakesEntry judged.now (standing self.old) (standing self.new)) }
    {
        let taken = take_entry(judged, &mut self.tally, &mut self.account)?;
        match taken {
            TakenEntry::Wrong(Reason::WrongSent) => {
                self.wrong_sent = self.wrong_sent.saturating_add(1);
            }
            TakenEntry::Wrong(_) => {}
            TakenEntry::Counted(_) => {
                self.ending.go_on();
                self.times.take(moment_of(judged.entry.about.time));
                self.count_unjudged(judged.home.is_some() && judged.client.is_some());
            }
        }
        Ok(taken)
    }

    /// Takes a request that was left, under the secret of its client. Returns what is wrong with it, if anything is.
    pub fn take_left(
        &mut self,
        left: &Left<'_>,
        client: Option<&Secret>,
    ) -> Result<Option<Reason>, AllocError>
        ensures number { self.new.number ≡ self.old.number }
        ensures makes { OnOk result ((config : Configuration) → option_copied client.entry ≡ secret_at config left.now.about.client → MakesLeft config left.now (standing self.old) (standing self.new)) }
    {
        let wrong = take_left(left, client, &mut self.account)?;
        if wrong.is_none() {
            self.ending.go_on();
            self.count_unjudged(client.is_some());
        }
        Ok(wrong)
    }

    /// Takes a count of what became of a response. Returns what is wrong with it, if anything is.
    pub fn take_count(&mut self, count: &RecordCount<'_>) -> Option<Reason>
        ensures number { self.new.number ≡ self.old.number }
        ensures makes { MakesCount count.now (standing self.old) (standing self.new) }
    {
        let wrong = judge_count(count, &self.tally, &self.account);
        if wrong.is_none() {
            self.ending.go_on();
        }
        wrong
    }

    /// Takes a count of how often the response of an earlier run was sent again. Returns what is wrong with it, if anything is:
    /// that run is not this one.
    pub fn take_earlier(&mut self, count: &AnswerCount<'_>) -> Option<Reason>
        ensures number { self.new.number ≡ self.old.number }
        ensures makes { MakesEarlier count.now (standing self.old) (standing self.new) }
    {
        if count.answer_run == count.run {
            return Some(Reason::UnknownRecord);
        }
        self.ending.go_on();
        None
    }

    /// Takes a request that it took over. Returns what is wrong with it, if anything is.
    pub fn take_resumed(&mut self, resumed: &Resumed<'_>) -> Option<Reason>
        ensures number { self.new.number ≡ self.old.number }
        ensures makes { MakesResumed resumed.now (standing self.old) (standing self.new) }
    {
        let wrong = self.resumed.take(resumed, &self.account);
        if wrong.is_none() {
            self.ending.go_on();
        }
        wrong
    }

    /// Whether a line tells of a request taken over that is none of those which an end line counts.
    pub fn is_beyond(&self, count: &LaneCount) -> bool
        ensures { IsTrue result ↔ IsBeyond count.now.accepted self.now.resumed.last }
    {
        match count.accepted {
            Some(accepted) => self.resumed.is_beyond(accepted),
            None => false,
        }
    }

    /// Takes what an end line counts. Returns the gap behind the last entry, if there is one.
    pub fn end(&mut self, count: &LaneCount) -> Option<Gap>
        ensures number { self.new.number ≡ self.old.number }
        ensures makes { MakesEnd count.now (standing self.old) (standing self.new) }
    {
        let fates = fates_of(count);
        self.ending.end(EndCounts {
            entries: count.entries,
            fates,
        });
        self.account.end(fates);
        self.tally.end(count.entries)
    }

    /// Counts a line that was not judged, or not all of it.
    fn count_unjudged(&mut self, is_judged: bool)
        ensures counted { self.new.not_judged ≡ one_more_if (not is_judged) self.old.not_judged }
        ensures number { self.new.number ≡ self.old.number }
        ensures others { (self.new.home ≡ self.old.home) × (self.new.tally ≡ self.old.tally) × (self.new.account ≡ self.old.account) × (self.new.resumed ≡ self.old.resumed) × (self.new.ending ≡ self.old.ending) }
    {
        if !is_judged {
            self.not_judged = self.not_judged.saturating_add(1);
        }
    }
}

fn fates_of(count: &LaneCount) -> Option<Fates>
    ensures { result ≡ fates_in count.now }
{
    match (count.accepted, count.left) {
        (Some(accepted), Some(left)) => Some(Fates { accepted, left }),
        _ => None,
    }
}
