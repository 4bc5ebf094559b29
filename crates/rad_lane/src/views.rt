//! The calls that show the book of a lane.

ghost use Rattle.std.specs.Prelude.{◌≡◌, ◌↔◌, IsTrue, IsSome, MatchOption, option_and_then};
ghost use Rattle.std.specs.FinMap as map;
ghost use Rattle.std.specs.Option.{option_copied};
ghost use Rattle.rad_lane.specs.Counting.{counts_of, IsDone};
ghost use Rattle.rad_lane.specs.Dues.{NoneSpent, IsFirstSpent};
ghost use Rattle.rad_lane.specs.Entries.{request_in};
ghost use Rattle.rad_lane.specs.Lawful.{IsLawful};
ghost use Rattle.rad_lane.specs.Setup.{IsOf};

use crate::{Answered, Counts, Entry, Lane, Record, Sending, Stamp, Watch};
use block_queue::Fifo;
use rad_auth::Secret;
use rad_tables::Slot;

impl<Q: Fifo<Record>> Lane<Q> {
    /// Returns whether the lane has this number and its home server has this secret. It compares the secrets' octets.
    pub fn is_of(&self, number: u16, secret: &Secret) -> bool
        ensures { IsTrue result ↔ IsOf self.now.setup number secret.now }
    {
        self.setup.lane() == number && self.setup.home().octets() == secret.octets()
    }

    /// Returns whether the lane is drained.
    pub fn is_draining(&self) -> bool
        ensures { IsTrue result ↔ IsSome self.now.drain }
    {
        self.drain.is_some()
    }

    /// Returns whether the lane is drained, with nothing queued and nothing outstanding.
    pub fn is_done(&self) -> bool
        ensures { IsTrue result ↔ IsDone self.now }
    {
        self.is_draining() && self.queued.is_empty() && self.outstanding == 0
    }

    /// Returns the counts of the lane.
    pub fn counts(&self) -> Counts
        ensures counts { result ≡ counts_of self.now }
        ensures lawful { IsLawful self.now }
    {
        Counts {
            opening: self.opening,
            accepted: self.next_number(),
            answered: self.served,
            queued: self.queued.len(),
            outstanding: self.outstanding,
            up: matches!(self.watch, Watch::Up),
            draining: self.is_draining(),
        }
    }

    /// Returns the stamps of the requests that the book holds, in order of acceptance.
    pub fn accepted(&self) -> &[Stamp]
        ensures value { result.now ≡ self.now.accepted }
        ensures lawful { IsLawful self.now }
    {
        self.accepted.as_slice()
    }

    /// Returns the stamps of those requests of the book that were sent, in order.
    pub fn sent(&self) -> &[Stamp]
        ensures { result.now ≡ self.now.sent }
    {
        let accepted = self.accepted();
        &accepted[..accepted.len() - self.queued.len()]
    }

    /// Returns the answers that the book holds, in order.
    pub fn answered(&self) -> &[Answered]
        ensures { result.now ≡ self.now.answered }
    {
        self.answered.as_slice()
    }

    /// Returns the spent sending that is due first; of those with the same due time, the one of the lowest request
    /// number. It is the one for which the home server is marked down. The call looks at each outstanding sending
    /// once.
    pub fn spent(&self) -> Option<&Sending>
        ensures { MatchOption (option_copied result) (NoneSpent self.now) (IsFirstSpent self.now) }
    {
        let slot = self.slots.least_due(true)?;
        match self.slots.get(slot) {
            Some(Entry::Sending(sending)) => Some(sending),
            Some(Entry::Probe(_)) | None => None,
        }
    }

    /// Returns the sending of the request that is outstanding under a pair, if there is one.
    pub fn sending_under(&self, slot: Slot) -> Option<&Sending>
        ensures { option_copied result ≡ option_and_then request_in (map.get self.now.held slot) }
    {
        let entry = self.slots.get(slot);
        match entry {
            Some(Entry::Sending(sending)) => Some(sending),
            Some(Entry::Probe(_)) | None => None,
        }
    }
}
