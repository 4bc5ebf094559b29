//! The standing of a lane: its counts and three moments.

ghost use Rattle.std.specs.Prelude.{◌≡◌, ◌<◌, ◌-◌, length, slice_get, option_map};
ghost use Rattle.rad_lane.specs.Lawful.{IsLawful};
ghost use Rattle.locked_lanes.specs.Desk.{book};
ghost use Rattle.locked_lanes.specs.Standing.{standing_of};

use crate::desk::Desk;
use crate::proxy::Proxy;
use rad_lane::{Answered, Counts, Stamp};
use rad_tables::Moment;
use std::sync::Wait;

/// The standing of a lane, all of it at one moment.
#[derive(Clone, Copy)]
pub struct Standing {
    /// The lane's counts.
    pub counts: Counts,
    /// When the first request of the queue was accepted.
    pub first_queued: Option<Moment>,
    /// When the first request that the book holds was accepted.
    pub first_held: Option<Moment>,
    /// When the last answer that the book holds was given.
    pub last_answered: Option<Moment>,
}

impl Desk {
    /// Returns the lane's standing. It looks at three entries of the book, whatever the book's length.
    pub fn standing(&self) -> Standing
        ensures standing { result ≡ standing_of (book self.now) }
        ensures lawful { IsLawful (book self.now) }
    {
        let counts = self.counts();
        let first_queued = self.first_queued();
        let first_held = moment_at(self.accepted(), 0);
        let last_answered = moment_of_last(self.lane.answered());
        Standing {
            counts,
            first_queued,
            first_held,
            last_answered,
        }
    }

    /// Returns when the first request of the queue was accepted, whose stamp follows those of all requests that were
    /// sent.
    fn first_queued(&self) -> Option<Moment>
        ensures { result ≡ option_map (λ r. r.stamp.moment) (slice_get (book self.now).queued 0) }
    {
        let accepted = self.accepted();
        let sent = accepted.len() - self.counts().queued;
        moment_at(accepted, sent)
    }
}

impl Proxy {
    /// Returns a lane's standing.
    pub fn standing(&self, rt: &impl Wait, lane: u16) -> Standing
        requires { lane < self.now }
    {
        self.lock(rt, lane).standing()
    }
}

fn moment_at(stamps: &[Stamp], place: usize) -> Option<Moment>
    ensures { result ≡ option_map (λ s. s.moment) (slice_get stamps.now place) }
{
    match stamps.get(place) {
        Some(stamp) => Some(stamp.moment),
        None => None,
    }
}

fn moment_of_last(answers: &[Answered]) -> Option<Moment>
    ensures { result ≡ option_map (λ a. a.moment) (slice_get answers.now (length answers.now - 1)) }
{
    match answers.get(answers.len().saturating_sub(1)) {
        Some(answer) => Some(answer.moment()),
        None => None,
    }
}
