//! The request that marks a home server down.

ghost use Rattle.std.specs.Prelude.{◌≡◌, ◌<◌, ◌≤◌, ◌++◌, length, take, drop, MatchOption};
ghost use Rattle.rad_lane.specs.Dues.{NoneSpent};
ghost use Rattle.locked_lanes.specs.Desk.{book};
ghost use Rattle.locked_lanes.specs.Spent.{TellsSpent, spent_of};
ghost use Rattle.locked_lanes.specs.Found.{TellsSpentFor, TellsSpentLawfully};

use crate::desk::Desk;
use crate::proxy::Proxy;
use rad_lane::Sending;
use rad_realms::Endpoint;
use rad_tables::Moment;
use std::marker::Model;
use std::sync::Wait;

/// The most octets that the Value of an attribute has (RFC 2865 section 5).
const GREATEST_VALUE_LENGTH: usize = 253;

/// A spent request: it was sent as often as a round allows, and is unanswered.
#[derive(Drop)]
pub struct Spent {
    /// Its number in its lane.
    pub number: u64,
    /// The client's address and port.
    pub client: Endpoint,
    /// Its Acct-Session-Id, if it has one.
    pub session: Option<Session>,
    /// How many milliseconds ago it was accepted.
    pub age: u64,
}

/// The octets of an Acct-Session-Id (RFC 2866 section 5.5), stored in the value itself.
#[derive(Drop)]
pub struct Session {
    /// The octets, followed by others that don't count.
    octets: [u8; GREATEST_VALUE_LENGTH],
    /// The number of octets.
    count: usize,
}

impl Model for Session {
    ghost use Rattle.std.specs.Prelude.{List, ℕ, ◌≤◌, take};

    ghost Value = { List ℕ };

    ghost view = { λ s. take s.count s.octets };

    ghost invariant = { λ s. s.count ≤ 253 };
}

impl Session {
    /// Makes the session of these octets. Of more than 253 octets, which no attribute has, it keeps the first 253.
    pub fn of(octets: &[u8]) -> Session
        ensures { result ≡ take 253 octets.now }
    {
        let count = octets.len().min(GREATEST_VALUE_LENGTH);
        let mut filled = [0; GREATEST_VALUE_LENGTH];
        put(&mut filled, &octets[..count]);
        Session {
            octets: filled,
            count,
        }
    }

    /// Returns the octets.
    pub fn octets(&self) -> &[u8]
        ensures { result.now ≡ self.now }
    {
        &self.octets[..self.count]
    }
}

fn put(buffer: &mut [u8], octets: &[u8])
    requires { length octets.now ≤ length buffer.old }
    ensures { buffer.new ≡ octets.now ++ drop (length octets.now) buffer.old }
{
    buffer[..octets.len()].copy_from_slice(octets);
}

impl Spent {
    /// Returns what is reported of a sending at this moment.
    pub(crate) fn of(sending: &Sending, moment: Moment) -> Spent
        ensures { result ≡ spent_of sending.now moment }
    {
        let stamp = sending.request().stamp();
        let address = stamp.client;
        let port = stamp.port;
        let session = match sending.request().session() {
            Some(octets) => Some(Session::of(octets)),
            None => None,
        };
        Spent {
            number: stamp.number,
            client: Endpoint { address, port },
            session,
            age: moment.get().saturating_sub(stamp.moment.get()),
        }
    }
}

impl Desk {
    /// Returns the request that marks the home server down: of the lane's spent requests, the one with the earliest due
    /// time; ties go to the lowest number. Its age is that at `moment`.
    pub fn spent(&self, moment: Moment) -> Option<Spent>
        ensures { MatchOption result (NoneSpent (book self.now)) (TellsSpent (book self.now) moment) }
    {
        let sending = self.lane.spent()?;
        Some(Spent::of(sending, moment))
    }

    /// Returns the same, if the lane has this number.
    fn spent_for(&self, number: u16, moment: Moment) -> Option<Spent>
        ensures tells { TellsSpentFor number (book self.now) moment result }
        ensures lawful { TellsSpentLawfully number moment result }
    {
        self.keep_law();
        if !self.has_number(number) {
            return None;
        }
        self.spent(moment)
    }
}

impl Proxy {
    /// Returns the request that marked, or will mark, a lane's home server down: of the lane's spent requests, the one
    /// with the earliest due time; ties go to the lowest number.
    pub fn spent(&self, rt: &impl Wait, lane: u16, moment: Moment) -> Option<Spent>
        requires { lane < self.now }
        ensures { TellsSpentLawfully lane moment result }
    {
        self.lock(rt, lane).spent_for(lane, moment)
    }
}
