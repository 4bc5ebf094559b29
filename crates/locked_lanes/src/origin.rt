//! Where an outstanding request comes from.

ghost use Rattle.std.specs.Prelude.{◌≡◌, ◌<◌, take, option_map, option_copied};
ghost use Rattle.locked_lanes.specs.Desk.{book};
ghost use Rattle.locked_lanes.specs.Origin.{origin_of, outstanding_under};
ghost use Rattle.locked_lanes.specs.Found.{TellsOriginFor, TellsOriginLawfully};

use crate::desk::Desk;
use crate::proxy::Proxy;
use crate::spent::Session;
use rad_lane::Record;
use rad_realms::Endpoint;
use rad_tables::Slot;
use std::sync::Wait;

/// Where an outstanding request comes from, and whose session it is of.
#[derive(Drop)]
pub struct Origin {
    /// Its number in its lane.
    pub number: u64,
    /// The client's address and port.
    pub client: Endpoint,
    /// Its User-Name, if it has one. It has as many octets at most as a session.
    pub user: Option<Session>,
    /// Its Acct-Session-Id, if it has one.
    pub session: Option<Session>,
}

impl Origin {
    /// Returns the origin of a request.
    pub(crate) fn of(request: &Record) -> Origin
        ensures { result ≡ origin_of request.now.recorded }
    {
        let stamp = request.stamp();
        let address = stamp.client;
        let port = stamp.port;
        Origin {
            number: stamp.number,
            client: Endpoint { address, port },
            user: kept(request.user()),
            session: kept(request.session()),
        }
    }
}

fn kept(octets: Option<&[u8]>) -> Option<Session>
    ensures { result ≡ option_map (take 253) (option_copied octets.entry) }
{
    match octets {
        Some(octets) => Some(Session::of(octets)),
        None => None,
    }
}

impl Desk {
    /// Returns the origin of the request that is outstanding under a pair, if there is one.
    pub fn origin(&self, slot: Slot) -> Option<Origin>
        ensures { result ≡ option_map (λ o. origin_of o.request) (outstanding_under (book self.now) slot) }
    {
        let sending = self.lane.sending_under(slot)?;
        Some(Origin::of(sending.request()))
    }

    /// Returns the same, if the lane has this number.
    fn origin_for(&self, number: u16, slot: Slot) -> Option<Origin>
        ensures tells { TellsOriginFor number (book self.now) slot result }
        ensures lawful { TellsOriginLawfully number slot result }
    {
        self.keep_law();
        if !self.has_number(number) {
            return None;
        }
        self.origin(slot)
    }
}

impl Proxy {
    /// Returns the origin of the request of a lane that is outstanding under a pair, if there is one.
    pub fn origin(&self, rt: &impl Wait, lane: u16, slot: Slot) -> Option<Origin>
        requires { lane < self.now }
        ensures { TellsOriginLawfully lane slot result }
    {
        self.lock(rt, lane).origin_for(lane, slot)
    }
}
