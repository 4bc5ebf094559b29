//! Hearing the home server, if the ring has a place for the response.

ghost use Rattle.std.specs.Prelude.{◌≡◌, ◌<◌, ◌+◌, [], ◌∷◌, ◌++◌};
ghost use Rattle.rtrb.specs.Ring.{sent, known_free, SameProducer};
ghost use Rattle.locked_lanes.specs.Fates.{MayFollow};
ghost use Rattle.locked_lanes.specs.Tells.{Tells};

use crate::desk::Desk;
use crate::for_proof::keep_law_of;
use crate::numbered::Numbered;
use rad_lane::{HearFault, Heard, Outgoing};
use rad_tables::Moment;
use rtrb::Producer;
use std::alloc::Global;
use std::fmt;

/// What a datagram from the home server was.
#[derive(Clone, Copy, Debug, PartialEq, Eq)]
pub enum Told {
    /// A verified reply to a request. The response of this serial was added to the ring.
    Answer(u64),
    /// The valid answer to the probe.
    ProbeAnswered,
}

/// Why a datagram from the home server is unheard. It is printed as `RingFull`, or as the lane's fault. There is no
/// fault of a lane that does not exist: only a request can be for one.
#[derive(Clone, Copy, Debug, PartialEq, Eq)]
pub enum DeskFault {
    /// The ring had no free place for a response. The datagram was not read, so the answer to a probe, which needs no
    /// place, is unheard too.
    RingFull,
    /// The lane did not hear it, for this reason.
    Lane(HearFault),
}

impl DeskFault {
    ghost use Rattle.std.specs.Prelude.{◌≡◌};
    ghost use Rattle.locked_lanes.specs.Printed.{desk_fault_name, desk_fault_place};

    /// Returns the name of the fault, without the read fault.
    pub fn name(self) -> &'static str
        ensures { result.now ≡ desk_fault_name self }
    {
        match self {
            DeskFault::RingFull => "RingFull",
            DeskFault::Lane(fault) => fault.name(),
        }
    }

    /// Returns the place of the fault among all: 0 is that of a full ring, and the lane's faults follow in the order of
    /// [`rad_lane::HEAR_FAULTS`].
    pub fn place(self) -> usize
        ensures { result ≡ desk_fault_place self }
    {
        match self {
            DeskFault::RingFull => 0,
            DeskFault::Lane(fault) => fault.place() + 1,
        }
    }
}

impl fmt::Display for DeskFault {
    ghost use Rattle.std.specs.Prelude.{Some};
    ghost use Rattle.locked_lanes.specs.Printed.{desk_fault_text};

    ghost output = { λ fault. Some (desk_fault_text fault) };

    fn fmt<W: fmt::Write>(&self, f: &mut fmt::Formatter<W>) -> fmt::Result {
        match self {
            DeskFault::RingFull => f.write_str("RingFull"),
            DeskFault::Lane(fault) => write!(f, "{fault}"),
        }
    }
}

impl Desk {
    /// Passes a datagram that came to a source port from the home server to the lane, if the ring has a free place. The
    /// response that the lane gives is added to the ring.
    ///
    /// # Errors
    ///
    /// `RingFull` if the ring is full, and `Lane` if the lane does not hear the datagram. The lane and the responses
    /// added are unchanged.
    pub fn hear(
        &mut self,
        alloc: Global,
        moment: Moment,
        port: u16,
        datagram: &[u8],
    ) -> Result<Told, DeskFault>
        ensures { Tells self.old moment port datagram.now result self.new }
    {
        if self.giver.is_full() {
            return Err(DeskFault::RingFull);
        }
        self.keep_law();
        let heard = self.lane.hear(alloc, moment, port, datagram);
        keep_law_of(&self.lane);
        match heard {
            Ok(Heard::Answer(response)) => {
                let serial = give(&mut self.giver, response);
                Ok(Told::Answer(serial))
            }
            Ok(Heard::ProbeAnswered) => Ok(Told::ProbeAnswered),
            Err(fault) => Err(DeskFault::Lane(fault)),
        }
    }
}

fn give(giver: &mut Producer<Outgoing, Global, Numbered>, response: Outgoing) -> u64
    requires place { 0 < known_free giver.old }
    requires next { MayFollow (sent giver.old) response }
    ensures serial { result ≡ response.serial }
    ensures sent { sent giver.new ≡ sent giver.old ++ response ∷ [] }
    ensures free { known_free giver.old ≡ known_free giver.new + 1 }
    ensures ring { SameProducer giver.old giver.new }
{
    let serial = response.serial;
    giver.push_reserved(response);
    serial
}
