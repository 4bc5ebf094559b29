//! The path of a NAS's datagram through the proxy: it is passed to the lane of its realm, or answered.

ghost use Rattle.rad_lane.specs.Datagrams.{Datagrams};
ghost use Rattle.rad_replay.specs.Path.{TakesIn};

use rad_desk::Proxy;
use rad_desk::laws::{Handled, handle};
use rad_lane::Refusal;
use rad_packet::Datagram;
use rad_realms::{Config, Dropped, check_in};
use rad_tables::Moment;
use std::alloc::Global;
use std::sync::Wait;

/// A datagram of a NAS: the address and port that it comes from, its octets, and the moment at which it arrives.
#[derive(Clone, Copy)]
pub struct Arrival<'a> {
    pub address: [u8; 4],
    pub port: u16,
    pub octets: &'a [u8],
    pub moment: Moment,
}

/// Why a NAS's datagram is neither taken nor answered.
#[derive(Clone, Copy)]
pub enum PathFault {
    /// It is dropped.
    Dropped(Dropped),
    /// Its request's lane refuses it.
    Refused(Refusal),
}

/// Passes a NAS's request to the lane of its realm, or answers its Status-Server. What is to be sent to the NAS is
/// written to `written`; for a request, that is the response, if the lane still has it. The datagram is checked before
/// the lane is locked.
///
/// # Errors
///
/// The reason for which it is neither taken nor answered. Then nothing is written.
pub fn take_in(
    rt: &impl Wait,
    alloc: Global,
    config: &Config,
    proxy: &Proxy,
    arrival: Arrival<'_>,
    written: &mut Datagram,
) -> Result<Handled, PathFault>
    ensures { TakesIn config.now arrival.entry proxy.now result (record { before = written.old; after = written.new }) }
{
    match check_in(config, arrival.address, arrival.port, arrival.octets) {
        Ok(incoming) => match handle(rt, alloc, proxy, &incoming, arrival.moment, written) {
            Ok(handled) => Ok(handled),
            Err(refusal) => Err(PathFault::Refused(refusal)),
        },
        Err(dropped) => Err(PathFault::Dropped(dropped)),
    }
}
