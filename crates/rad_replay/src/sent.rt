//! The packets that each source port of a lane sent last, as far as a script needs them.

ghost use Rattle.std.specs.Prelude.{◌≡◌};
ghost use Rattle.rad_replay.specs.Sent.{KeepsSent, sends as the_sends, port_of};

use rad_lane::Action;
use rad_packet::Datagram;
use rad_realms::Home;
use std::alloc::{AllocError, Global};
use std::marker::Model;

/// The number of Identifiers.
const IDENTIFIERS: usize = 256;

/// The Authenticators of the packets that a source port sent last, one for each Identifier: zeros if none was sent.
#[derive(Drop)]
pub struct LastSent {
    authenticators: Vec<[u8; 16]>,
}

impl Model for LastSent {
    ghost use Rattle.std.specs.Prelude.{◌≡◌, List, ℕ, length};

    ghost Value = { List (List ℕ) };

    ghost view = { λ sent. sent.authenticators.items };

    ghost invariant = { λ sent. length sent.authenticators.items ≡ 256 };
}

impl LastSent {
    ghost use Rattle.std.specs.Prelude.{◌≡◌, ◌<◌, ℕ, Some, IfOk, replicate, slice_get};
    ghost use Rattle.rad_packet.specs.Packet.{IsPacketText};
    ghost use Rattle.rad_replay.specs.Sent.{with_sent};

    /// Makes a source port that has sent nothing.
    ///
    /// # Errors
    ///
    /// `AllocError` if memory is refused.
    pub fn new(alloc: Global) -> Result<Self, AllocError>
        ensures { IfOk result (λ sent. (k : ℕ) → k < 256 → slice_get sent k ≡ Some (replicate 16 0)) }
    {
        let mut authenticators = Vec::new(alloc);
        authenticators.resize(IDENTIFIERS, [0; 16])?;
        Ok(LastSent { authenticators })
    }

    /// Returns the Authenticator of the packet that was last sent under an Identifier.
    pub fn authenticator(&self, identifier: u8) -> [u8; 16]
        ensures { slice_get self.now identifier ≡ Some result }
    {
        self.authenticators[usize::from(identifier)]
    }

    /// Keeps the Authenticator of a packet that was sent, given as the packet's octets.
    pub fn keep(&mut self, packet: &[u8])
        requires { IsPacketText packet.now }
        ensures { self.new ≡ with_sent self.old packet.now }
    {
        let mut authenticator = [0; 16];
        authenticator.copy_from_slice(&packet[4..20]);
        self.authenticators[usize::from(packet[1])] = authenticator;
    }
}

/// What each source port of each lane sent last.
#[derive(Drop)]
pub struct Ports {
    /// The source ports of each lane, in the order of the configuration.
    lanes: Vec<Vec<LastSent>>,
}

impl Ports {
    /// Makes the source ports of these home servers' lanes, which have sent nothing.
    ///
    /// # Errors
    ///
    /// `AllocError` if memory is refused.
    pub fn new(alloc: Global, homes: &[Home]) -> Result<Self, AllocError> {
        let mut lanes = Vec::with_capacity(alloc, homes.len())?;
        for home in homes {
            let count = home.limits().numbers().ports;
            lanes.push(new_ports(alloc, count)?)?;
        }
        Ok(Ports { lanes })
    }

    /// Returns what this source port of a lane sent last, if there is such a port.
    pub fn get(&self, lane: u16, port: u16) -> Option<&LastSent> {
        self.lanes.get(usize::from(lane))?.get(usize::from(port))
    }

    /// Keeps the packet that a lane's step gave to be sent, if it gave one.
    pub fn keep(&mut self, lane: u16, action: &Action, packet: &Datagram) {
        let Some(port) = source_port(action) else {
            return;
        };
        if let Some(ports) = self.lanes.get_mut(usize::from(lane)) {
            keep_sent(ports.as_mut_slice(), port, action, packet);
        }
    }
}

fn new_ports(alloc: Global, count: u32) -> Result<Vec<LastSent>, AllocError> {
    let mut ports = Vec::with_capacity(alloc, count as usize)?;
    for _ in 0..count {
        ports.push(LastSent::new(alloc)?)?;
    }
    Ok(ports)
}

/// Keeps the packet that a step gave to be sent from a source port, if it gave one.
fn keep_sent(sent: &mut [LastSent], port: u16, action: &Action, packet: &Datagram)
    ensures { KeepsSent sent.old port action.now packet.now sent.new }
{
    let place = usize::from(port);
    if place < sent.len() && sends(action) {
        let sent = &mut sent[place];
        sent.keep(packet.bytes());
    }
}

fn sends(action: &Action) -> bool
    ensures { result ≡ the_sends action.now }
{
    matches!(
        action,
        Action::Sent(..) | Action::Resent(..) | Action::Probed(_)
    )
}

/// Returns the source port that a step's packet is sent from, if the step gave one.
pub fn source_port(action: &Action) -> Option<u16>
    ensures { result ≡ port_of action.now }
{
    match action {
        Action::Sent(_, slot) | Action::Resent(_, slot) | Action::Probed(slot) => Some(slot.port),
        Action::WentDown | Action::WentUp | Action::Idle(_) => None,
    }
}
