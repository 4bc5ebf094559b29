//! The octets of the datagrams that a script describes.

ghost use Rattle.std.specs.Prelude.{◌≤◌, OnOk, length, vec_len};

use crate::datagrams::{Changes, Make, Packet, Template};
use crate::faults::Halt;
use crate::sent::{LastSent, Ports};
use rad_auth::{
    MESSAGE_AUTHENTICATOR, STATUS_SERVER, Secret, make_status, request_authenticator,
    response_authenticator,
};
use rad_packet::{Datagram, PacketRef, read};
use rad_realms::Config;
use std::alloc::AllocError;

/// The Authenticator of each Status-Server that is made.
const STATUS_AUTHENTICATOR: [u8; 16] = [0xa5; 16];

/// The sender of a datagram.
#[derive(Clone, Copy)]
enum Sender<'a> {
    /// A NAS, with its client's secret if its address is a client's.
    Nas(Option<&'a Secret>),
    /// A home server, with its secret, and with what its lane sent last from the source port that it answers, if the
    /// lane has that port.
    Home(&'a Secret, Option<&'a LastSent>),
}

impl Sender<'_> {
    /// Returns the secret that the sender signs with, if it has one.
    fn secret(&self) -> Option<&Secret> {
        match self {
            Sender::Nas(secret) => *secret,
            Sender::Home(secret, _) => Some(*secret),
        }
    }

    /// Returns the Authenticator of the sender's packet (RFC 2866 section 3): the Request Authenticator of a NAS, or
    /// zeros without a secret; the Response Authenticator of a home server, for the packet that was last sent to it
    /// under the packet's Identifier.
    fn authenticator_of(&self, packet: &PacketRef<'_>) -> [u8; 16] {
        match self {
            Sender::Nas(None) => [0; 16],
            Sender::Nas(Some(secret)) => request_authenticator(packet, secret),
            Sender::Home(secret, sent) => {
                let answered = match sent {
                    Some(sent) => sent.authenticator(packet.identifier()),
                    None => [0; 16],
                };
                response_authenticator(packet, &answered, secret)
            }
        }
    }
}

/// Writes the octets of a datagram of a NAS at this address, in place of what `octets` had. A packet that is made is
/// valid under the client's secret, if the address is a client's.
///
/// # Errors
///
/// `Memory` if a growth is refused, `Malformed` if more octets are cut than there are.
pub fn build_request(
    config: &Config,
    address: [u8; 4],
    packet: &Packet<'_>,
    octets: &mut Vec<u8>,
) -> Result<(), Halt> {
    match config.client_of(address) {
        Some(client) => {
            let secret = Some(client.secret());
            build(packet, Sender::Nas(secret), octets)
        }
        None => build(packet, Sender::Nas(None), octets),
    }
}

/// Writes the octets of a datagram of a lane's home server, in place of what `octets` had. A packet that is made is
/// valid under the home server's secret, and answers what this source port sent last.
///
/// # Errors
///
/// `Memory` if a growth is refused, `Malformed` if there is no such lane or more octets are cut than there are.
pub fn build_reply(
    config: &Config,
    sent: &Ports,
    lane: u16,
    port: u16,
    packet: &Packet<'_>,
    octets: &mut Vec<u8>,
) -> Result<(), Halt> {
    let Some(home) = config.homes().get(usize::from(lane)) else {
        return Err(Halt::Malformed);
    };
    let sent = sent.get(lane, port);
    build(packet, Sender::Home(home.secret(), sent), octets)
}

/// Writes the octets of a datagram, in place of what `octets` had. A packet that is made is valid for its sender.
///
/// # Errors
///
/// `Memory` if a growth is refused, `Malformed` if more octets are cut than there are.
fn build(packet: &Packet<'_>, sender: Sender<'_>, octets: &mut Vec<u8>) -> Result<(), Halt> {
    octets.clear();
    match packet {
        Packet::Raw(raw) => Ok(raw.push_to(octets)?),
        Packet::Made(template, changes) => build_made(template, changes, sender, octets),
    }
}

fn build_made(
    template: &Template<'_>,
    changes: &Changes<'_>,
    sender: Sender<'_>,
    octets: &mut Vec<u8>,
) -> Result<(), Halt> {
    write_template(template, sender, octets)?;
    if changes.spoil {
        spoil(template, octets);
    }
    change(changes, octets)
}

fn write_template(
    template: &Template<'_>,
    sender: Sender<'_>,
    octets: &mut Vec<u8>,
) -> Result<(), AllocError>
    ensures { OnOk result (20 ≤ vec_len octets.new) }
{
    match template {
        Template::Make(make) => write_made(make, sender, octets),
        Template::Status { identifier } => write_status(*identifier, sender.secret(), octets),
    }
}

/// Writes a packet with these parts, signed by its sender if it is read as a packet.
fn write_made(make: &Make<'_>, sender: Sender<'_>, octets: &mut Vec<u8>) -> Result<(), AllocError>
    ensures { OnOk result (20 ≤ vec_len octets.new) }
{
    let attributes = &make.attributes;
    let length = 20 + attributes.count();
    let [high, low] = [(length / 256) as u8, (length % 256) as u8];
    octets.extend_from_slice(&[make.code, make.identifier, high, low])?;
    octets.extend_from_slice(&[0; 16])?;
    attributes.push_to(octets)?;
    sign(octets, sender);
    Ok(())
}

/// Writes a Status-Server that is valid under the secret, or, without a secret, one whose Authenticator and
/// Message-Authenticator are zeros.
fn write_status(
    identifier: u8,
    secret: Option<&Secret>,
    octets: &mut Vec<u8>,
) -> Result<(), AllocError>
    ensures { OnOk result (20 ≤ vec_len octets.new) }
{
    let mut status = Datagram::new();
    match secret {
        Some(secret) => make_status(identifier, STATUS_AUTHENTICATOR, secret, &mut status),
        None => {
            status.begin(STATUS_SERVER, identifier, [0; 16]);
            let _ = status.push(MESSAGE_AUTHENTICATOR, &[0; 16]);
        }
    }
    octets.extend_from_slice(status.bytes())
}

/// Sets the Authenticator to the sender's, except in octets that are not read as a packet, which are dropped before
/// their Authenticator is looked at.
fn sign(octets: &mut [u8], sender: Sender<'_>) {
    let authenticator = match read(octets) {
        Ok(packet) => sender.authenticator_of(&packet),
        Err(_) => return,
    };
    octets[4..20].copy_from_slice(&authenticator);
}

fn spoil(template: &Template<'_>, octets: &mut [u8])
    requires { 20 ≤ length octets.old }
{
    let place = match template {
        Template::Make(_) => 19,
        Template::Status { .. } => octets.len() - 1,
    };
    octets[place] ^= 1;
}

fn change(changes: &Changes<'_>, octets: &mut Vec<u8>) -> Result<(), Halt> {
    changes.pad.push_to(octets)?;
    if changes.cut > octets.len() {
        return Err(Halt::Malformed);
    }
    octets.truncate(octets.len() - changes.cut);
    Ok(())
}
