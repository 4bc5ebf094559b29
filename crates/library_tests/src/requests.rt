//! A test of the request that an Authenticator is of, by a request that Python's hashlib signed.

use crate::comparing::holds;
use crate::nas::SEVENTH;
use rad_auth::{Secret, is_request_of};
use rad_packet::{HEADER_LENGTH, PacketRef, read};
use std::test::Fail;

/// Whether the Authenticator of a packet is that of the request with this Identifier and the packet's attributes but for so many
/// last octets.
fn is_its(packet: &PacketRef<'_>, identifier: u8, without: usize, secret: &Secret) -> bool {
    let octets = packet.octets();
    let end = octets.len().saturating_sub(without).max(HEADER_LENGTH);
    let attributes = &octets[HEADER_LENGTH..end];
    is_request_of(identifier, &packet.authenticator(), attributes, secret)
}

#[test]
fn an_authenticator_is_of_one_request(rt: HostRuntime) -> Result<(), Fail> {
    let packet = read(&SEVENTH)?;
    let secret = Secret::new(b"nas-secret")?;
    let other = Secret::new(b"home-secret")?;
    holds(&rt, is_its(&packet, 7, 0, &secret));
    holds(&rt, !is_its(&packet, 8, 0, &secret));
    holds(&rt, !is_its(&packet, 7, 4, &secret));
    holds(&rt, !is_its(&packet, 7, 0, &other));
    Ok(())
}
