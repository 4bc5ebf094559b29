//! Reading a datagram as a packet.

ghost use Rattle.std.specs.Prelude.{◌≡◌, ◌≤◌, List, ℕ, length, take, drop, slice_range, MatchResult, MatchOption, IfSome};
ghost use Rattle.rad_packet.specs.Attribute.{AreAttributes};
ghost use Rattle.rad_packet.specs.Packet.{IsPacketText};
ghost use Rattle.rad_packet.specs.Reading.{ReadsAs, Refuses, BeginsNoAttribute, BeginsAttribute, IsFirstInvalid};

use crate::faults::ReadFault;
use crate::packet_ref::PacketRef;
use crate::{GREATEST_LENGTH, HEADER_LENGTH};

/// The least Length of an attribute, that of Type and Length alone (RFC 2865 section 5).
const LEAST_ATTRIBUTE_LENGTH: usize = 2;

/// Reads a datagram as a packet (RFC 2866 section 3). Octets beyond the packet's Length are padding and are
/// ignored. The cost is linear in the number of attributes.
///
/// # Errors
///
/// The first [`ReadFault`] that applies, if the datagram is not a packet.
pub fn read(datagram: &[u8]) -> Result<PacketRef<'_>, ReadFault>
    ensures { MatchResult result (λ packet. ReadsAs datagram.now packet) (λ fault. Refuses datagram.now fault) }
{
    if datagram.len() < HEADER_LENGTH {
        return Err(ReadFault::Short);
    }
    let length = 256 * usize::from(datagram[2]) + usize::from(datagram[3]);
    if length < HEADER_LENGTH || length > GREATEST_LENGTH {
        return Err(ReadFault::BadLength);
    }
    if datagram.len() < length {
        return Err(ReadFault::Truncated);
    }
    let octets = &datagram[..length];
    match first_invalid(octets) {
        Some(place) => Err(ReadFault::BadAttribute(place)),
        None => Ok(PacketRef::over(octets)),
    }
}

/// Returns the offset of the first invalid attribute in a packet's octets.
fn first_invalid(octets: &[u8]) -> Option<usize>
    requires { 20 ≤ length octets.now }
    ensures { MatchOption result (AreAttributes (drop 20 octets.now)) (λ place. IsFirstInvalid octets.now place) }
{
    let mut place = HEADER_LENGTH;
    while place < octets.len() {
        match first_length(&octets[place..]) {
            Some(length) => place += length,
            None => return Some(place),
        }
    }
    None
}

fn first_length(octets: &[u8]) -> Option<usize>
    ensures { MatchOption result (BeginsNoAttribute octets.now) (λ len. BeginsAttribute octets.now len) }
{
    let [_, length, ..] = octets else {
        return None;
    };
    let length = usize::from(*length);
    if length < LEAST_ATTRIBUTE_LENGTH || length > octets.len() {
        return None;
    }
    Some(length)
}
