//! Making, checking and answering a Status-Server.

ghost use Rattle.std.specs.Prelude.{◌≡◌, ◌≢◌, ◌+◌, ◌≤◌, ◌↔◌, [], length, slice_range, IsTrue, MatchOption};
ghost use Rattle.rad_packet.specs.Attribute.{attribute_text, of_kind};
ghost use Rattle.rad_packet.specs.Packet.{authenticator_of, code_of, identifier_of, packet_attributes, packet_text};
ghost use Rattle.rad_packet.specs.Place.{IsLastAt};
ghost use Rattle.rad_auth.specs.Authenticator.{IsRightResponse, accounting_response};
ghost use Rattle.rad_auth.specs.Hmac.{hmac_md5};
ghost use Rattle.rad_auth.specs.Status.{IsRightStatus, status_server};
ghost use Rattle.rad_auth.specs.internal.Zeroed.{zeroed_at};

use crate::authenticators::sign_datagram;
use crate::hmac::{hmac_md5, hmac_md5_of_parts};
use crate::secret::Secret;
use crate::{ACCOUNTING_RESPONSE, MESSAGE_AUTHENTICATOR, STATUS_SERVER};
use rad_packet::{AttributePlace, Datagram, HEADER_LENGTH, PacketRef};

/// The Length of a Message-Authenticator (RFC 3579 section 3.2).
const MESSAGE_AUTHENTICATOR_LENGTH: usize = 18;

/// The zeros that are hashed in place of a Message-Authenticator's Value (RFC 3579 section 3.2).
const NO_VALUE: [u8; 16] = [0; 16];

/// Whether a packet is valid as a Status-Server (RFC 5997 section 3): it has exactly one Message-Authenticator, and that
/// is valid. Hashes the packet once at most, and looks at each attribute once at most.
pub fn check_status(packet: &PacketRef<'_>, secret: &Secret) -> bool
    ensures { IsTrue result ↔ IsRightStatus secret.now packet.now }
{
    match only_message_authenticator(packet) {
        Some(at) if at.length == MESSAGE_AUTHENTICATOR_LENGTH => {
            // The Value follows Type and Length.
            is_right_value(packet.octets(), at.place + 2, secret)
        }
        _ => false,
    }
}

/// Returns the place of a packet's Message-Authenticator, if it has exactly one. Looks at each attribute once at most.
fn only_message_authenticator(packet: &PacketRef<'_>) -> Option<AttributePlace>
    ensures { MatchOption result
        (length (of_kind 80 (packet_attributes packet.now)) ≢ 1)
        (λ at. (length (of_kind 80 (packet_attributes packet.now)) ≡ 1) × IsLastAt packet.now 80 at.place at.length × (at.place + at.length ≤ length packet.now)) }
{
    let mut place = HEADER_LENGTH;
    let mut only = None;
    for attribute in packet.attributes() {
        let length = 2 + attribute.value.len();
        match attribute.kind {
            MESSAGE_AUTHENTICATOR if only.is_some() => return None,
            MESSAGE_AUTHENTICATOR => only = Some(AttributePlace { place, length }),
            _ => {}
        }
        place += length;
    }
    only
}

/// Whether the sixteen octets at this place are the HMAC-MD5 of the packet with zeros in their place.
fn is_right_value(packet: &[u8], place: usize, secret: &Secret) -> bool
    requires { place + 16 ≤ length packet.now }
    ensures { IsTrue result ↔ (slice_range packet.now place (place + 16) ≡ hmac_md5 secret.now (zeroed_at place packet.now)) }
{
    let before = &packet[..place];
    let value = &packet[place..place + 16];
    let after = &packet[place + 16..];
    value == hmac_md5_of_parts(secret.octets(), before, &NO_VALUE, after).as_slice()
}

/// Writes a Status-Server (RFC 5997 section 3) with this Identifier and Authenticator. It has one Message-Authenticator
/// and no other attribute. Hashes it once.
pub fn make_status(
    identifier: u8,
    authenticator: [u8; 16],
    secret: &Secret,
    datagram: &mut Datagram,
)
    ensures made { datagram.new ≡ status_server identifier authenticator secret.now }
    ensures counted { length datagram.new ≡ 38 }
    ensures right { IsRightStatus secret.now datagram.new }
{
    write_status(identifier, authenticator, &NO_VALUE, datagram);
    let value = hmac_md5(secret.octets(), datagram.bytes());
    write_status(identifier, authenticator, &value, datagram);
}

fn write_status(identifier: u8, authenticator: [u8; 16], value: &[u8; 16], datagram: &mut Datagram)
    ensures { datagram.new ≡ packet_text 12 identifier authenticator (attribute_text (record { kind = 80; value = value.now })) }
{
    datagram.begin(STATUS_SERVER, identifier, authenticator);
    datagram.push(MESSAGE_AUTHENTICATOR, value).unwrap();
}

/// Writes the answer to a valid Status-Server (RFC 5997 section 4.2): an Accounting-Response without attributes. Hashes
/// it once.
pub fn answer_status(packet: &PacketRef<'_>, secret: &Secret, datagram: &mut Datagram)
    requires status { code_of packet.now ≡ 12 }
    requires right { IsRightStatus secret.now packet.now }
    ensures answer { datagram.new ≡ accounting_response (identifier_of packet.now) (authenticator_of packet.now) [] secret.now }
    ensures signed { IsRightResponse secret.now (authenticator_of packet.now) datagram.new }
{
    let authenticator = packet.authenticator();
    datagram.begin(ACCOUNTING_RESPONSE, packet.identifier(), authenticator);
    sign_datagram(datagram, &authenticator, secret);
}
