//! Request and Response Authenticators (RFC 2866 section 3).

ghost use Rattle.std.specs.Prelude.{◌≡◌, ◌≤◌, ◌/◌, ◌%◌, ◌++◌, ◌↔◌, [], ◌∷◌, length, take, drop, IsTrue};
ghost use Rattle.std.specs.Int.{w64, from_be_bytes};
ghost use Rattle.md5.specs.Md5.{md5};
ghost use Rattle.rad_packet.specs.Packet.{IsPacketText, attribute_octets, code_of, identifier_of, packet_text};
ghost use Rattle.rad_auth.specs.Authenticator.{IsRequestOf, IsRightRequest, IsRightResponse, accounting_request, request_authenticator, response_authenticator};

use crate::ACCOUNTING_REQUEST;
use crate::secret::Secret;
use md5::{Digest, Md5};
use rad_packet::{Datagram, HEADER_LENGTH, PacketRef};

/// The zeros that are hashed in place of a Request Authenticator (RFC 2866 section 3).
pub(crate) const NO_AUTHENTICATOR: [u8; 16] = [0; 16];

/// Returns whether two Authenticators are the same. They are compared as numbers, which takes less time than octet by octet.
fn is_same(one: &[u8; 16], other: &[u8; 16]) -> bool
    ensures { IsTrue result ↔ one.now ≡ other.now }
{
    first_half(one) == first_half(other) && last_half(one) == last_half(other)
}

fn first_half(octets: &[u8; 16]) -> u64
    ensures { result ≡ from_be_bytes w64 (take 8 octets.now) }
{
    let o = octets;
    u64::from_be_bytes([o[0], o[1], o[2], o[3], o[4], o[5], o[6], o[7]])
}

fn last_half(octets: &[u8; 16]) -> u64
    ensures { result ≡ from_be_bytes w64 (drop 8 octets.now) }
{
    let o = octets;
    u64::from_be_bytes([o[8], o[9], o[10], o[11], o[12], o[13], o[14], o[15]])
}

/// Returns the Request Authenticator of an Accounting-Request (RFC 2866 section 3). Hashes the packet once.
pub fn request_authenticator(packet: &PacketRef<'_>, secret: &Secret) -> [u8; 16]
    ensures { result ≡ request_authenticator secret.now packet.now }
{
    digest(packet.octets(), &NO_AUTHENTICATOR, secret)
}

/// Returns the Response Authenticator of a response to a request with this Authenticator (RFC 2866 section 3).
/// Hashes the packet once.
pub fn response_authenticator(
    packet: &PacketRef<'_>,
    authenticator: &[u8; 16],
    secret: &Secret,
) -> [u8; 16]
    ensures { result ≡ response_authenticator secret.now authenticator.now packet.now }
{
    digest(packet.octets(), authenticator, secret)
}

/// Whether a packet's Request Authenticator is valid under a secret. Hashes the packet once.
#[tactic(auto, unfolding(crate::specs::Authenticator::IsRightRequest))]
pub fn check_request(packet: &PacketRef<'_>, secret: &Secret) -> bool
    ensures { IsTrue result ↔ IsRightRequest secret.now packet.now }
{
    is_same(
        &packet.authenticator(),
        &request_authenticator(packet, secret),
    )
}

/// Whether this is the Authenticator of an Accounting-Request with this Identifier and these attributes that is valid under a
/// secret (RFC 2866 section 3). Hashes the request once.
pub fn is_request_of(
    identifier: u8,
    authenticator: &[u8; 16],
    attributes: &[u8],
    secret: &Secret,
) -> bool
    requires { length attributes.now ≤ 4076 }
    ensures { IsTrue result ↔ IsRequestOf identifier authenticator.now attributes.now secret.now }
{
    let start = packet_start(
        ACCOUNTING_REQUEST,
        identifier,
        HEADER_LENGTH + attributes.len(),
    );
    let right = digest_of_parts(&start, &NO_AUTHENTICATOR, attributes, &[], secret);
    is_same(authenticator, &right)
}

/// Whether a packet's Response Authenticator is valid under a secret, for a request with this Authenticator.
/// Hashes the packet once.
#[tactic(auto, unfolding(crate::specs::Authenticator::IsRightResponse))]
pub fn check_response(packet: &PacketRef<'_>, authenticator: &[u8; 16], secret: &Secret) -> bool
    ensures { IsTrue result ↔ IsRightResponse secret.now authenticator.now packet.now }
{
    is_same(
        &packet.authenticator(),
        &response_authenticator(packet, authenticator, secret),
    )
}

/// Sets the Identifier and the Request Authenticator of an Accounting-Request, given by its octets without padding.
/// Hashes the packet once.
pub fn sign(packet: &mut [u8], identifier: u8, secret: &Secret)
    requires packet { IsPacketText packet.old }
    requires request { code_of packet.old ≡ 4 }
    ensures { packet.new ≡ accounting_request identifier (attribute_octets packet.old) secret.now }
{
    packet[1] = identifier;
    let authenticator = digest(packet, &NO_AUTHENTICATOR, secret);
    packet[4..20].copy_from_slice(&authenticator);
}

/// Sets a packet's Authenticator to its digest, computed with these octets in place of the Authenticator. Hashes the
/// packet once.
pub(crate) fn sign_datagram(datagram: &mut Datagram, authenticator: &[u8; 16], secret: &Secret)
    ensures { let text = datagram.old in
        datagram.new ≡ packet_text (code_of text) (identifier_of text) (response_authenticator secret.now authenticator.now text) (attribute_octets text) }
{
    let signature = digest(datagram.bytes(), authenticator, secret);
    datagram.set_authenticator(signature);
}

/// Returns the octets before the Authenticator of a packet that has `count` octets: Code, Identifier and Length.
pub(crate) fn packet_start(code: u8, identifier: u8, count: usize) -> [u8; 4]
    requires { count ≤ 4096 }
    ensures { result ≡ code ∷ identifier ∷ (count / 256) ∷ (count % 256) ∷ [] }
{
    [code, identifier, (count / 256) as u8, (count % 256) as u8]
}

/// Returns the MD5 digest of a packet, with these octets in place of its Authenticator, followed by the secret.
pub(crate) fn digest(packet: &[u8], authenticator: &[u8; 16], secret: &Secret) -> [u8; 16]
    requires { 20 ≤ length packet.now }
    ensures { result ≡ md5 (take 4 packet.now ++ authenticator.now ++ drop 20 packet.now ++ secret.now) }
{
    digest_of_parts(&packet[..4], authenticator, &packet[20..], &[], secret)
}

/// Returns the same digest for a packet that is given in parts: the octets before its Authenticator, those in place of
/// the Authenticator, and the attributes in two parts.
pub(crate) fn digest_of_parts(
    start: &[u8],
    authenticator: &[u8; 16],
    before: &[u8],
    after: &[u8],
    secret: &Secret,
) -> [u8; 16]
    ensures { result ≡ md5 (start.now ++ authenticator.now ++ before.now ++ after.now ++ secret.now) }
{
    let mut hasher = Md5::new();
    hasher.update(start);
    hasher.update(authenticator);
    hasher.update(before);
    hasher.update(after);
    hasher.update(secret.octets());
    hasher.finalize()
}
