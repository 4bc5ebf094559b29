//! The packets of a run, made as docs/protocol.md says.

use rad_auth::{
    ACCOUNTING_REQUEST, ACCOUNTING_RESPONSE, MESSAGE_AUTHENTICATOR, PROXY_STATE, STATUS_SERVER,
    Secret, hmac_md5, request_authenticator, response_authenticator,
};
use rad_packet::{Datagram, PacketRef};

/// The Type of a User-Name (RFC 2865 section 5.1).
pub const USER_NAME: u8 = 1;

/// The Type of a Class (RFC 2865 section 5.25).
pub const CLASS: u8 = 25;

/// The Type of an Acct-Session-Id (RFC 2866 section 5.5).
pub const ACCT_SESSION_ID: u8 = 44;

/// Returns a packet with these parts and no attributes.
pub fn begun(code: u8, identifier: u8, authenticator: [u8; 16]) -> Datagram {
    let mut datagram = Datagram::new();
    datagram.begin(code, identifier, authenticator);
    datagram
}

/// Adds an attribute, if it fits.
pub fn push(datagram: &mut Datagram, kind: u8, value: &[u8]) {
    let _ = datagram.push(kind, value);
}

/// Returns the value of a mark: the lane's number and the request's.
pub fn mark_value(lane: u16, number: u64) -> [u8; 10] {
    let mut value = [0; 10];
    value[..2].copy_from_slice(&lane.to_be_bytes());
    value[2..].copy_from_slice(&number.to_be_bytes());
    value
}

/// Signs a request.
pub fn sign_request(datagram: &mut Datagram, secret: &Secret) {
    let authenticator = request_authenticator(&datagram.packet(), secret);
    datagram.set_authenticator(authenticator);
}

/// Signs an answer to a packet with this Authenticator.
pub fn sign_response(datagram: &mut Datagram, asked: &[u8; 16], secret: &Secret) {
    let authenticator = response_authenticator(&datagram.packet(), asked, secret);
    datagram.set_authenticator(authenticator);
}

/// Returns the packet that goes to a home server for a request: the request's attributes and the mark, under an
/// Identifier of the lane.
pub fn forwarded(
    request: &PacketRef<'_>,
    identifier: u8,
    mark: &[u8; 10],
    secret: &Secret,
) -> Datagram {
    let mut made = begun(ACCOUNTING_REQUEST, identifier, [0; 16]);
    for attribute in request.attributes() {
        push(&mut made, attribute.kind, attribute.value);
    }
    push(&mut made, PROXY_STATE, mark);
    sign_request(&mut made, secret);
    made
}

/// Returns the response to a request of this Identifier and Authenticator: the reply's attributes without the last
/// Proxy-State.
pub fn response(
    reply: &PacketRef<'_>,
    identifier: u8,
    asked: &[u8; 16],
    secret: &Secret,
) -> Datagram {
    let mut made = begun(ACCOUNTING_RESPONSE, identifier, [0; 16]);
    let states = reply.count_of(PROXY_STATE);
    let mut seen: usize = 0;
    for attribute in reply.attributes() {
        if attribute.kind == PROXY_STATE {
            seen = seen.saturating_add(1);
        }
        if attribute.kind != PROXY_STATE || seen != states {
            push(&mut made, attribute.kind, attribute.value);
        }
    }
    sign_response(&mut made, asked, secret);
    made
}

/// Returns an answer without attributes.
pub fn plain_answer(identifier: u8, asked: &[u8; 16], secret: &Secret) -> Datagram {
    let mut made = begun(ACCOUNTING_RESPONSE, identifier, [0; 16]);
    sign_response(&mut made, asked, secret);
    made
}

/// Returns a Status-Server whose only attribute is a Message-Authenticator.
pub fn status_server(identifier: u8, authenticator: [u8; 16], secret: &Secret) -> Datagram {
    let mut made = begun(STATUS_SERVER, identifier, authenticator);
    push(&mut made, MESSAGE_AUTHENTICATOR, &[0; 16]);
    let value = hmac_md5(secret.octets(), made.bytes());
    made.begin(STATUS_SERVER, identifier, authenticator);
    push(&mut made, MESSAGE_AUTHENTICATOR, &value);
    made
}

/// Returns the value of the last attribute of a kind.
pub fn last_value<'a>(packet: &PacketRef<'a>, kind: u8) -> Option<&'a [u8]> {
    let mut value = None;
    for attribute in packet.attributes() {
        if attribute.kind == kind {
            value = Some(attribute.value);
        }
    }
    value
}

/// Returns the value of the first attribute of a kind.
pub fn first_value<'a>(packet: &PacketRef<'a>, kind: u8) -> Option<&'a [u8]> {
    for attribute in packet.attributes() {
        if attribute.kind == kind {
            return Some(attribute.value);
        }
    }
    None
}
