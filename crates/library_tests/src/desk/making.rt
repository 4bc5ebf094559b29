//! Requests under `nas-secret`, and replies to what was sent, under `home-secret`.

use rad_auth::{
    ACCOUNTING_REQUEST, ACCOUNTING_RESPONSE, PROXY_STATE, Secret, request_authenticator,
    response_authenticator,
};
use rad_packet::{Datagram, read};

/// The Type of a User-Name (RFC 2865 section 5.1).
const USER_NAME: u8 = 1;

/// The Type of an Acct-Session-Id (RFC 2866 section 5.5).
const ACCT_SESSION_ID: u8 = 44;

/// Returns a request of `bob@example.org` that differs from those of other counts. Its Identifier is `count` modulo 256.
pub fn request(count: u16) -> Option<Datagram> {
    request_of(b"bob@example.org", count)
}

/// Returns such a request with another User-Name.
pub fn request_of(name: &[u8], count: u16) -> Option<Datagram> {
    let secret = Secret::new(b"nas-secret").ok()?;
    let mut request = Datagram::new();
    request.begin(ACCOUNTING_REQUEST, (count % 256) as u8, [0; 16]);
    request.push(USER_NAME, name).ok()?;
    request.push(ACCT_SESSION_ID, &count.to_be_bytes()).ok()?;
    let authenticator = request_authenticator(&request.packet(), &secret);
    request.set_authenticator(authenticator);
    Some(request)
}

/// Returns the reply to a packet that was sent: it has the packet's Identifier and its mark.
pub fn reply_to(sent: &[u8]) -> Option<Datagram> {
    let secret = Secret::new(b"home-secret").ok()?;
    let sent = read(sent).ok()?;
    let mut reply = Datagram::new();
    reply.begin(ACCOUNTING_RESPONSE, sent.identifier(), [0; 16]);
    reply.push(PROXY_STATE, last_of(sent.octets())).ok()?;
    let authenticator = response_authenticator(&reply.packet(), &sent.authenticator(), &secret);
    reply.set_authenticator(authenticator);
    Some(reply)
}

/// Returns the last ten octets of a packet: the Value of its mark, if it ends with one.
fn last_of(packet: &[u8]) -> &[u8] {
    &packet[packet.len().saturating_sub(10)..]
}
