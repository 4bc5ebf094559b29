//! Forwarding: a request with the proxy's own Proxy-State added.

ghost use Rattle.std.specs.Prelude.{◌≡◌, ◌<◌, ◌≤◌, length, OnOk, IfErr};
ghost use Rattle.rad_auth.specs.Forwarding.{forwarded};

use crate::authenticators::{NO_AUTHENTICATOR, sign_datagram};
use crate::mark::{MARK_LENGTH, Mark};
use crate::secret::Secret;
use crate::{ACCOUNTING_REQUEST, PROXY_STATE};
use rad_packet::{Datagram, GREATEST_LENGTH, HEADER_LENGTH, PacketRef, WriteFault};

/// Writes the forwarded packet (RFC 2866 section 2.1, Proxy): an Accounting-Request with this Identifier, the
/// request's attributes and the mark after them, signed with this secret. Hashes it once.
///
/// # Errors
///
/// `PacketTooLong`, and no other fault, if the request leaves no room for the mark. The datagram stays unchanged.
pub fn forward(
    request: &PacketRef<'_>,
    mark: Mark,
    identifier: u8,
    secret: &Secret,
    datagram: &mut Datagram,
) -> Result<(), WriteFault>
    ensures ok { OnOk result (datagram.new ≡ forwarded request.now mark identifier secret.now) }
    ensures fits { OnOk result (length request.now ≤ 4084) }
    ensures too_long { IfErr result (λ fault. (fault ≡ WriteFault.PacketTooLong) × (4084 < length request.now)) }
    ensures unchanged { IfErr result (λ _. datagram.new ≡ datagram.old) }
{
    let octets = request.octets();
    if octets.len() > GREATEST_LENGTH - MARK_LENGTH {
        return Err(WriteFault::PacketTooLong);
    }
    // The mark fits: from here on nothing is refused, so the datagram may change.
    datagram.begin(ACCOUNTING_REQUEST, identifier, NO_AUTHENTICATOR);
    datagram.push_all(&octets[HEADER_LENGTH..])?;
    datagram.push(PROXY_STATE, &mark.value())?;
    sign_datagram(datagram, &NO_AUTHENTICATOR, secret);
    Ok(())
}
