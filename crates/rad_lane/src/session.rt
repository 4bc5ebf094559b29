//! The session of a request.

ghost use Rattle.std.specs.Prelude.{◌≡◌, option_copied};
ghost use Rattle.rad_lane.specs.Session.{session_id};

use rad_packet::PacketRef;

/// The Type of Acct-Session-Id (RFC 2866 section 5.5).
const ACCT_SESSION_ID: u8 = 44;

/// Returns the Value of a packet's first Acct-Session-Id (RFC 2866 section 5.5), if it has one. It looks at each
/// attribute up to that one once.
pub fn session_of<'a>(packet: &PacketRef<'a>) -> Option<&'a [u8]>
    ensures { option_copied result ≡ session_id packet.now }
{
    for attribute in packet.attributes() {
        if attribute.kind == ACCT_SESSION_ID {
            return Some(attribute.value);
        }
    }
    None
}
