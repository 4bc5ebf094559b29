//! The Authenticator of a packet that is given as octets.

ghost use Rattle.std.specs.Prelude.{◌≡◌, ◌≤◌, length};
ghost use Rattle.rad_packet.specs.Packet.{authenticator_of};

/// Returns the Authenticator of a packet, given its octets (RFC 2866 section 3).
pub fn authenticator_of(packet: &[u8]) -> [u8; 16]
    requires { 20 ≤ length packet.now }
    ensures { result ≡ authenticator_of packet.now }
{
    let mut authenticator = [0; 16];
    authenticator.copy_from_slice(&packet[4..20]);
    authenticator
}
