//! The values of a request that the log and the ledger tell.

ghost use Rattle.std.specs.Prelude.{◌≡◌, option_copied};
ghost use Rattle.rad_desk.specs.ToldValues.{first_value as the_value, status_in};

use rad_packet::PacketRef;

/// The Type of a User-Name (RFC 2865 section 5.1).
const USER_NAME: u8 = 1;

/// The Type of an Acct-Status-Type (RFC 2866 section 5.1).
const ACCT_STATUS_TYPE: u8 = 40;

/// Returns the Value of a packet's first User-Name (RFC 2865 section 5.1), if it has one.
pub fn user_of<'a>(packet: &PacketRef<'a>) -> Option<&'a [u8]>
    ensures { option_copied result ≡ the_value 1 packet.now }
{
    first_value(packet, USER_NAME)
}

/// Returns the number in a packet's first Acct-Status-Type (RFC 2866 section 5.1), if it has one of four octets.
pub fn status_of(packet: &PacketRef<'_>) -> Option<u32>
    ensures { result ≡ status_in (the_value 40 packet.now) }
{
    match first_value(packet, ACCT_STATUS_TYPE) {
        Some(&[a, b, c, d]) => Some(u32::from_be_bytes([a, b, c, d])),
        _ => None,
    }
}

fn first_value<'a>(packet: &PacketRef<'a>, kind: u8) -> Option<&'a [u8]>
    ensures { option_copied result ≡ the_value kind packet.now }
{
    for attribute in packet.attributes() {
        if attribute.kind == kind {
            return Some(attribute.value);
        }
    }
    None
}
