//! Proxy-States of the form that this proxy adds.

ghost use Rattle.std.specs.Prelude.{◌≡◌, length};
ghost use Rattle.rad_packet.specs.Item.{attribute_at};
ghost use Rattle.rad_packet.specs.Packet.{packet_attributes};
ghost use Rattle.rad_desk.specs.Marks.{is_mark as the_mark, marks_in};

use rad_auth::MARK_LENGTH;
use rad_packet::{AttributeRef, PacketRef};

/// The Type of a Proxy-State (RFC 2865 section 5.33).
const PROXY_STATE: u8 = 33;

/// The number of octets in the Value of a mark.
const MARK_VALUE_LENGTH: usize = MARK_LENGTH - 2;

/// Returns how many Proxy-States of a packet have the form of this proxy's own: a Value of ten octets. It looks at each
/// attribute once.
pub fn count_marks(packet: &PacketRef<'_>) -> u64
    ensures { result ≡ length (marks_in (packet_attributes packet.now)) }
{
    let mut count = 0;
    for attribute in packet.attributes() {
        if is_mark(attribute) {
            count += 1;
        }
    }
    count
}

fn is_mark(attribute: AttributeRef<'_>) -> bool
    ensures { result ≡ the_mark (attribute_at attribute.entry) }
{
    attribute.kind == PROXY_STATE && attribute.value.len() == MARK_VALUE_LENGTH
}
