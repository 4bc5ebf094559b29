//! Packets as a ledger has them: whole and without padding.

ghost use Rattle.std.specs.Prelude.{◌≡◌, ◌≤◌, ◌↔◌, ◌++◌, [], ◌∷◌, List, length, IsTrue, MatchOption};
ghost use Rattle.rad_packet.specs.Attribute.{Attribute, joined};
ghost use Rattle.rad_packet.specs.Item.{attribute_at};
ghost use Rattle.rad_packet.specs.Packet.{IsPacketText, packet_attributes};
ghost use Rattle.rad_auth.specs.Mark.{EndsWithMark, mark_attribute, mark_value};

use rad_auth::{MARK_LENGTH, Mark, PROXY_STATE};
use rad_packet::{AttributeRef, HEADER_LENGTH, PacketRef, read};

/// Returns the packet that these octets are, if they are one and no octets follow it.
pub fn whole_packet(octets: &[u8]) -> Option<PacketRef<'_>>
    ensures { MatchOption result (¬ IsPacketText octets.now) (λ packet. (packet ≡ octets.now) × IsPacketText octets.now) }
{
    let Ok(packet) = read(octets) else {
        return None;
    };
    if packet.octets().len() == octets.len() {
        Some(packet)
    } else {
        None
    }
}

/// Whether the last attribute of a packet is this mark. It looks at each attribute once.
#[tactic(auto, using(crate::proofs::Last::none_ends, crate::proofs::Last::same_ends, crate::proofs::Last::ends_same))]
pub fn ends_with_mark(packet: &PacketRef<'_>, mark: Mark) -> bool
    ensures { IsTrue result ↔ EndsWithMark mark packet.now }
{
    match last_attribute(packet) {
        Some(attribute) => is_mark(attribute, mark),
        None => false,
    }
}

/// Returns the attributes of a packet before this mark, which is its last one.
#[tactic(auto, using(crate::proofs::Requests::octets_before, crate::proofs::Requests::room_for_mark))]
pub(crate) fn attributes_before<'a>(packet: &PacketRef<'a>, mark: Mark) -> &'a [u8]
    requires { EndsWithMark mark packet.now }
    ensures before { (ends : EndsWithMark mark packet.now) → result.now ≡ joined ends.before }
    ensures fits { length result.now ≤ 4076 }
{
    let octets = packet.octets();
    &octets[HEADER_LENGTH..octets.len() - MARK_LENGTH]
}

fn last_attribute<'a>(packet: &PacketRef<'a>) -> Option<AttributeRef<'a>>
    ensures { MatchOption result (packet_attributes packet.now ≡ []) (λ a. (before : List Attribute) × (packet_attributes packet.now ≡ before ++ attribute_at a ∷ [])) }
{
    let mut last = None;
    for attribute in packet.attributes() {
        last = Some(attribute);
    }
    last
}

#[tactic(auto, using(crate::proofs::Marks::mark_by, crate::proofs::Marks::kind_of_mark, crate::proofs::Marks::value_of_mark))]
fn is_mark(attribute: AttributeRef<'_>, mark: Mark) -> bool
    ensures { IsTrue result ↔ (attribute_at attribute.entry ≡ mark_attribute mark) }
{
    attribute.kind == PROXY_STATE && is_mark_value(attribute.value, mark)
}

#[tactic(auto, using(crate::proofs::Marks::mark_value_by, crate::proofs::Marks::length_of_value, crate::proofs::Marks::lane_of_value, crate::proofs::Marks::number_of_value))]
fn is_mark_value(value: &[u8], mark: Mark) -> bool
    ensures { IsTrue result ↔ (value.now ≡ mark_value mark) }
{
    if value.len() != MARK_LENGTH - 2 {
        return false;
    }
    let (lane, number) = value.split_at(2);
    is_same(lane, &mark.lane.to_be_bytes()) && is_same(number, &mark.number.to_be_bytes())
}

fn is_same(octets: &[u8], others: &[u8]) -> bool
    ensures { IsTrue result ↔ (octets.now ≡ others.now) }
{
    octets == others
}
