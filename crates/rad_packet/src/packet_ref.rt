//! A packet that was read from a datagram.

use crate::HEADER_LENGTH;
use crate::attributes::Attributes;
use crate::authenticator::authenticator_of;
use std::marker::Model;

/// A packet, borrowed from the datagram that it was read from. It has the packet's octets without padding.
#[derive(Drop)]
pub struct PacketRef<'a> {
    /// The octets of the packet, as many as Length says.
    octets: &'a [u8],
}

impl<'a> Model for PacketRef<'a> {
    ghost use Rattle.std.specs.Prelude.{List, ℕ};
    ghost use Rattle.rad_packet.specs.Packet.{IsPacketText};

    ghost Value = { List ℕ };

    ghost view = { λ p. p.octets.now };

    ghost invariant = { λ p. IsPacketText p.octets.now };
}

/// The place of an attribute in its packet.
#[derive(Clone, Copy, Debug, PartialEq, Eq)]
pub struct AttributePlace {
    /// The offset of its Type from the packet's start.
    pub place: usize,
    /// Its Length: the octets of Type, Length and Value, 2 to 255.
    pub length: usize,
}

impl<'a> PacketRef<'a> {
    ghost use Rattle.std.specs.Prelude.{◌≡◌, ◌+◌, ◌≤◌, [], length, MatchOption, count_by, ◌==◌, IfSome};
    ghost use Rattle.rad_packet.specs.Packet.{IsPacketText, code_of, identifier_of, authenticator_of, attribute_octets, packet_attributes};
    ghost use Rattle.rad_packet.specs.Attribute.{of_kind};
    ghost use Rattle.rad_packet.specs.Place.{IsFirstAt, IsLastAt};

    /// Makes a packet of octets that are known to be one. It does not check them: use [`read`](crate::read) for octets
    /// that come from outside.
    pub fn over(octets: &'a [u8]) -> Self
        requires { IsPacketText octets.now }
        ensures { result ≡ octets.now }
    {
        PacketRef { octets }
    }

    /// Returns the Code (RFC 2866 section 3).
    pub fn code(&self) -> u8
        ensures { result ≡ code_of self.now }
    {
        self.octets[0]
    }

    /// Returns the Identifier.
    pub fn identifier(&self) -> u8
        ensures { result ≡ identifier_of self.now }
    {
        self.octets[1]
    }

    /// Returns the Authenticator.
    pub fn authenticator(&self) -> [u8; 16]
        ensures { result ≡ authenticator_of self.now }
    {
        authenticator_of(self.octets)
    }

    /// Returns the packet's octets, without padding.
    pub fn octets(&self) -> &'a [u8]
        ensures value { result.now ≡ self.now }
        ensures packet { IsPacketText self.now }
    {
        let PacketRef { octets } = self;
        octets
    }

    /// Iterates over the attributes in order. The cost of each is constant.
    pub fn attributes(&self) -> Attributes<'a>
        ensures attributes { result ≡ attribute_octets self.now }
        ensures packet { IsPacketText self.now }
    {
        Attributes::over(&self.octets[HEADER_LENGTH..])
    }

    /// Returns the place of the first attribute of a Type. The cost is linear in the number of attributes before it.
    pub fn first_of(&self, kind: u8) -> Option<AttributePlace>
        ensures found { MatchOption result (of_kind kind (packet_attributes self.now) ≡ []) (λ at. IsFirstAt self.now kind at.place at.length) }
        ensures within { IfSome result (λ at. at.place + at.length ≤ length self.now) }
    {
        let mut place = HEADER_LENGTH;
        for attribute in self.attributes() {
            let length = 2 + attribute.value.len();
            if attribute.kind == kind {
                return Some(AttributePlace { place, length });
            }
            place += length;
        }
        None
    }

    /// Returns the place of the last attribute of a Type. The cost is linear in the number of attributes.
    pub fn last_of(&self, kind: u8) -> Option<AttributePlace>
        ensures found { MatchOption result (of_kind kind (packet_attributes self.now) ≡ []) (λ at. IsLastAt self.now kind at.place at.length) }
        ensures within { IfSome result (λ at. at.place + at.length ≤ length self.now) }
    {
        let mut place = HEADER_LENGTH;
        let mut last = None;
        for attribute in self.attributes() {
            let length = 2 + attribute.value.len();
            if attribute.kind == kind {
                last = Some(AttributePlace { place, length });
            }
            place += length;
        }
        last
    }

    /// Returns the number of attributes of a Type. The cost is linear in the number of attributes.
    pub fn count_of(&self, kind: u8) -> usize
        ensures { result ≡ length (of_kind kind (packet_attributes self.now)) }
    {
        let mut count = 0;
        for attribute in self.attributes() {
            if attribute.kind == kind {
                count += 1;
            }
        }
        count
    }
}
