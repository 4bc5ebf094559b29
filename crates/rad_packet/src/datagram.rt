//! A packet that is being written.

ghost use Rattle.std.specs.Prelude.{◌≡◌, ◌+◌, ◌/◌, ◌%◌, ◌<◌, ◌≤◌, ◌++◌, length, take, drop, slice_set};
ghost use Rattle.rad_packet.specs.Packet.{AreOctets};

use crate::faults::WriteFault;
use crate::packet_ref::PacketRef;
use crate::{GREATEST_LENGTH, HEADER_LENGTH};
use std::marker::Model;

/// The most octets of an attribute's Value (RFC 2865 section 5).
const GREATEST_VALUE_LENGTH: usize = 253;

/// A buffer in which a packet is written. It holds a complete packet at any time, of Length 20 to 4096.
#[derive(Drop)]
pub struct Datagram {
    /// The packet, followed by octets of earlier packets.
    octets: [u8; GREATEST_LENGTH],
    /// The packet's Length.
    length: usize,
}

impl Model for Datagram {
    ghost use Rattle.std.specs.Prelude.{List, ℕ, take, ◌≤◌};
    ghost use Rattle.rad_packet.specs.Packet.{IsPacketText};

    ghost Value = { List ℕ };

    ghost view = { λ d. take d.length d.octets };

    ghost invariant = { λ d. (d.length ≤ 4096) × IsPacketText (take d.length d.octets) };
}

impl Datagram {
    ghost use Rattle.std.specs.Prelude.{◌≡◌, ◌+◌, ◌<◌, ◌≤◌, [], length, replicate, OnOk, IfErr};
    ghost use Rattle.rad_packet.specs.Attribute.{AreAttributes, attribute_text};
    ghost use Rattle.rad_packet.specs.Packet.{IsPacketText, packet_text, with_attributes, code_of, identifier_of, authenticator_of, attribute_octets};
    ghost use Rattle.rad_packet.specs.Writing.{RefusesValue};

    /// Makes a packet of Code 0 and Identifier 0, with an Authenticator of zeros and no attributes.
    pub fn new() -> Self
        ensures { result ≡ packet_text 0 0 (replicate 16 0) [] }
    {
        let mut octets = [0; GREATEST_LENGTH];
        octets[3] = HEADER_LENGTH as u8;
        Datagram {
            octets,
            length: HEADER_LENGTH,
        }
    }

    /// Replaces the packet by one with this header and no attributes.
    pub fn begin(&mut self, code: u8, identifier: u8, authenticator: [u8; 16])
        ensures { self.new ≡ packet_text code identifier authenticator [] }
    {
        put(
            &mut self.octets,
            0,
            &[code, identifier, 0, HEADER_LENGTH as u8],
        );
        put(&mut self.octets, 4, authenticator.as_slice());
        self.length = HEADER_LENGTH;
    }

    /// Replaces the packet by a copy of another one. The cost is linear in that packet's Length.
    pub fn load(&mut self, packet: &PacketRef<'_>)
        ensures { self.new ≡ packet.now }
    {
        let octets = packet.octets();
        put(&mut self.octets, 0, octets);
        self.length = octets.len();
    }

    /// Appends an attribute. Only the Value is copied.
    ///
    /// # Errors
    ///
    /// `ValueTooLong` if the Value has more than 253 octets; otherwise `PacketTooLong` if the packet would be
    /// longer than 4096 octets. The packet stays unchanged.
    pub fn push(&mut self, kind: u8, value: &[u8]) -> Result<(), WriteFault>
        ensures added { OnOk result (self.new ≡ with_attributes self.old (attribute_text (record { kind = kind; value = value.now }))) }
        ensures fits { OnOk result ((length value.now ≤ 253) × (length self.old + (length value.now + 2) ≤ 4096)) }
        ensures refused { IfErr result (λ fault. RefusesValue self.old value.now fault × (self.new ≡ self.old)) }
    {
        if value.len() > GREATEST_VALUE_LENGTH {
            return Err(WriteFault::ValueTooLong);
        }
        let start = self.length;
        let end = start + 2 + value.len();
        if end > GREATEST_LENGTH {
            return Err(WriteFault::PacketTooLong);
        }
        put(&mut self.octets, start, &[kind, (value.len() + 2) as u8]);
        put(&mut self.octets, start + 2, value);
        self.length = end;
        put_length(&mut self.octets, end);
        Ok(())
    }

    /// Appends attributes, given as their octets. Only these are copied.
    ///
    /// # Errors
    ///
    /// `PacketTooLong` if the packet would be longer than 4096 octets. The packet stays unchanged.
    pub fn push_all(&mut self, attributes: &[u8]) -> Result<(), WriteFault>
        requires { AreAttributes attributes.now }
        ensures added { OnOk result (self.new ≡ with_attributes self.old attributes.now) }
        ensures fits { OnOk result (length self.old + length attributes.now ≤ 4096) }
        ensures refused { IfErr result (λ fault. (fault ≡ WriteFault.PacketTooLong) × (4096 < length self.old + length attributes.now) × (self.new ≡ self.old)) }
    {
        if attributes.len() > GREATEST_LENGTH - self.length {
            return Err(WriteFault::PacketTooLong);
        }
        let end = self.length + attributes.len();
        put(&mut self.octets, self.length, attributes);
        self.length = end;
        put_length(&mut self.octets, end);
        Ok(())
    }

    /// Sets the Identifier.
    pub fn set_identifier(&mut self, identifier: u8)
        ensures { self.new ≡ packet_text (code_of self.old) identifier (authenticator_of self.old) (attribute_octets self.old) }
    {
        self.octets[1] = identifier;
    }

    /// Sets the Authenticator.
    pub fn set_authenticator(&mut self, authenticator: [u8; 16])
        ensures { self.new ≡ packet_text (code_of self.old) (identifier_of self.old) authenticator (attribute_octets self.old) }
    {
        put(&mut self.octets, 4, &authenticator);
    }

    /// Returns a copy. It copies all 4096 octets of the buffer.
    pub fn copy(&self) -> Datagram
        ensures { result ≡ self.now }
    {
        Datagram {
            octets: self.octets,
            length: self.length,
        }
    }

    /// Returns the packet. It is not checked again, since it is always a valid packet.
    pub fn packet(&self) -> PacketRef<'_>
        ensures { result ≡ self.now }
    {
        PacketRef::over(self.bytes())
    }

    /// Returns the packet's octets.
    pub fn bytes(&self) -> &[u8]
        ensures value { result.now ≡ self.now }
        ensures packet { IsPacketText self.now }
    {
        &self.octets[..self.length]
    }

    /// Returns the packet's Length.
    #[allow(clippy::len_without_is_empty)]
    pub fn len(&self) -> usize
        ensures { result ≡ length self.now }
    {
        self.bytes().len()
    }
}

/// Copies octets into a buffer at an offset.
fn put(buffer: &mut [u8], place: usize, octets: &[u8])
    requires { place + length octets.now ≤ length buffer.old }
    ensures after { buffer.new ≡ take place buffer.old ++ octets.now ++ drop (place + length octets.now) buffer.old }
    ensures octets { AreOctets octets.now }
{
    let end = place + octets.len();
    buffer[place..end].copy_from_slice(octets);
}

fn put_length(packet: &mut [u8], count: usize)
    requires fits { count < 65536 }
    requires room { 20 ≤ length packet.old }
    ensures { packet.new ≡ slice_set (slice_set packet.old 2 (count / 256)) 3 (count % 256) }
{
    packet[2] = (count / 256) as u8;
    packet[3] = (count % 256) as u8;
}
