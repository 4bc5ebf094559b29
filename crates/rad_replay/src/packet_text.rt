//! Packets as the lines print them.

ghost use Rattle.std.specs.Prelude.{◌≤◌, length};

use std::fmt;

/// A packet, printed as its Code, Identifier, Length and attributes.
#[derive(Clone, Copy)]
pub struct PacketText<'a> {
    octets: &'a [u8],
    ghost whole: { 20 ≤ length octets.now },
}

/// A packet that a lane gave to be sent, printed as a packet, with its source port after the Identifier if the lane has
/// several.
#[derive(Clone, Copy)]
pub struct SentText<'a> {
    pub packet: PacketText<'a>,
    /// The source port, if it is printed.
    pub port: Option<u16>,
}

/// The same without its attributes.
#[derive(Clone, Copy)]
pub struct SentHeadText<'a>(pub SentText<'a>);

/// An Identifier, with a source port if there is one.
#[derive(Clone, Copy)]
struct IdentifierText {
    identifier: u8,
    port: Option<u16>,
}

/// Attributes in hexadecimal, `-` for none.
#[derive(Clone, Copy)]
struct AttributesText<'a>(&'a [u8]);

impl<'a> PacketText<'a> {
    ghost use Rattle.std.specs.Prelude.{◌≡◌, ◌≤◌, drop, length};

    /// Makes the text of a packet from its octets.
    pub fn new(octets: &'a [u8]) -> Self
        requires { 20 ≤ length octets.now }
        ensures { result.octets ≡ octets.entry }
    {
        PacketText { octets }
    }

    fn attributes(&self) -> AttributesText<'a>
        ensures { result.0.now ≡ drop 20 self.now.octets.now }
    {
        AttributesText(&self.octets[20..])
    }
}

impl fmt::Display for SentText<'_> {
    ghost use Rattle.std.specs.Prelude.{Some};
    ghost use Rattle.rad_replay.specs.PacketText.{sent_text};

    ghost output = { λ sent. Some (sent_text sent.port sent.packet.octets.now) };

    fn fmt<W: fmt::Write>(&self, f: &mut fmt::Formatter<W>) -> fmt::Result {
        let head = SentHeadText(*self);
        let attributes = self.packet.attributes();
        write!(f, "{head} {attributes}")
    }
}

impl fmt::Display for SentHeadText<'_> {
    ghost use Rattle.std.specs.Prelude.{Some};
    ghost use Rattle.rad_replay.specs.PacketText.{sent_head_text};

    ghost output = { λ head. Some (sent_head_text head.0.port head.0.packet.octets.now) };

    fn fmt<W: fmt::Write>(&self, f: &mut fmt::Formatter<W>) -> fmt::Result {
        let SentText { packet, port } = self.0;
        let code = packet.octets[0];
        let identifier = packet.octets[1];
        let identifier = IdentifierText { identifier, port };
        let length = packet.octets.len();
        write!(f, "{code} {identifier} {length}")
    }
}

impl fmt::Display for IdentifierText {
    ghost use Rattle.std.specs.Prelude.{Some};
    ghost use Rattle.rad_replay.specs.PacketText.{identifier_text};

    ghost output = { λ text. Some (identifier_text text.port text.identifier) };

    fn fmt<W: fmt::Write>(&self, f: &mut fmt::Formatter<W>) -> fmt::Result {
        let identifier = self.identifier;
        match self.port {
            Some(port) => write!(f, "{identifier}.{port}"),
            None => write!(f, "{identifier}"),
        }
    }
}

impl fmt::Display for PacketText<'_> {
    ghost use Rattle.std.specs.Prelude.{Some};
    ghost use Rattle.rad_replay.specs.PacketText.{packet_text};

    ghost output = { λ packet. Some (packet_text packet.octets.now) };

    fn fmt<W: fmt::Write>(&self, f: &mut fmt::Formatter<W>) -> fmt::Result {
        let sent = SentText {
            packet: *self,
            port: None,
        };
        write!(f, "{sent}")
    }
}

impl fmt::Display for AttributesText<'_> {
    ghost use Rattle.std.specs.Prelude.{Some};
    ghost use Rattle.rad_replay.specs.PacketText.{attributes_text};

    ghost output = { λ a. Some (attributes_text a.0.now) };

    fn fmt<W: fmt::Write>(&self, f: &mut fmt::Formatter<W>) -> fmt::Result {
        if self.0.is_empty() {
            return f.write_str("-");
        }
        for octet in self.0 {
            write!(f, "{:x}{:x}", octet / 16, octet % 16)?;
        }
        Ok(())
    }
}
