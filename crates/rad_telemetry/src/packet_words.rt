//! The words of a log line about a packet, and about a datagram that may not be a packet.

ghost use Rattle.std.specs.Prelude.{◌≡◌, option_copied};
ghost use Rattle.rad_packet.specs.Packet.{identifier_of};
ghost use Rattle.rad_realms.specs.Realm.{realm_of_packet as the_realm};
ghost use Rattle.rad_lane.specs.Session.{session_id};

use rad_lane::session_of;
use rad_log::Escaped;
use rad_packet::{PacketRef, read};
use rad_realms::realm_of_packet;
use std::fmt;

/// The Identifier of a packet, and its session and realm if it has them, each with a space before it. The user is
/// omitted.
#[derive(Clone, Copy)]
pub struct PacketWords<'a> {
    identifier: u8,
    session: Option<&'a [u8]>,
    realm: Option<&'a [u8]>,
}

/// The Code, Length and packet words of a datagram. If it is not a packet, how many octets it has and why it is not
/// one.
#[derive(Clone, Copy)]
pub struct DatagramWords<'a>(pub &'a [u8]);

/// The packet words of a datagram, or nothing if it is not a packet.
#[derive(Clone, Copy)]
pub struct WordsOf<'a>(pub &'a [u8]);

/// A key and its text, with a space before them, if there is such a text.
#[derive(Clone, Copy)]
pub struct KeyWord<'a>(pub &'static str, pub Option<&'a [u8]>);

impl<'a> PacketWords<'a> {
    /// Returns the words of a packet.
    pub fn of(packet: &PacketRef<'a>) -> PacketWords<'a>
        ensures identifier { result.identifier ≡ identifier_of packet.now }
        ensures session { option_copied result.session ≡ session_id packet.now }
        ensures realm { option_copied result.realm ≡ the_realm packet.now }
    {
        let session = session_of(packet);
        let realm = realm_of_packet(packet);
        PacketWords {
            identifier: packet.identifier(),
            session,
            realm,
        }
    }
}

impl fmt::Display for PacketWords<'_> {
    fn fmt<W: fmt::Write>(&self, f: &mut fmt::Formatter<W>) -> fmt::Result {
        let identifier = self.identifier;
        let session = KeyWord("session", self.session);
        let realm = KeyWord("realm", self.realm);
        write!(f, " identifier={identifier}{session}{realm}")
    }
}

impl fmt::Display for KeyWord<'_> {
    fn fmt<W: fmt::Write>(&self, f: &mut fmt::Formatter<W>) -> fmt::Result {
        let KeyWord(key, Some(text)) = *self else {
            return Ok(());
        };
        let text = Escaped {
            octets: text,
            also: None,
        };
        write!(f, " {key}={text}")
    }
}

impl fmt::Display for DatagramWords<'_> {
    fn fmt<W: fmt::Write>(&self, f: &mut fmt::Formatter<W>) -> fmt::Result {
        match read(self.0) {
            Ok(packet) => write_packet(f, &packet),
            Err(fault) => {
                let count = self.0.len();
                write!(f, "octets={count} reason=\"Unread {fault}\"")
            }
        }
    }
}

impl fmt::Display for WordsOf<'_> {
    fn fmt<W: fmt::Write>(&self, f: &mut fmt::Formatter<W>) -> fmt::Result {
        match read(self.0) {
            Ok(packet) => PacketWords::of(&packet).fmt(f),
            Err(_) => Ok(()),
        }
    }
}

fn write_packet<W: fmt::Write>(f: &mut fmt::Formatter<W>, packet: &PacketRef<'_>) -> fmt::Result {
    let code = packet.code();
    let length = packet.octets().len();
    let words = PacketWords::of(packet);
    write!(f, "code={code} length={length}{words}")
}
