//! What the packets of a record say, as far as a row tells it.

ghost use Rattle.std.specs.Prelude.{◌≡◌, ◌+◌, ◌*◌, ◌^◌, option_copied};
ghost use Rattle.rad_config.specs.Realm.{realm_of_packet as the_realm};
ghost use Rattle.rad_lane.specs.Session.{session_id};
ghost use Rattle.rad_audit.specs.Facts.{number_at as the_number_at, number_of as the_number_of, octets_at as the_octets_at, value_at as the_value_at};

use crate::cells::{Cell, NumberCell};
use rad_lane::session_of;
use rad_packet::PacketRef;
use rad_realms::realm_of_packet;
use std::fmt;

/// The Types of the attributes that a row tells (RFC 2865 section 5.1, RFC 2866 sections 5.1, 5.3, 5.4 and 5.7, RFC 2869
/// sections 5.1 and 5.2).
pub const USER_NAME: u8 = 1;

pub const ACCT_STATUS_TYPE: u8 = 40;

const ACCT_INPUT_OCTETS: u8 = 42;

const ACCT_OUTPUT_OCTETS: u8 = 43;

const ACCT_SESSION_TIME: u8 = 46;

const ACCT_INPUT_GIGAWORDS: u8 = 52;

const ACCT_OUTPUT_GIGAWORDS: u8 = 53;

/// What the packets of a record say. Of each Type the first attribute counts.
#[derive(Clone, Copy)]
pub struct Facts<'a> {
    /// The request's Identifier, which its response has.
    pub identifier: u8,
    /// The name of the home server, under whose secret the packets are judged.
    pub home: &'a str,
    /// The realm of the User-Name.
    pub realm: Option<&'a [u8]>,
    /// The Acct-Session-Id.
    pub session: Option<&'a [u8]>,
    /// The User-Name.
    pub user: Option<&'a [u8]>,
    /// The Acct-Status-Type.
    pub status: Option<u32>,
    /// How many octets were received from the port: 2^32 times Acct-Input-Gigawords, and Acct-Input-Octets.
    pub input: Option<u64>,
    /// How many octets were sent to the port, likewise.
    pub output: Option<u64>,
    /// The Acct-Session-Time, in seconds.
    pub seconds: Option<u32>,
}

impl<'a> Facts<'a> {
    /// Returns what is said of a request by its Identifier, its home server and a packet that has its attributes.
    pub fn of(identifier: u8, home: &'a str, packet: &PacketRef<'a>) -> Facts<'a>
        ensures identifier { result.identifier ≡ identifier }
        ensures home { result.home.now ≡ home.entry.now }
        ensures realm { option_copied result.realm ≡ the_realm packet.now }
        ensures session { option_copied result.session ≡ session_id packet.now }
        ensures user { option_copied result.user ≡ the_value_at 1 packet.now }
        ensures status { result.status ≡ the_number_at 40 packet.now }
        ensures input { result.input ≡ the_octets_at 52 42 packet.now }
        ensures output { result.output ≡ the_octets_at 53 43 packet.now }
        ensures seconds { result.seconds ≡ the_number_at 46 packet.now }
    {
        Facts {
            identifier,
            home,
            realm: realm_of_packet(packet),
            session: session_of(packet),
            user: value_at(packet, USER_NAME),
            status: number_at(packet, ACCT_STATUS_TYPE),
            input: octets_at(packet, ACCT_INPUT_GIGAWORDS, ACCT_INPUT_OCTETS),
            output: octets_at(packet, ACCT_OUTPUT_GIGAWORDS, ACCT_OUTPUT_OCTETS),
            seconds: number_at(packet, ACCT_SESSION_TIME),
        }
    }
}

/// Returns the Value of a packet's first attribute of a Type, if it has one.
pub fn value_at<'a>(packet: &PacketRef<'a>, kind: u8) -> Option<&'a [u8]>
    ensures { option_copied result ≡ the_value_at kind packet.now }
{
    for attribute in packet.attributes() {
        if attribute.kind == kind {
            return Some(attribute.value);
        }
    }
    None
}

/// Returns the number in a packet's first attribute of a Type, if it has one and its Value has four octets.
pub fn number_at(packet: &PacketRef<'_>, kind: u8) -> Option<u32>
    ensures { result ≡ the_number_at kind packet.now }
{
    number_of(value_at(packet, kind)?)
}

/// Returns the number in a Value of four octets (RFC 2865 section 5).
fn number_of(value: &[u8]) -> Option<u32>
    ensures { result ≡ the_number_of value.now }
{
    match value {
        &[a, b, c, d] => Some(u32::from_be_bytes([a, b, c, d])),
        _ => None,
    }
}

fn octets_at(packet: &PacketRef<'_>, gigawords: u8, octets: u8) -> Option<u64>
    ensures { result ≡ the_octets_at gigawords octets packet.now }
{
    let low = number_at(packet, octets)?;
    match value_at(packet, gigawords) {
        Some(value) => Some(with_gigawords(number_of(value)?, low)),
        None => Some(u64::from(low)),
    }
}

fn widened(number: Option<u32>) -> Option<u64>
    ensures { result ≡ number }
{
    match number {
        Some(number) => Some(u64::from(number)),
        None => None,
    }
}

fn with_gigawords(gigawords: u32, octets: u32) -> u64
    ensures { result ≡ 2 ^ 32 * gigawords + octets }
{
    u64::from(gigawords) * (1 << 32) + u64::from(octets)
}

impl fmt::Display for Facts<'_> {
    ghost use Rattle.std.specs.Prelude.{Some};
    ghost use Rattle.rad_audit.specs.Rows.{facts_words, with_tabs};

    ghost output = { λ facts. Some (with_tabs (facts_words facts)) };

    fn fmt<W: fmt::Write>(&self, f: &mut fmt::Formatter<W>) -> fmt::Result {
        let identifier = self.identifier;
        let home = Cell(Some(self.home.as_bytes()));
        let realm = Cell(self.realm);
        let session = Cell(self.session);
        let user = Cell(self.user);
        let status = NumberCell(widened(self.status));
        let input = NumberCell(self.input);
        let output = NumberCell(self.output);
        let seconds = NumberCell(widened(self.seconds));
        write!(
            f,
            "{identifier}\t{home}\t{realm}\t{session}\t{user}\t{status}\t{input}\t{output}\t{seconds}"
        )
    }
}
