//! Checking a datagram that comes from a client.

ghost use Rattle.std.specs.Prelude.{◌≡◌, ◌≢◌, [], Some, option_copied, option_and_then, MatchResult};
ghost use Rattle.rad_packet.specs.Attribute.{of_kind};
ghost use Rattle.rad_packet.specs.Packet.{IsPacketText, code_of, packet_attributes};
ghost use Rattle.rad_config.specs.Realm.{client_of, realm_in, user_name, realm_of_packet as the_realm};
ghost use Rattle.rad_realms.specs.declared.checking.Dropped.TheVariants.{MessageAuthenticatorHere};
ghost use Rattle.rad_realms.specs.Checking.{DropsPacket, Drops};
ghost use Rattle.rad_realms.specs.Incoming.{TakesPacket, Takes};

use rad_auth::{
    ACCOUNTING_REQUEST, MESSAGE_AUTHENTICATOR, STATUS_SERVER, Secret, check_request, check_status,
};
use rad_config::{Client, Config, Destination, realm_of};
use rad_packet::{PacketRef, ReadFault, read};
use std::fmt;
use std::marker::Model;

/// The Type of a User-Name (RFC 2865 section 5.1).
const USER_NAME: u8 = 1;

/// A datagram that passed the checks.
#[derive(Drop)]
pub enum Incoming<'a> {
    /// An Accounting-Request (RFC 2866 section 4.1).
    Request(Checked<'a>),
    /// A Status-Server (RFC 5997 section 3).
    Status(CheckedStatus<'a>),
}

/// An Accounting-Request that passed the checks: it comes from a client, is valid under that client's secret, has no
/// Message-Authenticator, and leads to the lane of a home server. It borrows the datagram and the configuration.
#[derive(Drop)]
pub struct Checked<'a> {
    /// The packet, without padding.
    packet: PacketRef<'a>,
    /// The configuration that it was checked against.
    config: &'a Config,
    /// The client that sent it.
    client: &'a Client,
    /// The UDP port that it came from.
    port: u16,
    /// The realm of its User-Name, if it has one.
    realm: Option<&'a [u8]>,
    /// The lane that it leads to.
    lane: u16,
    /// The index of its realm among the realms of the table that lead to that lane, if it has a realm that is listed.
    rank: Option<usize>,
}

impl<'a> Model for Checked<'a> {
    ghost use Rattle.std.specs.Prelude.{◌≡◌, option_copied};
    ghost use Rattle.rad_config.specs.Realm.{realm_of_packet, IsRank};
    ghost use Rattle.rad_realms.specs.Checking.{Request, IsChecked};

    ghost Value = { Request };

    ghost view = { λ c. record { config = c.config.now; text = c.packet; client = c.client.now.address; port = c.port; secret = c.client.now.secret; lane = c.lane } };

    ghost invariant = { λ c. IsChecked (record { config = c.config.now; text = c.packet; client = c.client.now.address; port = c.port; secret = c.client.now.secret; lane = c.lane }) × (option_copied c.realm ≡ realm_of_packet c.packet) × IsRank c.config.now.realms c.lane (option_copied c.realm) c.rank };
}

impl<'a> Checked<'a> {
    ghost use Rattle.std.specs.Prelude.{◌≡◌, ◌<◌, length, option_copied};
    ghost use Rattle.rad_config.specs.Realm.{realm_of_packet, IsRank};
    ghost use Rattle.rad_realms.specs.Checking.{IsChecked};

    /// Returns the packet, without padding.
    pub fn packet(&self) -> &PacketRef<'a>
        ensures text { result.now ≡ self.now.text }
        ensures checked { IsChecked self.now }
    {
        &self.packet
    }

    /// Returns the IPv4 address of the client.
    pub fn client(&self) -> [u8; 4]
        ensures { result ≡ self.now.client }
    {
        self.client.address()
    }

    /// Returns the UDP port that the datagram came from.
    pub fn port(&self) -> u16
        ensures { result ≡ self.now.port }
    {
        self.port
    }

    /// Returns the client's secret.
    pub fn secret(&self) -> &Secret
        ensures { result.now ≡ self.now.secret }
    {
        self.client.secret()
    }

    /// Returns the realm of its User-Name, if it has one.
    pub fn realm(&self) -> Option<&[u8]>
        ensures { option_copied result ≡ realm_of_packet self.now.text }
    {
        self.realm
    }

    /// Returns the number of the lane that it leads to.
    pub fn lane(&self) -> u16
        ensures value { result ≡ self.now.lane }
        ensures within { result < length self.now.config.homes }
    {
        self.lane
    }

    /// Returns the index of its realm among the realms of the table that lead to its lane, in the order of the
    /// configuration, counted from 0. Returns `None` if it has no realm, or one that is in no row of the table.
    pub fn rank(&self) -> Option<usize>
        ensures { IsRank self.now.config.realms self.now.lane (realm_of_packet self.now.text) result }
    {
        self.rank
    }
}

/// A Status-Server that passed the checks: it comes from a client and is valid under that client's secret. It borrows
/// the datagram.
#[derive(Drop)]
pub struct CheckedStatus<'a> {
    /// The packet, without padding.
    packet: PacketRef<'a>,
    /// The secret of the client that sent it.
    secret: &'a Secret,
}

impl<'a> Model for CheckedStatus<'a> {
    ghost use Rattle.rad_realms.specs.Checking.{Status, IsCheckedStatus};

    ghost Value = { Status };

    ghost view = { λ c. record { text = c.packet; secret = c.secret.now } };

    ghost invariant = { λ c. IsCheckedStatus (record { text = c.packet; secret = c.secret.now }) };
}

impl<'a> CheckedStatus<'a> {
    ghost use Rattle.std.specs.Prelude.{◌≡◌};
    ghost use Rattle.rad_realms.specs.Checking.{IsCheckedStatus};

    /// Returns the packet, without padding.
    pub fn packet(&self) -> &PacketRef<'a>
        ensures text { result.now ≡ self.now.text }
        ensures checked { IsCheckedStatus self.now }
    {
        &self.packet
    }

    /// Returns the client's secret.
    pub fn secret(&self) -> &Secret
        ensures { result.now ≡ self.now.secret }
    {
        self.secret
    }
}

/// Why a datagram that came to the clients' socket is dropped. Its sender gets no answer. The first reason that
/// applies, in this order, is reported. It is printed as its name; `Unread` is followed by the name of the read fault.
#[derive(Clone, Copy, Debug, PartialEq, Eq)]
pub enum Dropped {
    /// No client has the sender's address.
    UnknownClient,
    /// The datagram is not a RADIUS packet, for this reason.
    Unread(ReadFault),
    /// The packet's Code is neither Accounting-Request nor Status-Server.
    WrongCode,
    /// The Request Authenticator of an Accounting-Request is not valid under the client's secret, for example if the
    /// two do not share a secret.
    BadAuthenticator,
    /// A Status-Server has no Message-Authenticator or several, or one that is not valid.
    BadMessageAuthenticator,
    /// An Accounting-Request has a Message-Authenticator, which this proxy does not forward.
    MessageAuthenticatorHere,
    /// An Accounting-Request leads to no lane: its realm is empty; or it is in no row of the table, and no home server
    /// takes all other realms; or it has no realm, and there is no default home server.
    NoRealm,
}

/// Each reason to drop a datagram, at its place. One read fault stands for all.
pub const DROPPED: &[Dropped] = &[
    Dropped::UnknownClient,
    Dropped::Unread(ReadFault::Short),
    Dropped::WrongCode,
    Dropped::BadAuthenticator,
    Dropped::BadMessageAuthenticator,
    Dropped::MessageAuthenticatorHere,
    Dropped::NoRealm,
];

impl Dropped {
    ghost use Rattle.rad_realms.specs.Printed.{dropped_name, dropped_place};

    /// Returns the name of the reason, without the read fault.
    pub fn name(self) -> &'static str
        ensures { result.now ≡ dropped_name self }
    {
        match self {
            Dropped::UnknownClient => "UnknownClient",
            Dropped::Unread(_) => "Unread",
            Dropped::WrongCode => "WrongCode",
            Dropped::BadAuthenticator => "BadAuthenticator",
            Dropped::BadMessageAuthenticator => "BadMessageAuthenticator",
            Dropped::MessageAuthenticatorHere => "MessageAuthenticatorHere",
            Dropped::NoRealm => "NoRealm",
        }
    }

    /// Returns the index of the reason in [`DROPPED`]. All read faults have one.
    pub fn place(self) -> usize
        ensures { result ≡ dropped_place self }
    {
        match self {
            Dropped::UnknownClient => 0,
            Dropped::Unread(_) => 1,
            Dropped::WrongCode => 2,
            Dropped::BadAuthenticator => 3,
            Dropped::BadMessageAuthenticator => 4,
            Dropped::MessageAuthenticatorHere => 5,
            Dropped::NoRealm => 6,
        }
    }
}

impl fmt::Display for Dropped {
    ghost use Rattle.std.specs.Prelude.{Some};
    ghost use Rattle.rad_realms.specs.Printed.{dropped_text};

    ghost output = { λ reason. Some (dropped_text reason) };

    fn fmt<W: fmt::Write>(&self, f: &mut fmt::Formatter<W>) -> fmt::Result {
        match self {
            Dropped::Unread(fault) => write!(f, "Unread {fault}"),
            reason => f.write_str(reason.name()),
        }
    }
}

/// Checks a datagram that came to the clients' socket, given the IPv4 address and UDP port of its sender. It allocates
/// nothing, and hashes the packet once at most. Finding the client and the realm takes time logarithmic in their
/// numbers. Each attribute of an Accounting-Request is looked at twice at most: as the packet is read, and in the
/// search for a Message-Authenticator and the User-Name. Each attribute of a Status-Server is looked at twice at most:
/// as the packet is read, and in the search for the Message-Authenticator.
///
/// # Errors
///
/// The first reason to drop it, in the order of [`Dropped`].
pub fn check_in<'a>(
    config: &'a Config,
    address: [u8; 4],
    port: u16,
    datagram: &'a [u8],
) -> Result<Incoming<'a>, Dropped>
    ensures { MatchResult result (λ incoming. Takes config.now address port datagram.now incoming) (λ reason. Drops config.now address datagram.now reason) }
{
    let Some(client) = config.client_of(address) else {
        return Err(Dropped::UnknownClient);
    };
    match read(datagram) {
        Ok(packet) => check_packet(config, client, port, packet),
        Err(fault) => Err(Dropped::Unread(fault)),
    }
}

fn check_packet<'a>(
    config: &'a Config,
    client: &'a Client,
    port: u16,
    packet: PacketRef<'a>,
) -> Result<Incoming<'a>, Dropped>
    requires { client_of config.now client.now.address ≡ Some client.now }
    ensures { MatchResult result (λ incoming. TakesPacket config.now client.now port packet.entry incoming) (λ reason. DropsPacket config.now client.now.secret packet.entry reason) }
{
    match packet.code() {
        ACCOUNTING_REQUEST => check_accounting(config, client, port, packet),
        STATUS_SERVER => check_status_server(config, client, port, packet),
        _ => Err(Dropped::WrongCode),
    }
}

#[tactic(auto, unfolding(rad_config::specs::Realm::lane_of_packet, rad_config::specs::Realm::realm_of_packet))]
fn check_accounting<'a>(
    config: &'a Config,
    client: &'a Client,
    port: u16,
    packet: PacketRef<'a>,
) -> Result<Incoming<'a>, Dropped>
    requires client { client_of config.now client.now.address ≡ Some client.now }
    requires code { code_of packet ≡ 4 }
    ensures { MatchResult result (λ incoming. TakesPacket config.now client.now port packet.entry incoming) (λ reason. DropsPacket config.now client.now.secret packet.entry reason) }
{
    if !check_request(&packet, client.secret()) {
        return Err(Dropped::BadAuthenticator);
    }
    let name = unsigned_name_of(&packet)?;
    let realm = realm_of_name(name);
    match config.destination_of(realm) {
        Some(Destination { lane, rank }) => Ok(Incoming::Request(Checked {
            packet,
            config,
            client,
            port,
            realm,
            lane,
            rank,
        })),
        None => Err(Dropped::NoRealm),
    }
}

fn check_status_server<'a>(
    config: &'a Config,
    client: &'a Client,
    port: u16,
    packet: PacketRef<'a>,
) -> Result<Incoming<'a>, Dropped>
    requires { code_of packet ≡ 12 }
    ensures { MatchResult result (λ incoming. TakesPacket config.now client.now port packet.entry incoming) (λ reason. DropsPacket config.now client.now.secret packet.entry reason) }
{
    let secret = client.secret();
    let right = check_status(&packet, secret);
    if right {
        Ok(Incoming::Status(CheckedStatus { packet, secret }))
    } else {
        Err(Dropped::BadMessageAuthenticator)
    }
}

/// Returns the realm of a packet's User-Name, if it has one. Looks at each attribute up to the User-Name once.
#[tactic(auto, unfolding(rad_config::specs::Realm::realm_of_packet))]
pub fn realm_of_packet<'a>(packet: &PacketRef<'a>) -> Option<&'a [u8]>
    ensures realm { option_copied result ≡ the_realm packet.now }
    ensures packet { IsPacketText packet.now }
{
    realm_of_name(user_name_of(packet))
}

/// Looks at each attribute once at most.
fn unsigned_name_of<'a>(packet: &PacketRef<'a>) -> Result<Option<&'a [u8]>, Dropped>
    ensures { MatchResult result
        (λ name. (of_kind 80 (packet_attributes packet.now) ≡ []) × (option_copied name ≡ user_name packet.now))
        (λ reason. (reason ≡ MessageAuthenticatorHere) × (of_kind 80 (packet_attributes packet.now) ≢ [])) }
{
    let mut name = None;
    for attribute in packet.attributes() {
        match attribute.kind {
            MESSAGE_AUTHENTICATOR => return Err(Dropped::MessageAuthenticatorHere),
            USER_NAME if name.is_none() => name = Some(attribute.value),
            _ => {}
        }
    }
    Ok(name)
}

/// Returns the User-Name of a packet, if it has one. Looks at each attribute up to it once.
pub fn user_name_of<'a>(packet: &PacketRef<'a>) -> Option<&'a [u8]>
    ensures name { option_copied result ≡ user_name packet.now }
    ensures packet { IsPacketText packet.now }
{
    for attribute in packet.attributes() {
        if attribute.kind == USER_NAME {
            return Some(attribute.value);
        }
    }
    None
}

/// For the proof: returns the realm of a User-Name, if there is one. Looks at each octet once at most.
fn realm_of_name<'a>(name: Option<&'a [u8]>) -> Option<&'a [u8]>
    ensures { option_copied result ≡ option_and_then realm_in (option_copied name.entry) }
{
    realm_of(name?)
}
