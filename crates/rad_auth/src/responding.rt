//! Making the response to a request from a home server's reply.

ghost use Rattle.std.specs.Prelude.{◌≡◌, ◌≢◌, ◌+◌, ◌≤◌, ◌++◌, [], length, IfOk, IfErr, MatchResult};
ghost use Rattle.std.specs.Bool.{OnTrue, OnFalse};
ghost use Rattle.rad_packet.specs.Attribute.{AreAttributes, of_kind};
ghost use Rattle.rad_packet.specs.Packet.{IsPacketText, code_of, identifier_of, authenticator_of, packet_attributes};
ghost use Rattle.rad_packet.specs.Place.{IsLastAt};
ghost use Rattle.rad_auth.specs.Mark.{EndsWithMark};
ghost use Rattle.rad_auth.specs.Authenticator.{IsRightResponse, accounting_response};
ghost use Rattle.rad_auth.specs.Replied.{IsAnswer};
ghost use Rattle.rad_auth.specs.internal.Returning.{HasAttributeAt, IsLastOrNone, IsReturnedAt, octets_without};
ghost use Rattle.rad_auth.specs.Refusing.{RefusesReply, ReturnsItsMark};
ghost use Rattle.rad_auth.specs.declared.mark.Mark.{Mark};
ghost use Rattle.rad_auth.specs.declared.responding.ReplyFault.TheVariants.{MessageAuthenticatorHere};

use crate::authenticators::{check_response, digest_of_parts, packet_start};
use crate::mark::MARK_LENGTH;
use crate::reply::{Reply, RequestHead};
use crate::secret::Secret;
use crate::{ACCOUNTING_RESPONSE, MESSAGE_AUTHENTICATOR, PROXY_STATE};
use rad_packet::{AttributePlace, HEADER_LENGTH, PacketRef};
use std::alloc::{AllocError, Global};
use std::error::Error;
use std::fmt;

/// Why a home server's reply gives no response. The first fault that applies, in this order, is reported.
#[derive(Clone, Copy, Debug, PartialEq, Eq)]
pub enum ReplyFault {
    /// The reply's Response Authenticator is not valid under the home server's secret.
    BadAuthenticator,
    /// The reply has a Message-Authenticator, which would not be valid in the response.
    MessageAuthenticatorHere,
    /// The reply has no Proxy-State, or its last one is not the mark of the sending.
    NoProxyState,
    /// Memory was refused.
    OutOfMemory,
}

impl fmt::Display for ReplyFault {
    ghost use Rattle.std.specs.Prelude.{Some};
    ghost use Rattle.rad_auth.specs.Faults.{reply_fault_text};

    ghost output = { λ fault. Some (reply_fault_text fault) };

    fn fmt<W: fmt::Write>(&self, f: &mut fmt::Formatter<W>) -> fmt::Result {
        match self {
            ReplyFault::BadAuthenticator => f.write_str("BadAuthenticator"),
            ReplyFault::MessageAuthenticatorHere => f.write_str("MessageAuthenticatorHere"),
            ReplyFault::NoProxyState => f.write_str("NoProxyState"),
            ReplyFault::OutOfMemory => f.write_str("OutOfMemory"),
        }
    }
}

impl Error for ReplyFault {}

impl From<AllocError> for ReplyFault {
    ghost use Rattle.std.specs.Prelude.{◌≡◌};
    ghost use Rattle.rad_auth.specs.declared.responding.ReplyFault.TheVariants.{OutOfMemory};

    ghost from_gives = { λ _ fault. fault ≡ OutOfMemory };

    fn from(_refused: AllocError) -> ReplyFault {
        ReplyFault::OutOfMemory
    }
}

/// Makes the response to a request from the home server's reply to its sending (RFC 2866 section 2.1, Proxy): the
/// reply without its last Proxy-State, with the request's Identifier, signed with the client's secret.
///
/// Hashes the reply and the response once each, and looks at each attribute of the reply once. Makes one allocation,
/// for the response and the copies of both packets and secrets behind it.
///
/// # Errors
///
/// The first [`ReplyFault`] that applies, if the reply gives no response or memory is refused.
pub fn respond(
    alloc: Global,
    head: RequestHead,
    sending: &PacketRef<'_>,
    reply: &PacketRef<'_>,
    client: &Secret,
    home: &Secret,
) -> Result<Reply, ReplyFault>
    requires code { code_of reply.now ≡ 5 }
    requires identifier { identifier_of reply.now ≡ identifier_of sending.now }
    requires mark { (mark : Mark) × EndsWithMark mark sending.now }
    ensures made { IfOk result (λ made. (made.head ≡ head) × (made.sending ≡ sending.now) × (made.reply ≡ reply.now) × (made.client ≡ client.now) × (made.home ≡ home.now)) }
    ensures answers { IfOk result IsAnswer }
    ensures refused { IfErr result (λ fault. RefusesReply sending.now reply.now home.now fault) }
{
    if !check_response(reply, &sending.authenticator(), home) {
        return Err(ReplyFault::BadAuthenticator);
    }
    respond_to_right(alloc, head, sending, reply, client, home)
}

/// Makes the response from a reply whose Response Authenticator is valid.
///
/// # Errors
///
/// Any [`ReplyFault`] but the first.
fn respond_to_right(
    alloc: Global,
    head: RequestHead,
    sending: &PacketRef<'_>,
    reply: &PacketRef<'_>,
    client: &Secret,
    home: &Secret,
) -> Result<Reply, ReplyFault>
    requires code { code_of reply.now ≡ 5 }
    requires identifier { identifier_of reply.now ≡ identifier_of sending.now }
    requires mark { (mark : Mark) × EndsWithMark mark sending.now }
    requires right { IsRightResponse home.now (authenticator_of sending.now) reply.now }
    ensures made { IfOk result (λ made. (made.head ≡ head) × (made.sending ≡ sending.now) × (made.reply ≡ reply.now) × (made.client ≡ client.now) × (made.home ≡ home.now)) }
    ensures answers { IfOk result IsAnswer }
    ensures refused { IfErr result (λ fault. RefusesReply sending.now reply.now home.now fault) }
{
    let Some(last) = last_proxy_state(reply)? else {
        return Err(ReplyFault::NoProxyState);
    };
    if !is_returned_mark(sending, reply, last) {
        return Err(ReplyFault::NoProxyState);
    }
    let room = room_behind(sending, reply, client, home);
    let response = write_response(alloc, head, reply, last, client, room)?;
    Ok(Reply::keep(head, response, sending, reply, client, home)?)
}

/// Returns the place of the last Proxy-State of a reply, if it has one. Looks at each attribute once at most.
///
/// # Errors
///
/// If the reply has a Message-Authenticator.
fn last_proxy_state(reply: &PacketRef<'_>) -> Result<Option<AttributePlace>, ReplyFault>
    ensures { MatchResult result
        (λ last. (of_kind 80 (packet_attributes reply.now) ≡ []) × IsLastOrNone reply.now last)
        (λ fault. (fault ≡ MessageAuthenticatorHere) × (of_kind 80 (packet_attributes reply.now) ≢ [])) }
{
    let mut place = HEADER_LENGTH;
    let mut last = None;
    for attribute in reply.attributes() {
        let length = 2 + attribute.value.len();
        match attribute.kind {
            MESSAGE_AUTHENTICATOR => return Err(ReplyFault::MessageAuthenticatorHere),
            PROXY_STATE => last = Some(AttributePlace { place, length }),
            _ => {}
        }
        place += length;
    }
    Ok(last)
}

/// Whether the last Proxy-State of the reply, at `last`, is the mark of the sending, which is the last attribute of
/// the sending. A mark has [`MARK_LENGTH`] octets, so it is compared with as many last octets of the sending.
fn is_returned_mark(sending: &PacketRef<'_>, reply: &PacketRef<'_>, last: AttributePlace) -> bool
    requires mark { (mark : Mark) × EndsWithMark mark sending.now }
    requires last { IsLastAt reply.now 33 last.place last.length }
    ensures returned { OnTrue result (IsReturnedAt sending.now reply.now last.place last.length) }
    ensures other { OnFalse result (¬ ReturnsItsMark sending.now reply.now) }
{
    let sent = sending.octets();
    let mark = &sent[sent.len() - MARK_LENGTH..];
    &reply.octets()[last.place..last.place + last.length] == mark
}

/// Returns the octets of the attributes before the one at this place, and of those after it.
fn attributes_around<'a>(packet: &PacketRef<'a>, at: AttributePlace) -> (&'a [u8], &'a [u8])
    requires { HasAttributeAt packet.now at.place at.length }
    ensures packet { IsPacketText packet.now }
    ensures before { AreAttributes result.0.now }
    ensures after { AreAttributes result.1.now }
    ensures others { result.0.now ++ result.1.now ≡ octets_without packet.now at.place at.length }
    ensures fits { 20 + length result.0.now + length result.1.now ≤ 4096 }
{
    let octets = packet.octets();
    (
        &octets[HEADER_LENGTH..at.place],
        &octets[at.place + at.length..],
    )
}

/// Returns how many octets a [`Reply`] has after its response.
fn room_behind(
    sending: &PacketRef<'_>,
    reply: &PacketRef<'_>,
    client: &Secret,
    home: &Secret,
) -> usize
    ensures value { result ≡ length sending.now + length reply.now + length client.now + length home.now }
    ensures most { result ≤ 8448 }
{
    let packets = sending.octets().len() + reply.octets().len();
    packets + client.octets().len() + home.octets().len()
}

/// Writes the response: the attributes of the reply except the one at `mark`, with the request's Identifier. Reserves
/// `room` more octets behind it. Its Authenticator is computed from the parts first, so no octet is written twice.
fn write_response(
    alloc: Global,
    head: RequestHead,
    reply: &PacketRef<'_>,
    mark: AttributePlace,
    client: &Secret,
    room: usize,
) -> Result<Vec<u8>, AllocError>
    requires place { HasAttributeAt reply.now mark.place mark.length }
    requires few { room ≤ 8448 }
    ensures reply { IsPacketText reply.now }
    ensures made { IfOk result (λ octets. octets.items ≡ accounting_response head.identifier head.authenticator (octets_without reply.now mark.place mark.length) client.now) }
{
    let (before, after) = attributes_around(reply, mark);
    let count = HEADER_LENGTH + before.len() + after.len();
    let start = packet_start(ACCOUNTING_RESPONSE, head.identifier, count);
    let signature = digest_of_parts(&start, &head.authenticator, before, after, client);
    let mut octets = Vec::with_capacity(alloc, count + room)?;
    octets.extend_from_slice(&start)?;
    octets.extend_from_slice(&signature)?;
    octets.extend_from_slice(before)?;
    octets.extend_from_slice(after)?;
    Ok(octets)
}
