//! What is wrong with an entry.

ghost use Rattle.std.specs.Prelude.{◌≡◌, ◌↔◌, option_copied, MatchOption, IfOk, IfSome, IsTrue};
ghost use Rattle.rad_auth.specs.Answers.{Answers};
ghost use Rattle.rad_auth.specs.Mark.{EndsWithMark};
ghost use Rattle.rad_auth.specs.declared.mark.Mark.{Mark as TheMark};
ghost use Rattle.ledger_rules.specs.Judging.{ArePacketsRight, IsInPlace, IsReply, IsRequest, IsResponse, IsSent, IsWrong, IsWrongPacket, JudgesReply, head_of as the_head_of, mark_of as the_mark_of};

use crate::entry::Entry;
use crate::packets::{attributes_before, ends_with_mark, whole_packet};
use crate::reason::Reason;
use rad_auth::{
    ACCOUNTING_REQUEST, ACCOUNTING_RESPONSE, Mark, Reply, ReplyFault, RequestHead, Secret,
    check_request, check_response, is_request_of, one_response, refused_or_answered, respond,
};
use rad_packet::PacketRef;
use std::alloc::{AllocError, Global};

/// Returns the first thing that is wrong with an entry, if anything is. It looks at the packets, under the known secrets,
/// then at the serial: `next` is the least serial that the entry's lane can have next, if the run names that lane; and then
/// at the number, which another line has if it is there `twice`. It hashes each packet once, and the request.
///
/// # Errors
///
/// `AllocError` if memory is refused.
#[tactic(auto, using(crate::proofs::Judged::packets_first))]
pub fn judge(
    alloc: Global,
    entry: &Entry<'_>,
    home: Option<&Secret>,
    client: Option<&Secret>,
    next: Option<u64>,
    twice: bool,
) -> Result<Option<Reason>, AllocError>
    ensures { IfOk result (λ wrong. MatchOption wrong (ArePacketsRight entry.now (option_copied home.entry) (option_copied client.entry) × IsInPlace entry.now.serial next × ¬ IsTrue twice) (λ reason. IsWrong entry.now (option_copied home.entry) (option_copied client.entry) next (IsTrue twice) reason)) }
{
    if let Some(reason) = judge_packets(alloc, entry, home, client)? {
        return Ok(Some(reason));
    }
    match next {
        None => Ok(Some(Reason::UnknownLane)),
        Some(least) if entry.serial < least => Ok(Some(Reason::SerialNotAbove)),
        Some(_) if twice => Ok(Some(Reason::RecordTwice)),
        Some(_) => Ok(None),
    }
}

/// Returns the first thing that is wrong with the packets of an entry, if anything is.
fn judge_packets(
    alloc: Global,
    entry: &Entry<'_>,
    home: Option<&Secret>,
    client: Option<&Secret>,
) -> Result<Option<Reason>, AllocError>
    ensures { IfOk result (λ wrong. MatchOption wrong (ArePacketsRight entry.now (option_copied home.entry) (option_copied client.entry)) (λ reason. IsWrongPacket entry.now (option_copied home.entry) (option_copied client.entry) reason)) }
{
    let Some(sent) = whole_packet(entry.sent) else {
        return Ok(Some(Reason::NoPacket));
    };
    let Some(reply) = whole_packet(entry.reply) else {
        return Ok(Some(Reason::NoPacket));
    };
    let Some(response) = whole_packet(entry.response) else {
        return Ok(Some(Reason::NoPacket));
    };
    let head = head_of(entry);
    let mark = mark_of(entry);
    if !is_sent(&sent, mark, home) {
        return Ok(Some(Reason::WrongSent));
    }
    if !is_request(&sent, head, mark, client) {
        return Ok(Some(Reason::WrongRequest));
    }
    match home {
        Some(home) => judge_reply(alloc, head, &sent, &reply, entry.response, home, client),
        None if is_response(&response, head, client) => Ok(None),
        None => Ok(Some(Reason::WrongResponse)),
    }
}

fn mark_of(entry: &Entry<'_>) -> Mark
    ensures { result ≡ the_mark_of entry.now }
{
    Mark {
        lane: entry.about.lane,
        number: entry.about.number,
    }
}

fn head_of(entry: &Entry<'_>) -> RequestHead
    ensures { result ≡ the_head_of entry.now }
{
    RequestHead {
        identifier: entry.about.identifier,
        authenticator: entry.about.authenticator,
    }
}

/// Whether a packet is an Accounting-Request that is valid under the home server's secret, with this mark last, if that secret
/// is known.
fn is_sent(sent: &PacketRef<'_>, mark: Mark, home: Option<&Secret>) -> bool
    ensures { IsTrue result ↔ IfSome (option_copied home.entry) (λ secret. IsSent secret mark sent.now) }
{
    match home {
        Some(secret) => is_sent_under(sent, mark, secret),
        None => true,
    }
}

fn is_sent_under(sent: &PacketRef<'_>, mark: Mark, home: &Secret) -> bool
    ensures { IsTrue result ↔ IsSent home.now mark sent.now }
{
    sent.code() == ACCOUNTING_REQUEST && check_request(sent, home) && ends_with_mark(sent, mark)
}

/// Whether the attributes of a packet are those of the request with this head, which is valid under the client's secret, and
/// this mark behind them, if that secret is known.
fn is_request(sent: &PacketRef<'_>, head: RequestHead, mark: Mark, client: Option<&Secret>) -> bool
    ensures { IsTrue result ↔ IfSome (option_copied client.entry) (λ secret. IsRequest secret head mark sent.now) }
{
    match client {
        Some(secret) => is_request_under(sent, head, mark, secret),
        None => true,
    }
}

fn is_request_under(sent: &PacketRef<'_>, head: RequestHead, mark: Mark, client: &Secret) -> bool
    ensures { IsTrue result ↔ IsRequest client.now head mark sent.now }
{
    ends_with_mark(sent, mark) && is_request_before(sent, head, mark, client)
}

/// The same of a packet that ends with this mark.
#[tactic(auto, using(crate::proofs::Requests::request_by, crate::proofs::Requests::request_right))]
fn is_request_before(sent: &PacketRef<'_>, head: RequestHead, mark: Mark, client: &Secret) -> bool
    requires { EndsWithMark mark sent.now }
    ensures { IsTrue result ↔ IsRequest client.now head mark sent.now }
{
    let attributes = attributes_before(sent, mark);
    is_request_of(head.identifier, &head.authenticator, attributes, client)
}

/// Whether a packet is an Accounting-Response to the request with this head that is valid under the client's secret, if that is
/// known.
fn is_response(response: &PacketRef<'_>, head: RequestHead, client: Option<&Secret>) -> bool
    ensures { IsTrue result ↔ IfSome (option_copied client.entry) (λ secret. IsResponse secret head response.now) }
{
    match client {
        Some(secret) => is_response_under(response, head, secret),
        None => true,
    }
}

fn is_response_under(response: &PacketRef<'_>, head: RequestHead, client: &Secret) -> bool
    ensures { IsTrue result ↔ IsResponse client.now head response.now }
{
    response.code() == ACCOUNTING_RESPONSE
        && response.identifier() == head.identifier
        && check_response(response, &head.authenticator, client)
}

/// Returns what is wrong with the reply or the response, if anything is. Nothing is wrong with what was sent.
fn judge_reply(
    alloc: Global,
    head: RequestHead,
    sent: &PacketRef<'_>,
    reply: &PacketRef<'_>,
    response: &[u8],
    home: &Secret,
    client: Option<&Secret>,
) -> Result<Option<Reason>, AllocError>
    requires { (mark : TheMark) × IsSent home.now mark sent.now }
    ensures { IfOk result (λ wrong. JudgesReply home.now (option_copied client.entry) head sent.now reply.now response.now wrong) }
{
    let Some(client) = client else {
        return match response_after(alloc, head, sent, reply, home, home)? {
            Some(_) => Ok(None),
            None => Ok(Some(Reason::WrongReply)),
        };
    };
    one_response();
    match response_after(alloc, head, sent, reply, client, home)? {
        None => Ok(Some(Reason::WrongReply)),
        Some(made) if made.response() == response => Ok(None),
        Some(_) => Ok(Some(Reason::WrongResponse)),
    }
}

/// Returns the response to a request with this head, after a reply to what was sent. There is none if the reply is not
/// valid.
#[tactic(auto, using(crate::proofs::Replies::other_code, crate::proofs::Replies::other_identifier, crate::proofs::Replies::refused, crate::proofs::Replies::made_for))]
fn response_after(
    alloc: Global,
    head: RequestHead,
    sent: &PacketRef<'_>,
    reply: &PacketRef<'_>,
    client: &Secret,
    home: &Secret,
) -> Result<Option<Reply>, AllocError>
    requires { (mark : TheMark) × IsSent home.now mark sent.now }
    ensures { IfOk result (λ made. MatchOption made (¬ IsReply home.now sent.now reply.now) (λ r. Answers head sent.now reply.now client.now home.now r.response)) }
{
    if reply.code() != ACCOUNTING_RESPONSE {
        return Ok(None);
    }
    if reply.identifier() != sent.identifier() {
        return Ok(None);
    }
    refused_or_answered();
    match respond(alloc, head, sent, reply, client, home) {
        Ok(made) => Ok(Some(made)),
        Err(ReplyFault::OutOfMemory) => Err(AllocError),
        Err(_) => Ok(None),
    }
}
