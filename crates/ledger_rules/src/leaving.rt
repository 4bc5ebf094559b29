//! What is wrong with a request that was left.

ghost use Rattle.std.specs.Prelude.{◌≡◌, ◌↔◌, IfSome, IsTrue, MatchOption, option_copied};
ghost use Rattle.rad_auth.specs.Authenticator.{IsRightRequest};
ghost use Rattle.ledger_rules.specs.Leaving.{HasRequest, IsRightlyLeft, IsWronglyLeft};

use crate::left::Left;
use crate::packets::whole_packet;
use crate::reason::Reason;
use rad_auth::{ACCOUNTING_REQUEST, Secret, check_request};
use rad_packet::PacketRef;

/// Returns the first thing that is wrong with a request that was left, if anything is. It looks at the packet, under the
/// client's secret if that is known, then whether its run names its lane, and then whether another line has its number. It
/// hashes the packet once.
pub fn judge_left(
    left: &Left<'_>,
    client: Option<&Secret>,
    named: bool,
    twice: bool,
) -> Option<Reason>
    ensures { MatchOption result (IsRightlyLeft left.now (option_copied client.entry) (IsTrue named) (IsTrue twice)) (λ reason. IsWronglyLeft left.now (option_copied client.entry) (IsTrue named) (IsTrue twice) reason) }
{
    let Some(request) = whole_packet(left.request) else {
        return Some(Reason::NoPacket);
    };
    if !is_request(left, &request, client) {
        return Some(Reason::WrongSent);
    }
    if !named {
        return Some(Reason::UnknownLane);
    }
    if twice {
        return Some(Reason::RecordTwice);
    }
    None
}

/// Whether a packet is the request that a line names, and is right under the client's secret if that is known.
fn is_request(left: &Left<'_>, request: &PacketRef<'_>, client: Option<&Secret>) -> bool
    requires { request.now ≡ left.now.request.now }
    ensures { IsTrue result ↔ HasRequest left.now (option_copied client.entry) }
{
    request.code() == ACCOUNTING_REQUEST
        && request.identifier() == left.about.identifier
        && request.authenticator() == left.about.authenticator
        && is_right(request, client)
}

fn is_right(request: &PacketRef<'_>, client: Option<&Secret>) -> bool
    ensures { IsTrue result ↔ IfSome (option_copied client.entry) (λ secret. IsRightRequest secret request.now) }
{
    match client {
        Some(secret) => check_request(request, secret),
        None => true,
    }
}
