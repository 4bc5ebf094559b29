//! The comparison of a response with a kept answer.

ghost use Rattle.std.specs.Prelude.{◌≡◌, ◌↔◌, IsTrue};
ghost use Rattle.locked_lanes.specs.Outlet.{Agrees};

use rad_auth::Reply;
use rad_lane::{Answered, Outgoing, Stamp};

/// Returns whether a response agrees with a kept answer: in the client's address and port, the Identifier, and the
/// octets of the sending, the reply and the response. It compares all octets, and no secrets: the response was signed
/// with the client's, and the sending with the home server's.
pub fn agrees(answer: &Answered, outgoing: &Outgoing) -> bool
    ensures { IsTrue result ↔ Agrees answer.now outgoing.now }
{
    is_to_the_same(&answer.stamp(), outgoing) && is_the_same(answer.reply(), &outgoing.reply)
}

fn is_to_the_same(stamp: &Stamp, outgoing: &Outgoing) -> bool
    ensures { IsTrue result ↔ (outgoing.now.client ≡ stamp.now.client) × (outgoing.now.port ≡ stamp.now.port) × (outgoing.now.reply.head.identifier ≡ stamp.now.identifier) }
{
    are_same(&outgoing.client, &stamp.client)
        && outgoing.port == stamp.port
        && outgoing.reply.head().identifier == stamp.identifier
}

fn is_the_same(kept: &Reply, given: &Reply) -> bool
    ensures { IsTrue result ↔ (given.now.sending ≡ kept.now.sending) × (given.now.reply ≡ kept.now.reply) × (given.now.response ≡ kept.now.response) }
{
    are_same(given.sending(), kept.sending())
        && are_same(given.reply(), kept.reply())
        && are_same(given.response(), kept.response())
}

/// For the proof: returns whether these octets are the same.
fn are_same(given: &[u8], kept: &[u8]) -> bool
    ensures { IsTrue result ↔ given.now ≡ kept.now }
{
    given == kept
}
