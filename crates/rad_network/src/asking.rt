//! What a NAS knows once it is answered.

ghost use Rattle.std.specs.Prelude.{List};
ghost use Rattle.rad_network.specs.Asking.{AcknowledgedMeansReceived, AreApart, Asked, HaveOneAuthenticator, OnlyTheNasAsks, UsesNoKeyTwice};
ghost use Rattle.rad_network.specs.Happens.{Life};
ghost use Rattle.rad_network.specs.World.{World};

/// If a NAS takes a response that the lane gave as the answer to its request, then the lane had accepted that request
/// as a record, and the home server received the octets that are made of this very record, and replied to them, and the
/// response has the attributes of that reply but for the mark, whatever the networks on both sides lose, repeat, delay
/// and reorder. No octets are made of two different records that the lane accepted, so what the home server received for
/// one request does not stand for another with equal attributes.
///
/// The first is so if nobody but the home server makes a packet that is valid for a datagram that departed
/// (`OnlyHomeReplies`, of each call in a `Life`), each of its replies returns the Proxy-States of what it answers
/// (`IsReplyTo`), nobody but a NAS makes the requests that are given to the lane (`OnlyTheNasAsks`), no response can be
/// taken as the answer to requests with two Authenticators (`HaveOneAuthenticator`), and what a NAS asks from one port
/// with one Identifier and Authenticator is one packet (`UsesNoKeyTwice`). A Request Authenticator is a digest of the
/// packet, so the last two say that there is no collision among the packets that the NAS asked with and the responses to
/// them. The second is so in every `Life`.
pub fn acknowledged_means_received()
    ensures received { (asked : List Asked) (world : World) (life : Life world)
        → OnlyTheNasAsks asked life.happenings
        → HaveOneAuthenticator asked world
        → UsesNoKeyTwice asked
        → AcknowledgedMeansReceived asked world }
    ensures apart { (world : World) → Life world → AreApart world }
{}
