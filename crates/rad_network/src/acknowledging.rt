//! What the home server had received and replied to where a lane answers.

ghost use Rattle.std.specs.Prelude.{ℕ, Ok};
ghost use Rattle.rad_lane.specs.Datagrams.{Datagrams};
ghost use Rattle.rad_lane.specs.declared.hearing.Heard.TheVariants.{Answer};
ghost use Rattle.rad_lane.specs.declared.outgoing.Outgoing.{Outgoing};
ghost use Rattle.rad_lane.specs.declared.running.Event.{Event};
ghost use Rattle.rad_lane.specs.declared.running.GivenAnswer.TheVariants.{Hear as heard};
ghost use Rattle.rad_network.specs.Acknowledged.{IsAcknowledged};
ghost use Rattle.rad_network.specs.Happens.{Happens, Life};
ghost use Rattle.rad_network.specs.Happens.Happening.{called};
ghost use Rattle.rad_network.specs.World.{World};

/// Where a call answers a request, the home server had received the octets that were made of this very record, and had
/// replied to them with exactly this reply. The response has the attributes of this reply but for the mark, and is for
/// that record's client, port, Identifier and Authenticator, valid under its client's secret. The answer to a probe
/// answers no record.
///
/// It is so if nobody but the home server makes a packet that is valid for a datagram that departed
/// (`OnlyHomeReplies`), and each of its replies returns the Proxy-States of what it answers (`IsReplyTo`). A reply may
/// come late, again, or for another request. Nothing is presumed of collisions of
/// the digest: the mark that a reply returns gives the number, and all that departs for one number is one datagram.
pub fn an_answer_was_acknowledged()
    ensures { (old : World) (event : Event) (outgoing : Outgoing) (d : Datagrams) (new : World)
        → Life old
        → Happens old (called event (heard (Ok (Answer outgoing))) d) new
        → IsAcknowledged old outgoing }
{}
