//! What a network does that delivers.

ghost use Rattle.std.specs.Prelude.{◌≡◌, ◌≤◌, [], ℕ, List, Result, length};
ghost use Rattle.std.specs.List.{Contains};
ghost use Rattle.rad_config.specs.Limits.{AreInRange};
ghost use Rattle.rad_lane.specs.Book.{Book, outstanding_at};
ghost use Rattle.rad_lane.specs.declared.hearing.Heard.{Heard};
ghost use Rattle.rad_lane.specs.declared.hearing.HearFault.{HearFault};
ghost use Rattle.rad_lane.specs.Hears.{Hears};
ghost use Rattle.rad_lane.specs.Outstanding.{Outstanding};
ghost use Rattle.rad_network.specs.Delivering.{DeliveredRounds, IsDeliveredRound};
ghost use Rattle.rad_network.specs.Happens.{Life};
ghost use Rattle.rad_network.specs.World.{HomeReply, World};
ghost use Rattle.rad_packet.specs.Attribute.{of_kind};
ghost use Rattle.rad_packet.specs.Packet.{packet_attributes};
ghost use Rattle.rad_packet.specs.Reading.{ReadsAs};
ghost use Rattle.rad_progress.specs.Replies.{IsAnsweredBy};
ghost use Rattle.rad_progress.specs.Rounds.{CanGoOn, IsRound, IsServed, rounds_for};
ghost use Rattle.rad_tables.specs.declared.slots.Slot.{Slot};

/// While a request is outstanding, any reply that the home server made to what was sent of it, and that comes to its
/// source port, answers it, unless memory is refused or the reply has a Message-Authenticator.
pub fn a_delivered_reply_is_heard()
    ensures { (world : World) (slot : Slot) (entry : Outstanding) (r : HomeReply) (moment : ℕ) (datagram : List ℕ)
        → (result : Result Heard HearFault) (next : Book)
        → Life world
        → outstanding_at world.book slot entry
        → Contains world.replies r → r.asked ≡ entry.octets
        → of_kind 80 (packet_attributes r.reply) ≡ []
        → ReadsAs datagram r.reply
        → Hears world.book moment slot.port datagram result next
        → IsAnsweredBy entry result }
{}

/// If the network delivers a reply of the home server to each request that is outstanding, then that is a round. So
/// after as many such rounds as the queue takes, nothing is queued and nothing is outstanding, where the limits are in
/// their ranges, nothing is accepted meanwhile, and the lane is up, or something is outstanding.
pub fn a_delivered_round_is_a_round()
    ensures round { (old new : World) → Life old → IsDeliveredRound old new → IsRound old.book new.book }
    ensures served { (n : ℕ) (old new : World)
        → Life old → AreInRange old.book.setup.limits → CanGoOn old.book
        → DeliveredRounds n old new
        → rounds_for (length old.book.queued) old.book.setup.limits.window ≤ n
        → IsServed new.book }
{}
