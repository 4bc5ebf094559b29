//! How a right reply is heard.

ghost use Rattle.std.specs.Prelude.{◌≡◌, ◌⊎◌, ℕ, List, Result};
ghost use Rattle.rad_lane.specs.Book.{Book, outstanding_at};
ghost use Rattle.rad_lane.specs.declared.hearing.Heard.{Heard};
ghost use Rattle.rad_lane.specs.declared.hearing.HearFault.{HearFault};
ghost use Rattle.rad_lane.specs.Hears.{Hears};
ghost use Rattle.rad_lane.specs.Lawful.{IsLawful};
ghost use Rattle.rad_lane.specs.Outstanding.{Outstanding};
ghost use Rattle.rad_progress.specs.Calls.{Calls};
ghost use Rattle.rad_progress.specs.Replies.{IsAnsweredAmong, IsAnsweredBy, IsRightReply, IsStillOutstanding};
ghost use Rattle.rad_tables.specs.declared.slots.Slot.{Slot};

/// While a request is outstanding, a right reply to it is heard as the answer to this request, or memory is refused.
pub fn a_right_reply_is_heard()
    ensures { (old : Book) (slot : Slot) (entry : Outstanding) (moment port : ℕ) (datagram : List ℕ)
        → (result : Result Heard HearFault) (new : Book)
        → outstanding_at old slot entry
        → IsRightReply old.setup.home_secret slot entry.octets port datagram
        → Hears old moment port datagram result new
        → IsAnsweredBy entry result }
{}

/// A request is outstanding under its pair, with the same octets, until a call answers it, whatever calls are made. The
/// home server's secret stays too. So what is a right reply to it at one moment is one until it is answered.
pub fn it_can_be_heard_until_it_is_answered()
    ensures stays { (old : Book) (slot : Slot) (entry : Outstanding) (new : Book)
        → IsLawful old
        → outstanding_at old slot entry
        → (calls : Calls old new)
        → IsStillOutstanding new slot entry ⊎ IsAnsweredAmong entry calls.gives }
    ensures setup { (old new : Book) → Calls old new → new.setup ≡ old.setup }
{}
