//! The moment that an idle step names.

ghost use Rattle.std.specs.Prelude.{ℕ, List, Option};
ghost use Rattle.rad_lane.specs.Book.{Book};
ghost use Rattle.rad_lane.specs.Datagrams.{Datagrams};
ghost use Rattle.rad_lane.specs.declared.stepping.Action.TheVariants.{Idle};
ghost use Rattle.rad_lane.specs.Steps.{Steps};
ghost use Rattle.rad_progress.specs.Idling.{Names};

/// An idle step names the first moment at which the lane has a step left, unless a request or a datagram comes before
/// it. If it names none, the lane has none left at any moment. A due time from 2^62 - 1 milliseconds on is named as
/// that moment.
pub fn idle_until_the_next_step()
    ensures { (old : Book) (moment : ℕ) (random : List ℕ) (named : Option ℕ) (d : Datagrams) (new : Book)
        → Steps old moment random (Idle named) d new
        → Names new named }
{}
