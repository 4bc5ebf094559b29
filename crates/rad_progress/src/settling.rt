//! How many steps a lane can take at one moment.

ghost use Rattle.std.specs.Prelude.{ℕ, List, ◌≡◌, ◌+◌, ◌≤◌};
ghost use Rattle.std.specs.List.{AllByRecursion};
ghost use Rattle.rad_config.specs.Limits.{AreInRange};
ghost use Rattle.rad_lane.specs.Book.{Book, moment_in};
ghost use Rattle.rad_lane.specs.Datagrams.{Datagrams};
ghost use Rattle.rad_lane.specs.declared.stepping.Action.{Action};
ghost use Rattle.rad_lane.specs.Lawful.{IsLawful};
ghost use Rattle.rad_lane.specs.Steps.{Steps};
ghost use Rattle.rad_progress.specs.Calls.{Calls, EndsIdle, IsStepAt, steps_taken};
ghost use Rattle.rad_progress.specs.StepsLeft.{Settles, most_steps, steps_left};

/// Each step that is not idle leaves one step less, and an idle one finds none and leaves none. So a lane that is stepped
/// at one moment until it is idle takes exactly the steps that were left to it, whatever the random octets are. That is at
/// most one step for each request of the window, and one more.
pub fn a_step_leaves_one_less()
    ensures settles { (old : Book) (moment : ℕ) (random : List ℕ) (action : Action) (d : Datagrams) (new : Book)
        → IsLawful old → AreInRange old.setup.limits
        → Steps old moment random action d new
        → Settles old (moment_in old moment) action new }
    ensures at_once { (old new : Book) (moment : ℕ)
        → IsLawful old → AreInRange old.setup.limits
        → (calls : Calls old new)
        → AllByRecursion (IsStepAt moment) calls.events
        → steps_taken calls.gives + steps_left new (moment_in old moment) ≡ steps_left old (moment_in old moment) }
    ensures until_idle { (old new : Book) (moment : ℕ)
        → IsLawful old → AreInRange old.setup.limits
        → (calls : Calls old new)
        → AllByRecursion (IsStepAt moment) calls.events
        → EndsIdle calls.gives
        → steps_taken calls.gives ≡ steps_left old (moment_in old moment) }
    ensures most { (book : Book) (now : ℕ)
        → IsLawful book
        → steps_left book now ≤ most_steps book }
{}
