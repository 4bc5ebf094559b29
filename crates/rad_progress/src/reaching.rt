//! Books at which the bounds are reached.

ghost use Rattle.std.specs.Prelude.{◌≡◌, ◌≢◌, ◌≤◌, ℕ, length, Option};
ghost use Rattle.rad_lane.specs.Book.{Book};
ghost use Rattle.rad_lane.specs.declared.watch.Watch.TheVariants.{Down as down};
ghost use Rattle.rad_lane.specs.Lawful.{IsLawful};
ghost use Rattle.rad_lane.specs.Setup.{LaneSetup};
ghost use Rattle.rad_lane.specs.Stamp.{Recorded, key_of};
ghost use Rattle.rad_progress.specs.Examples.{behind, Fits, IsInRange, waiting};
ghost use Rattle.rad_progress.specs.Rounds.{Rounds, rounds_for};
ghost use Rattle.rad_progress.specs.StepsLeft.{most_steps, steps_left};
ghost use Rattle.rad_tables.specs.declared.slots.Slot.{Slot};

/// The most steps are left to each lane whose wait is over. So they are to a lane that was marked down until now and in
/// whose queue one request waits: going up, and sending it.
pub fn the_most_steps_are_left_once_a_wait_is_over()
    ensures each { (book : Book) (now until next : ℕ) (out : Option Slot)
        → IsLawful book → book.watch ≡ down until next out → until ≤ now
        → steps_left book now ≡ most_steps book }
    ensures written_out { (setup : LaneSetup) (r : Recorded)
        → IsInRange setup → Fits setup 0 r
        → IsLawful (waiting setup r)
        × (steps_left (waiting setup r) r.stamp.moment ≡ 2)
        × (most_steps (waiting setup r) ≡ 2) }
{}

/// A queue takes all the rounds that the bound gives it. One request is outstanding, in a window of one, and one waits
/// behind it: the bound gives this queue of one two rounds, and after one round the request still waits.
pub fn a_queue_behind_a_full_window_takes_all_its_rounds()
    ensures { (setup : LaneSetup) (first next : Recorded)
        → IsInRange setup → setup.limits.window ≡ 1 → 2 ≤ setup.limits.book
        → Fits setup 0 first → Fits setup 1 next
        → first.stamp.moment ≤ next.stamp.moment
        → key_of first.stamp ≢ key_of next.stamp
        → IsLawful (behind setup first next)
        × (rounds_for 1 1 ≡ 2)
        × ((new : Book) → Rounds 1 (behind setup first next) new → length new.queued ≡ 1) }
{}
