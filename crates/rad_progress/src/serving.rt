//! A home server that answers, in rounds.

ghost use Rattle.std.specs.Prelude.{◌≡◌, ◌+◌, ◌-◌, ◌*◌, ◌≤◌, ℕ, suc, List, ◌∷◌, ◌++◌, length, IsSome};
ghost use Rattle.rad_config.specs.Limits.{AreInRange};
ghost use Rattle.rad_lane.specs.Book.{Book, outstanding_count};
ghost use Rattle.rad_lane.specs.Counting.{IsDone};
ghost use Rattle.rad_lane.specs.Lawful.{IsLawful};
ghost use Rattle.rad_lane.specs.Stamp.{Recorded};
ghost use Rattle.rad_progress.specs.Rounds.{CanGoOn, IsAnsweredOnce, IsRound, IsServed, Rounds, RoundsWithRequests, rounds_after, rounds_for};

/// A lane that is up, or has something outstanding, has nothing queued and nothing outstanding after one round and one
/// more for each window of its queue, rounded up. In rounds before which requests come, each request that is queued is
/// answered, once: after its own round, at the latest when there was one more for each window of those queued before
/// it, rounded down, and another one. Its own round is the one that begins with the given book, into which it may just
/// have been accepted.
pub fn served_in_rounds()
    ensures all { (n : ℕ) (old new : Book)
        → IsLawful old → AreInRange old.setup.limits → CanGoOn old
        → Rounds n old new
        → rounds_for (length old.queued) old.setup.limits.window ≤ n
        → IsServed new }
    ensures each_once { (n : ℕ) (old first new : Book) (before : List Recorded) (r : Recorded) (after : List Recorded)
        → IsLawful old → AreInRange old.setup.limits → CanGoOn old
        → old.queued ≡ before ++ r ∷ after
        → IsRound old first
        → RoundsWithRequests n first new
        → rounds_after (length before) old.setup.limits.window ≤ n
        → IsAnsweredOnce new r.stamp }
{}

/// The number of rounds is exact for a lane whose window is full: the first round sends nothing of the queue, and each
/// round after it sends one window.
pub fn a_full_window_takes_all_the_rounds()
    ensures { (n : ℕ) (old new : Book)
        → IsLawful old → AreInRange old.setup.limits
        → old.setup.limits.window ≤ outstanding_count old
        → Rounds (suc n) old new
        → length new.queued ≡ length old.queued - n * old.setup.limits.window }
{}

/// A drained lane that is up, or has something outstanding, is done after as many rounds, also if requests come.
pub fn a_drained_lane_is_done()
    ensures { (n : ℕ) (old new : Book)
        → IsLawful old → AreInRange old.setup.limits → CanGoOn old
        → IsSome old.drain
        → RoundsWithRequests n old new
        → rounds_for (length old.queued) old.setup.limits.window ≤ n
        → IsDone new }
{}
