//! What a run remembers of the answers of earlier ones.

ghost use Rattle.std.specs.Prelude.{ℕ, Bool};
ghost use Rattle.spool_files.specs.Entries.{Entry};
ghost use Rattle.spool_runs.specs.Happens.{Happens, Life};
ghost use Rattle.spool_runs.specs.Happens.Happening.{accepts};
ghost use Rattle.spool_runs.specs.Laws.{AnswersAreRecalled, IsAcceptedAfterItsSpan};
ghost use Rattle.spool_runs.specs.World.{World};

/// No request is accepted anew within its lane's span of an answer to it that an earlier run gave, and that was synced.
pub fn none_anew_within_its_span()
    ensures { (old new : World) (request : Entry) (handed : Bool) (moment next : ℕ)
        → Life old
        → Happens old (accepts request handed moment next) new
        → IsAcceptedAfterItsSpan old request moment }
{}

/// A run remembers each answer that an earlier run gave, and that was synced, with its octets, and no other to a request of
/// its key: so a repeat gets these octets.
pub fn the_same_answer()
    ensures { (world : World) → Life world → AnswersAreRecalled world }
{}
