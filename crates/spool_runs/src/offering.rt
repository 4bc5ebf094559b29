//! What a start offers, and in which order.

ghost use Rattle.std.specs.Prelude.{ℕ, List};
ghost use Rattle.spool_files.specs.Entries.{Entry};
ghost use Rattle.spool_runs.specs.Happens.{Happens, Life};
ghost use Rattle.spool_runs.specs.Happens.Happening.{starts};
ghost use Rattle.spool_runs.specs.Laws.{AreAcceptedInOrder, OffersOnce};
ghost use Rattle.spool_runs.specs.World.{Setup, World};

/// No start offers a request twice, or one that an entry synced after it answers or gives up.
pub fn offered_once()
    ensures { (old new : World) (setup : Setup) (moment : ℕ) (offered : List Entry) (next : ℕ)
        → Life old
        → Happens old (starts setup moment offered next) new
        → OffersOnce old offered }
{}

/// Each lane of a run accepts requests in the order in which they first came, in whatever run: those that earlier runs left
/// come before those that came newer for this lane.
pub fn in_order_of_arrival()
    ensures { (world : World) → Life world → AreAcceptedInOrder world }
{}
