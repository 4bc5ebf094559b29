//! No request is lost.

ghost use Rattle.spool_runs.specs.Happens.{Life};
ghost use Rattle.spool_runs.specs.Laws.{AStopLosesNone, NoneIsLost};
ghost use Rattle.spool_runs.specs.World.{World};

/// At each moment of each run, each request whose batch was ever synced was answered or given up, in some run, after it was
/// accepted; or it, or another request of its key, is open on the disk, so that the next start offers it. While a run is up,
/// this run has what is open: it waits for its lane, or was dropped by name, or its lane has it queued, outstanding or answered.
pub fn none_is_lost()
    ensures { (world : World) → Life world → NoneIsLost world }
{}

/// When a run ends in order, each request that it had was synced, or was counted as not on disk, or was answered while the disk
/// failed.
pub fn a_stop_loses_none()
    ensures { (old new : World) → Life old → AStopLosesNone old new }
{}
