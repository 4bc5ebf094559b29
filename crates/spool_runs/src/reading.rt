//! What is read from what a crash left.

ghost use Rattle.spool_runs.specs.Files.{ACrashLeavesWholeBatches, AStartCounts};

/// Whatever a crash leaves of a segment while a batch is appended reads as the entries before the batch, with all of the
/// batch's entries or with none.
pub fn a_crash_leaves_whole_batches()
    ensures { ACrashLeavesWholeBatches }
{}

/// What `Counted::count` counts of the entries on disk, and `sort_by_arrival` sorts, is what a start offers and remembers.
pub fn a_start_counts()
    ensures { AStartCounts }
{}
