//! A run that a crash ends, and the next one.

ghost use Rattle.spool_runs.specs.Example.{ComesAgain, ComesNotAgain};

/// There are lives with crashes, so the laws speak of some: after a crash the next run offers a request that was synced, and
/// not one whose answer was synced too, which it remembers.
pub fn there_are_crashes()
    ensures again { ComesAgain }
    ensures not_again { ComesNotAgain }
{}
