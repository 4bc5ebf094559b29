//! The lines about each lane: its status, and that it was drained.

ghost use Rattle.std.specs.Prelude.{◌≡◌};
ghost use Rattle.rad_console.specs.Lanes.{watch_name as the_watch_name, mode_name as the_mode_name};

use rad_lane::Counts;
use std::fmt;

/// The line of a lane's status.
#[derive(Drop)]
pub struct StateLine<'a> {
    pub lane: usize,
    /// The home server's name.
    pub name: &'a str,
    pub counts: Counts,
}

/// The line of a drained lane.
#[derive(Clone, Copy)]
pub struct DrainLine {
    pub lane: usize,
    /// How many requests it had accepted.
    pub count: u64,
}

/// The counts of a lane, as they are printed.
#[derive(Clone, Copy)]
struct CountsText<'a>(&'a Counts);

/// The counts of a lane after those of its accepted and queued requests.
#[derive(Clone, Copy)]
struct SentCountsText<'a>(&'a Counts);

fn watch_name(up: bool) -> &'static str
    ensures { result.now ≡ the_watch_name up }
{
    if up { "up" } else { "down" }
}

/// Returns whether a lane is not drained, drained but not done, or done, as it is printed.
fn mode_name(counts: &Counts) -> &'static str
    ensures { result.now ≡ the_mode_name counts.now.draining counts.now.queued counts.now.outstanding }
{
    match (counts.draining, counts.queued, counts.outstanding) {
        (false, _, _) => "open",
        (true, 0, 0) => "done",
        (true, _, _) => "draining",
    }
}

impl fmt::Display for StateLine<'_> {
    ghost use Rattle.std.specs.Prelude.{Some};
    ghost use Rattle.rad_console.specs.Lanes.{state_line};

    ghost output = { λ line. Some (state_line line) };

    fn fmt<W: fmt::Write>(&self, f: &mut fmt::Formatter<W>) -> fmt::Result {
        let lane = self.lane;
        let name = self.name;
        let watch = watch_name(self.counts.up);
        let mode = mode_name(&self.counts);
        let counts = CountsText(&self.counts);
        write!(f, "lane {lane} {name} {watch} {mode} {counts}")
    }
}

impl fmt::Display for CountsText<'_> {
    ghost use Rattle.std.specs.Prelude.{Some};
    ghost use Rattle.rad_console.specs.Lanes.{counts_text};

    ghost output = { λ counts. Some (counts_text counts.0.now) };

    fn fmt<W: fmt::Write>(&self, f: &mut fmt::Formatter<W>) -> fmt::Result {
        let accepted = self.0.accepted;
        let queued = self.0.queued;
        let rest = SentCountsText(self.0);
        write!(f, "accepted {accepted} queued {queued} {rest}")
    }
}

impl fmt::Display for SentCountsText<'_> {
    ghost use Rattle.std.specs.Prelude.{Some, ◌++◌, codes};
    ghost use Rattle.std.specs.Fmt.{decimal};

    ghost output = { λ counts. Some (codes "outstanding " ++ decimal counts.0.now.outstanding
        ++ codes " answered " ++ decimal counts.0.now.answered ++ codes " opening " ++ decimal counts.0.now.opening) };

    fn fmt<W: fmt::Write>(&self, f: &mut fmt::Formatter<W>) -> fmt::Result {
        let outstanding = self.0.outstanding;
        let answered = self.0.answered;
        let opening = self.0.opening;
        write!(
            f,
            "outstanding {outstanding} answered {answered} opening {opening}"
        )
    }
}

impl fmt::Display for DrainLine {
    ghost use Rattle.std.specs.Prelude.{Some};
    ghost use Rattle.rad_console.specs.Lanes.{drain_line};

    ghost output = { λ line. Some (drain_line line) };

    fn fmt<W: fmt::Write>(&self, f: &mut fmt::Formatter<W>) -> fmt::Result {
        let lane = self.lane;
        let count = self.count;
        write!(f, "drain: {lane} {count}")
    }
}
