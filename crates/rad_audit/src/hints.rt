//! What may be the cause where lines are wrong alike.

use crate::lanes::Lane;
use crate::printing::LaneName;
use crate::runs::{Run, Runs};
use std::rt::Runtime;

/// What was seen of lines that are wrong alike.
#[derive(Clone, Copy)]
pub struct Hints {
    /// Whether a line ends with a carriage return.
    has_returns: bool,
    /// Whether a file begins like a compressed one.
    is_packed: bool,
}

impl Hints {
    /// Returns that nothing was seen.
    pub fn new() -> Hints {
        Hints {
            has_returns: false,
            is_packed: false,
        }
    }

    /// Looks at a line of a file, which has this number in it.
    pub fn see(&mut self, number: u64, line: &[u8]) {
        self.has_returns = self.has_returns || line.ends_with(b"\r");
        self.is_packed = self.is_packed || (number == 1 && line.starts_with(b"\x1f\x8b"));
    }

    /// Tells on standard error what may be the cause, each cause once.
    pub fn tell<R: Runtime>(&self, rt: &R, runs: &Runs) {
        if self.has_returns {
            let _ = eprintln!(rt; "hint: line ends with a carriage return");
        }
        if self.is_packed {
            let _ = eprintln!(rt; "hint: file is compressed with gzip");
        }
        for name in runs.names() {
            if let Some(lane) = runs.of(*name).and_then(unsent_lane) {
                let name = LaneName::of(*name, lane);
                let _ = eprintln!(rt;
                    "hint: {name}: each entry is WrongSent; is the secret in CONFIG the one of its time?"
                );
                return;
            }
        }
    }
}

/// Returns the first lane of a run with entries of which each is `WrongSent`, if there is one.
fn unsent_lane(run: &Run) -> Option<&Lane> {
    run.lanes
        .iter()
        .find(|lane| lane.wrong_sent != 0 && lane.tally.entries() == 0)
}
