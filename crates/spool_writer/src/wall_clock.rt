//! The wall clock, and its jumps.

ghost use Rattle.std.specs.Prelude.{◌≡◌};
ghost use Rattle.spool_writer.specs.Clocks.{clock_jump, nearest_second};

use crate::log_lines::SpoolLine;
use crate::opening::greatest_span;
use rad_log::{Level, Log, tell};
use rad_realms::Config;
use std::fmt::{self, Display};
use std::time::{Clock, Instant, SystemTime, UNIX_EPOCH};

/// Returns the time, in milliseconds since 1970, if the clock can be read.
pub(crate) fn time_since_1970<R: Clock>(rt: &R) -> Option<u64> {
    let passed = SystemTime::now(rt).ok()?.duration_since(UNIX_EPOCH).ok()?;
    u64::try_from(passed.as_millis()).ok()
}

/// How far the wall clock moved beyond the time that passed.
#[derive(Clone, Copy, Debug, PartialEq, Eq)]
pub struct ClockJump {
    /// Whether it was set ahead; otherwise it was set back.
    pub is_ahead: bool,
    /// How many seconds, to the nearest one.
    pub seconds: u64,
}

impl ClockJump {
    /// Returns the jump of a clock that shows one time where another one was to be expected, if these are more than a span
    /// apart. All three are in milliseconds.
    pub fn between(expected: u64, shown: u64, span: u64) -> Option<ClockJump>
        ensures { result ≡ clock_jump expected shown span }
    {
        let ahead = shown.saturating_sub(expected);
        let behind = expected.saturating_sub(shown);
        if ahead > span {
            Some(ClockJump {
                is_ahead: true,
                seconds: to_seconds(ahead),
            })
        } else if behind > span {
            Some(ClockJump {
                is_ahead: false,
                seconds: to_seconds(behind),
            })
        } else {
            None
        }
    }
}

impl Display for ClockJump {
    ghost use Rattle.std.specs.Prelude.{Some};
    ghost use Rattle.spool_writer.specs.Clocks.{jump_text};

    ghost output = { λ jump. Some (jump_text jump) };

    fn fmt<W: fmt::Write>(&self, f: &mut fmt::Formatter<W>) -> fmt::Result {
        let sign = if self.is_ahead { "" } else { "-" };
        let seconds = self.seconds;
        write!(f, "{sign}{seconds}")
    }
}

/// Returns the number of seconds that is nearest to so many milliseconds.
fn to_seconds(milliseconds: u64) -> u64
    ensures { result ≡ nearest_second milliseconds }
{
    milliseconds / 1000 + milliseconds % 1000 / 500
}

/// Watches whether the wall clock jumps by more than the greatest span of a configuration.
#[derive(Drop)]
pub struct ClockWatch {
    /// The span, in milliseconds.
    span: u64,
    /// What the wall clock showed at the last look, in milliseconds since 1970, and when that was.
    last: Option<(u64, Instant)>,
}

impl ClockWatch {
    /// Makes it without a look.
    pub fn new(config: &Config) -> ClockWatch {
        ClockWatch {
            span: greatest_span(config),
            last: None,
        }
    }

    /// Looks at the clocks, and logs the jump of the wall clock since the last look, if there is one. Without both clocks it does
    /// nothing.
    pub fn look<R: Clock, L: Log>(&mut self, clock: &R, log: &L) {
        let Ok(moment) = Instant::now(clock) else {
            return;
        };
        let Some(shown) = time_since_1970(clock) else {
            return;
        };
        if let Some((before, since)) = self.last {
            let passed = moment.saturating_duration_since(since).as_millis();
            let expected = before.saturating_add(u64::try_from(passed).unwrap_or(u64::MAX));
            if let Some(jump) = ClockJump::between(expected, shown, self.span) {
                tell(log, Level::Warn, &SpoolLine::Clock(jump));
            }
        }
        self.last = Some((shown, moment));
    }
}
