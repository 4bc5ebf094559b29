//! The metrics of a home server and of the limits of its lane, and what they are read of.

ghost use Rattle.std.specs.Prelude.{◌≡◌, ◌-◌};
ghost use Rattle.rad_metrics.specs.Metrics.{home_value, age_at, resent};

use crate::value::Value;
use rad_desk::Standing;
use rad_realms::LimitNumbers;
use rad_tables::Moment;

/// What was last reported of a home server, all of it under one hold of its lane's lock. Its times are in milliseconds since 1970, except for those of the lane.
#[derive(Clone, Copy)]
pub struct Reading {
    /// The limits of its lane.
    pub limits: LimitNumbers,
    /// The standing of its lane.
    pub standing: Standing,
    /// The lane's moment at that time.
    pub moment: Moment,
    /// When that was reported.
    pub told: u64,
    /// Since when the home server is marked up or down.
    pub since: u64,
    /// How long it was marked down since the start.
    pub down: u64,
    /// When it last answered; 0 if it never did.
    pub last_answer: u64,
    /// How many Accounting-Requests were sent to it.
    pub sent: u64,
    /// The longest time since the first sending of an outstanding request, in milliseconds.
    pub oldest_outstanding: u64,
}

/// A metric of a home server or of its lane.
#[derive(Clone, Copy)]
pub enum HomeMetric {
    BookLimit,
    QueueLimit,
    WindowLimit,
    RingLimit,
    Span,
    Up,
    Since,
    Down,
    Told,
    Draining,
    Accepted,
    Answered,
    Queued,
    Outstanding,
    Held,
    Resent,
    OldestQueued,
    OldestOutstanding,
    OldestHeld,
    LastAnswer,
}

impl HomeMetric {
    /// Returns the value of the metric, by what was read of the lane.
    pub fn value(self, reading: &Reading) -> Value
        ensures { result ≡ home_value self reading.now }
    {
        let limits = reading.limits;
        let counts = reading.standing.counts;
        match self {
            HomeMetric::BookLimit => Value::Count(u64::from(limits.book)),
            HomeMetric::QueueLimit => Value::Count(u64::from(limits.queue)),
            HomeMetric::WindowLimit => Value::Count(u64::from(limits.window)),
            HomeMetric::RingLimit => Value::Count(u64::from(limits.ring)),
            HomeMetric::Span => Value::Milliseconds(u64::from(limits.span)),
            HomeMetric::Up => Value::of_bool(counts.up),
            HomeMetric::Since => Value::Milliseconds(reading.since),
            HomeMetric::Down => Value::Milliseconds(reading.down),
            HomeMetric::Told => Value::Milliseconds(reading.told),
            HomeMetric::Draining => Value::of_bool(counts.draining),
            HomeMetric::Accepted => Value::Count(counts.accepted),
            HomeMetric::Answered => Value::Count(counts.answered),
            HomeMetric::Queued => Value::Count(counts.queued as u64),
            HomeMetric::Outstanding => Value::Count(counts.outstanding as u64),
            HomeMetric::Held => Value::Count(counts.accepted.saturating_sub(counts.opening)),
            HomeMetric::Resent => Value::Count(resent_of(reading)),
            HomeMetric::OldestQueued => {
                Value::Milliseconds(age_of(reading.standing.first_queued, reading.moment))
            }
            HomeMetric::OldestOutstanding => Value::Milliseconds(reading.oldest_outstanding),
            HomeMetric::OldestHeld => {
                Value::Milliseconds(age_of(reading.standing.first_held, reading.moment))
            }
            HomeMetric::LastAnswer => Value::Milliseconds(reading.last_answer),
        }
    }
}

fn resent_of(reading: &Reading) -> u64
    ensures { result ≡ resent reading.now }
{
    let counts = reading.standing.counts;
    let first = counts.accepted.saturating_sub(counts.queued as u64);
    reading.sent.saturating_sub(first)
}

fn age_of(first: Option<Moment>, moment: Moment) -> u64
    ensures { result ≡ age_at first moment }
{
    match first {
        Some(first) => moment.get().saturating_sub(first.get()),
        None => 0,
    }
}
