//! The metrics of the spool.

ghost use Rattle.std.specs.Prelude.{◌≡◌, OnOk};
ghost use Rattle.std.specs.Io.KnownBytes.{Appends};
ghost use Rattle.rad_metrics.specs.Metrics.{spool_value, spool_text};

use crate::family::Family;
use crate::sample::{Labels, Sample};
use crate::value::Value;
use std::io::{self, Write};

/// What is known of a spool at one moment.
#[derive(Clone, Copy)]
pub struct SpoolNumbers {
    /// How many requests are open.
    pub open: u64,
    /// How many of them are in no synced batch.
    pub unsynced: u64,
    /// How many milliseconds ago all was in a synced batch.
    pub behind: u64,
    /// How many milliseconds ago the oldest of them came in.
    pub age: u64,
    /// How many octets the segments have.
    pub octets: u64,
    /// How many requests and responses found no room.
    pub lost: u64,
    /// How many entries were written.
    pub written: u64,
    /// How often the disk failed.
    pub faults: u64,
    /// Whether it fails now.
    pub is_failing: bool,
    /// How many requests of earlier runs no longer pass the checks.
    pub dropped: u64,
    /// How many datagrams had to wait for requests of earlier runs.
    pub held: u64,
}

/// A metric of the spool.
#[derive(Clone, Copy)]
pub enum SpoolMetric {
    Open,
    Unsynced,
    Behind,
    Age,
    Octets,
    Lost,
    Written,
    Faults,
    Failing,
    Dropped,
    Held,
}

impl SpoolMetric {
    /// Returns the value of the metric.
    pub fn value(self, numbers: &SpoolNumbers) -> Value
        ensures { result ≡ spool_value self numbers.now }
    {
        match self {
            SpoolMetric::Open => Value::Count(numbers.open),
            SpoolMetric::Unsynced => Value::Count(numbers.unsynced),
            SpoolMetric::Behind => Value::Milliseconds(numbers.behind),
            SpoolMetric::Age => Value::Milliseconds(numbers.age),
            SpoolMetric::Octets => Value::Count(numbers.octets),
            SpoolMetric::Lost => Value::Count(numbers.lost),
            SpoolMetric::Written => Value::Count(numbers.written),
            SpoolMetric::Faults => Value::Count(numbers.faults),
            SpoolMetric::Failing => Value::of_bool(numbers.is_failing),
            SpoolMetric::Dropped => Value::Count(numbers.dropped),
            SpoolMetric::Held => Value::Count(numbers.held),
        }
    }
}

/// Writes the lines of a metric of the spool, if there is one.
///
/// # Errors
///
/// The writer's own error.
pub(crate) fn write_spool<W: Write>(
    writer: &mut W,
    family: Family,
    metric: SpoolMetric,
    numbers: Option<SpoolNumbers>,
) -> io::Result<()>
    ensures { OnOk result (Appends (W.contents writer.old) (W.contents writer.new) (spool_text family metric numbers)) }
{
    let Some(numbers) = numbers else {
        return Ok(());
    };
    let sample = Sample {
        name: family.name,
        suffix: "",
        labels: Labels(None, None),
        value: metric.value(&numbers),
    };
    write!(writer, "{family}{sample}")
}
