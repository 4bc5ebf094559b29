//! The metrics of the ledger.

ghost use Rattle.std.specs.Prelude.{◌≡◌, OnOk};
ghost use Rattle.std.specs.Io.KnownBytes.{Appends};
ghost use Rattle.rad_metrics.specs.Metrics.{ledger_value, ledger_text};

use crate::family::Family;
use crate::sample::{Labels, Sample};
use crate::value::Value;
use ledger_state::LedgerReading;
use std::io::{self, Write};

/// A metric of the ledger.
#[derive(Clone, Copy)]
pub enum LedgerMetric {
    Written,
    Waiting,
    Dropped,
    Lost,
    Age,
    Unsynced,
}

impl LedgerMetric {
    /// Returns the value of the metric.
    pub fn value(self, reading: &LedgerReading<'_>) -> Value
        ensures { result ≡ ledger_value self reading.now }
    {
        match self {
            LedgerMetric::Written => Value::Count(reading.written),
            LedgerMetric::Waiting => Value::Count(reading.waiting),
            LedgerMetric::Dropped => Value::Count(reading.dropped),
            LedgerMetric::Lost => Value::Count(reading.lost),
            LedgerMetric::Age => Value::Milliseconds(reading.age),
            LedgerMetric::Unsynced => Value::Milliseconds(reading.unsynced),
        }
    }
}

/// Writes the lines of a metric of the ledger, if there is one.
///
/// # Errors
///
/// The writer's own error.
pub(crate) fn write_ledger<W: Write>(
    writer: &mut W,
    family: Family,
    metric: LedgerMetric,
    reading: Option<LedgerReading<'_>>,
) -> io::Result<()>
    ensures { OnOk result (Appends (W.contents writer.old) (W.contents writer.new) (ledger_text family metric reading.entry)) }
{
    let Some(reading) = reading else {
        return Ok(());
    };
    let sample = Sample {
        name: family.name,
        suffix: "",
        labels: Labels(None, None),
        value: metric.value(&reading),
    };
    write!(writer, "{family}{sample}")
}
