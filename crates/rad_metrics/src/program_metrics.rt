//! The metrics of the program itself.

ghost use Rattle.std.specs.Prelude.{◌≡◌};
ghost use Rattle.rad_metrics.specs.Metrics.{program_value};

use crate::own_process::ProcessReading;
use crate::value::Value;

/// The version of the program.
pub const VERSION: &str = "0.1.0";

/// What is known of the program at one moment; times are in milliseconds since 1970.
#[derive(Clone, Copy)]
pub struct ProgramReading {
    /// When it started.
    pub started: u64,
    /// When its metrics are collected.
    pub asked: u64,
    /// How many datagrams came from senders that are not clients.
    pub strangers: u64,
    /// What the system tells of its process.
    pub process: ProcessReading,
}

/// A metric of the program.
#[derive(Clone, Copy)]
pub enum ProgramMetric {
    /// 1, with the version as a label.
    BuildInfo,
    Start,
    Report,
    Strangers,
    /// The same as `Start`, by the name that metrics of processes have.
    ProcessStart,
    ProcessResident,
    ProcessDescriptors,
    ProcessCpu,
}

impl ProgramMetric {
    /// Returns the value of the metric.
    pub fn value(self, reading: &ProgramReading) -> Value
        ensures { result ≡ program_value self reading.now }
    {
        match self {
            ProgramMetric::BuildInfo => Value::Count(1),
            ProgramMetric::Start => Value::Milliseconds(reading.started),
            ProgramMetric::Report => Value::Milliseconds(reading.asked),
            ProgramMetric::Strangers => Value::Count(reading.strangers),
            ProgramMetric::ProcessStart => Value::Milliseconds(reading.started),
            ProgramMetric::ProcessResident => Value::Count(reading.process.resident),
            ProgramMetric::ProcessDescriptors => Value::Count(reading.process.descriptors),
            ProgramMetric::ProcessCpu => Value::Milliseconds(reading.process.cpu),
        }
    }
}
