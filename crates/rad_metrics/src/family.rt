//! Families of metrics: what precedes the samples of one name.

use crate::metric::Metric;
use std::fmt;

/// The kind of a metric.
#[derive(Clone, Copy)]
pub enum Kind {
    /// It counts from the start of the program.
    Counter,
    /// It is the present state of something.
    Gauge,
    /// It counts how often something took no longer than each of some bounds.
    Histogram,
}

/// The family of a metric. It is printed as the two lines that precede its samples.
#[derive(Clone, Copy)]
pub struct Family {
    pub metric: Metric,
    pub kind: Kind,
    /// The name after the prefix `rad_proxy_`.
    pub name: &'static str,
    /// The help text, as Prometheus shows it.
    pub help: &'static str,
}

impl fmt::Display for Kind {
    ghost use Rattle.std.specs.Prelude.{Some};
    ghost use Rattle.rad_metrics.specs.Families.{kind_text};

    ghost output = { λ kind. Some (kind_text kind) };

    fn fmt<W: fmt::Write>(&self, f: &mut fmt::Formatter<W>) -> fmt::Result {
        f.write_str(match self {
            Kind::Counter => "counter",
            Kind::Gauge => "gauge",
            Kind::Histogram => "histogram",
        })
    }
}

impl fmt::Display for Family {
    ghost use Rattle.std.specs.Prelude.{Some};
    ghost use Rattle.rad_metrics.specs.Families.{head_text};

    ghost output = { λ family. Some (head_text family) };

    #[tactic(auto, unfolding(crate::specs::Families::head_text))]
    fn fmt<W: fmt::Write>(&self, f: &mut fmt::Formatter<W>) -> fmt::Result {
        let (name, help, kind) = (self.name, self.help, self.kind);
        write!(
            f,
            "# HELP rad_proxy_{name} {help}\n# TYPE rad_proxy_{name} {kind}\n"
        )
    }
}
