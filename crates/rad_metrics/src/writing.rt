//! The text of all metrics, one family after the other.

use crate::counted::Counted;
use crate::counts::{Counts, word_or_0};
use crate::event::CountedEvent;
use crate::family::Family;
use crate::histogram::{BUCKETS, Histogram};
use crate::home_cells::HomeCell;
use crate::home_metric::{HomeMetric, Reading};
use crate::home_times::Timed;
use crate::ledger_metrics::write_ledger;
use crate::metric::{Metric, metrics};
use crate::program_metrics::{ProgramMetric, ProgramReading, VERSION};
use crate::realm_numbers::{RealmNumbers, realms_of};
use crate::sample::{Label, Labels, Sample, label_of_others};
use crate::socket_numbers::{SocketMetric, SocketReading};
use crate::spool_metrics::{SpoolNumbers, write_spool};
use crate::value::Value;
use ledger_state::LedgerReading;
use rad_desk::Worker;
use rad_realms::{Client, Home, Realm};
use std::io::{self, Write};

/// What is written: what was reported so far, and what was read.
#[derive(Clone, Copy)]
pub(crate) struct Known<'a> {
    pub(crate) clients: &'a [Client],
    pub(crate) homes: &'a [Home],
    pub(crate) counts: &'a Counts,
    pub(crate) realms: &'a [Realm],
    /// The lane of all other realms, if there is one.
    pub(crate) other_lane: Option<u16>,
    pub(crate) realm_numbers: &'a RealmNumbers,
    pub(crate) cells: &'a [HomeCell],
    pub(crate) program: ProgramReading,
    pub(crate) readings: &'a [Reading],
    pub(crate) sockets: &'a [SocketReading],
    pub(crate) ledger: Option<LedgerReading<'a>>,
    pub(crate) spool: Option<SpoolNumbers>,
}

/// The text, and the metric that is added to it.
#[derive(Drop)]
struct Adding<'a> {
    text: &'a mut Vec<u8>,
    family: Family,
}

impl Adding<'_> {
    fn begin(&mut self) -> io::Result<()> {
        let family = self.family;
        write!(self.text, "{family}")
    }

    /// Adds a sample, with this suffix to its name.
    fn add_part(
        &mut self,
        suffix: &'static str,
        labels: Labels<'_>,
        value: Value,
    ) -> io::Result<()> {
        let sample = Sample {
            name: self.family.name,
            suffix,
            labels,
            value,
        };
        write!(self.text, "{sample}")
    }

    /// Adds a sample that has the labels of its owner alone.
    fn add(&mut self, owner: Option<Label<'_>>, value: Value) -> io::Result<()> {
        self.add_part("", Labels(owner, None), value)
    }
}

/// Writes all metrics.
///
/// # Errors
///
/// `OutOfMemory` if memory is refused.
pub(crate) fn write_metrics(text: &mut Vec<u8>, known: &Known<'_>) -> io::Result<()> {
    for family in metrics() {
        write_metric(text, *family, known)?;
    }
    Ok(())
}

fn write_metric(text: &mut Vec<u8>, family: Family, known: &Known<'_>) -> io::Result<()> {
    let to = &mut Adding { text, family };
    match family.metric {
        Metric::Program(metric) => write_program(to, metric, &known.program),
        Metric::Counted(metric) if metric.is_of_clients() => write_clients(to, metric, known),
        Metric::Counted(metric) => write_workers(to, metric, known),
        Metric::Realms => write_realms(to, known),
        Metric::Home(metric) => write_homes(to, metric, known),
        Metric::Timed(timed) => write_times(to, timed, known),
        Metric::Socket(metric) => write_sockets(to, metric, known),
        Metric::Ledger(metric) => write_ledger(to.text, family, metric, known.ledger),
        Metric::LedgerClients => write_ledger_clients(to, known),
        Metric::Spool(metric) => write_spool(to.text, family, metric, known.spool),
    }
}

fn write_program(
    to: &mut Adding<'_>,
    metric: ProgramMetric,
    program: &ProgramReading,
) -> io::Result<()> {
    let label = match metric {
        ProgramMetric::BuildInfo => Some(Label::Version(VERSION)),
        _ => None,
    };
    to.begin()?;
    to.add(label, metric.value(program))
}

/// Writes what a metric counts of the front, and then of the lanes in order. Only a metric that both sides have says of
/// which side it is.
fn write_workers(to: &mut Adding<'_>, metric: Counted, known: &Known<'_>) -> io::Result<()> {
    to.begin()?;
    if metric.is_of_front() {
        let side = metric.is_of_lanes().then_some(Label::Clients);
        write_row(to, metric, side, 0, known.counts)?;
    }
    if metric.is_of_lanes() {
        for (lane, home) in known.homes.iter().enumerate() {
            let owner = Some(Label::Home(lane, home.name()));
            write_row(to, metric, owner, lane.saturating_add(1), known.counts)?;
        }
    }
    Ok(())
}

/// Writes what a metric counts of the clients, in the order of the configuration.
fn write_clients(to: &mut Adding<'_>, metric: Counted, known: &Known<'_>) -> io::Result<()> {
    to.begin()?;
    for (row, client) in known.clients.iter().enumerate() {
        let owner = Some(Label::Client(client.address()));
        write_row(to, metric, owner, row, known.counts)?;
    }
    Ok(())
}

/// Writes what a metric counts in a row, for each of its reasons.
fn write_row(
    to: &mut Adding<'_>,
    metric: Counted,
    owner: Option<Label<'_>>,
    row: usize,
    counts: &Counts,
) -> io::Result<()> {
    for place in 0..metric.width() {
        if let Some(reason) = metric.reason_at(place) {
            let labels = Labels(owner, reason.label());
            let count = counts.get(row, CountedEvent { metric, reason });
            to.add_part("", labels, Value::Count(count))?;
        }
    }
    Ok(())
}

/// Writes how many requests came for each realm, in the order of the configuration, and then, if they lead anywhere, for
/// all other realms.
fn write_realms(to: &mut Adding<'_>, known: &Known<'_>) -> io::Result<()> {
    to.begin()?;
    for (place, realm) in known.realms.iter().enumerate() {
        let lane = realm.lane();
        let before = known.realms.get(..place).unwrap_or(&[]);
        let count = known
            .realm_numbers
            .get(lane, realms_of(before, usize::from(lane)));
        to.add(Some(Label::Realm(realm.name())), Value::Count(count))?;
    }
    match label_of_others(known.other_lane) {
        Some(label) => to.add(Some(label), Value::Count(known.realm_numbers.unlisted())),
        None => Ok(()),
    }
}

/// Writes a metric of each home server of which something was read.
fn write_homes(to: &mut Adding<'_>, metric: HomeMetric, known: &Known<'_>) -> io::Result<()> {
    to.begin()?;
    for (lane, (home, reading)) in known.homes.iter().zip(known.readings).enumerate() {
        let owner = Some(Label::Home(lane, home.name()));
        to.add(owner, metric.value(reading))?;
    }
    Ok(())
}

fn write_times(to: &mut Adding<'_>, timed: Timed, known: &Known<'_>) -> io::Result<()> {
    to.begin()?;
    for (lane, (home, cell)) in known.homes.iter().zip(known.cells).enumerate() {
        let owner = Label::Home(lane, home.name());
        write_histogram(to, owner, cell.times.histogram(timed))?;
    }
    Ok(())
}

/// Writes how often something took no longer than each bound, the sum of all durations, and their number.
fn write_histogram(to: &mut Adding<'_>, owner: Label<'_>, histogram: &Histogram) -> io::Result<()> {
    let mut count = 0_u64;
    for bucket in 0..BUCKETS {
        count = count.saturating_add(histogram.get(bucket));
        let labels = Labels(Some(owner), Some(Label::Bound(bucket)));
        to.add_part("_bucket", labels, Value::Count(count))?;
    }
    let labels = Labels(Some(owner), None);
    let sum = Value::Microseconds(histogram.sum());
    to.add_part("_sum", labels, sum)?;
    to.add_part("_count", labels, Value::Count(count))
}

/// Writes a metric of the sockets, in the order in which they were bound.
fn write_sockets(to: &mut Adding<'_>, metric: SocketMetric, known: &Known<'_>) -> io::Result<()> {
    to.begin()?;
    for socket in known.sockets {
        let labels = socket_labels(known.homes, socket);
        to.add_part("", labels, metric.value(socket))?;
    }
    Ok(())
}

/// Returns the labels of a socket. A lane's socket is labelled by its index, since its port is another one at each
/// start.
fn socket_labels<'a>(homes: &'a [Home], socket: &SocketReading) -> Labels<'a> {
    let (owner, label) = match socket.worker {
        Worker::Front => (Label::Clients, Label::Socket(socket.at)),
        Worker::Lane(lane) => {
            let lane = usize::from(lane);
            let name = match homes.get(lane) {
                Some(home) => home.name(),
                None => "none",
            };
            (Label::Home(lane, name), Label::Port(socket.place))
        }
    };
    Labels(Some(owner), Some(label))
}

/// Writes how many entries of each client are missing from the ledger, if there is one, in the order of the configuration.
fn write_ledger_clients(to: &mut Adding<'_>, known: &Known<'_>) -> io::Result<()> {
    let Some(reading) = known.ledger else {
        return Ok(());
    };
    to.begin()?;
    for (row, client) in known.clients.iter().enumerate() {
        let count = word_or_0(reading.client_dropped.get(row));
        to.add(Some(Label::Client(client.address())), Value::Count(count))?;
    }
    Ok(())
}
