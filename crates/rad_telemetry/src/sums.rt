//! Logging the sums: what was counted of each worker and each event since the last time.

ghost use Rattle.std.specs.Prelude.{◌≡◌, ◌-◌};
ghost use Rattle.rad_telemetry.specs.Lines.{is_warning};

use crate::last_realm::LastRealm;
use crate::lines::{Sum, SumLine};
use crate::workers::worker_name;
use rad_desk::WorkerReport;
use rad_log::{Level, Log, tell};
use rad_metrics::{Classified, Counted, CountedEvent, Counts, Reason};
use rad_realms::{Config, Dropped, Endpoint};
use std::alloc::{AllocError, Global};
use std::sync::atomic::Ordering;

/// The metrics that are summed up. What is sent is not, nor are home servers that are marked down or up, which are
/// logged when that happens.
const SUMMED: &[Counted] = &[
    Counted::Dropped,
    Counted::Refused,
    Counted::Unheard,
    Counted::SendFaults,
    Counted::ReceiveFaults,
    Counted::Cut,
    Counted::Marked,
];

/// What was summed up so far, and what the lines of the next sums need of the last event of each.
#[derive(Drop)]
pub struct Sums {
    given: Counts,
    /// The other end of the last event: its address, followed by its port.
    peers: Counts,
    /// The most Proxy-States of this proxy's form that one request had since the last sum.
    marks: Counts,
    /// The realm of the last request that was dropped for its realm.
    realm: LastRealm,
}

impl Sums {
    /// Makes the sums of the front and of `lanes` lanes. Nothing is summed up yet.
    ///
    /// # Errors
    ///
    /// `AllocError` if memory is refused.
    pub fn new(alloc: Global, lanes: usize) -> Result<Sums, AllocError> {
        Ok(Sums {
            given: Counts::new(alloc, lanes, 0)?,
            peers: Counts::new(alloc, lanes, 0)?,
            marks: Counts::new(alloc, lanes, 0)?,
            realm: LastRealm::new(),
        })
    }

    /// Keeps what the next sum needs of a report, which is counted after this.
    pub(crate) fn keep(&self, its: &Classified<'_>) {
        let (Some(event), Some(peer)) = (its.event, its.peer) else {
            return;
        };
        if !SUMMED.contains(&event.metric) {
            return;
        }
        self.peers.swap(its.row, event, word_of(peer));
        match *its.report {
            WorkerReport::Marked { marks, .. } => {
                if let Some(most) = self.marks.word(its.row, event) {
                    most.fetch_max(marks, Ordering::SeqCst);
                }
            }
            WorkerReport::Dropped {
                reason: Dropped::NoRealm,
                octets,
                ..
            } => {
                self.realm.keep(octets);
            }
            _ => {}
        }
    }

    /// Logs what was counted since the last call: one line for each worker and each event of which there was any.
    pub(crate) fn log<L: Log>(&self, log: &L, config: &Config, counts: &Counts) {
        let takes_all = config.other_lane().is_some();
        for row in 0..=config.homes().len() {
            let name = worker_name(config, row);
            for metric in SUMMED {
                self.log_metric(log, name, row, *metric, takes_all, counts);
            }
        }
    }

    fn log_metric<L: Log>(
        &self,
        log: &L,
        name: &str,
        row: usize,
        metric: Counted,
        takes_all: bool,
        counts: &Counts,
    ) {
        for place in 0..metric.width() {
            if let Some(reason) = metric.reason_at(place) {
                if let Some(sum) = self.take(row, CountedEvent { metric, reason }, counts) {
                    self.log_sum(log, name, sum, takes_all);
                }
            }
        }
    }

    /// Returns what was counted of an event since the last call, if anything.
    fn take(&self, row: usize, event: CountedEvent, counts: &Counts) -> Option<Sum> {
        let now = counts.get(row, event);
        let count = since(self.given.swap(row, event, now), now);
        let most_marks = self.marks.swap(row, event, 0);
        let last = endpoint_of(self.peers.get(row, event));
        (count > 0).then_some(Sum {
            event,
            count,
            last,
            most_marks,
        })
    }

    /// Logs a sum; after drops for their realms follows the realm of the last one.
    fn log_sum<L: Log>(&self, log: &L, name: &str, sum: Sum, takes_all: bool) {
        let level = if is_warned_of(sum, takes_all) {
            Level::Warn
        } else {
            Level::Info
        };
        let line = SumLine { name, sum };
        match sum.event.reason {
            Reason::Dropped(Dropped::NoRealm) => {
                let realm = &self.realm;
                tell(log, level, &format_args!("{line}{realm}"));
            }
            _ => tell(log, level, &line),
        }
    }
}

/// Returns whether a sum is a warning, given whether all other realms lead to a lane too. Behind one other proxy a request
/// has one Proxy-State of this proxy's form; more of them indicate a loop. Two proxies that send all other realms to each
/// other make one, so there the first is warned of.
fn is_warned_of(sum: Sum, takes_all: bool) -> bool
    ensures { result ≡ is_warning sum takes_all }
{
    match sum.event.metric {
        Counted::Refused | Counted::SendFaults | Counted::ReceiveFaults => true,
        Counted::Marked => takes_all || sum.most_marks > 1,
        _ => false,
    }
}

fn word_of(endpoint: Endpoint) -> u64 {
    let [a, b, c, d] = endpoint.address;
    let [high, low] = endpoint.port.to_be_bytes();
    u64::from_be_bytes([0, 0, a, b, c, d, high, low])
}

fn endpoint_of(word: u64) -> Endpoint {
    let [_, _, a, b, c, d, high, low] = word.to_be_bytes();
    Endpoint {
        address: [a, b, c, d],
        port: u16::from_be_bytes([high, low]),
    }
}

fn since(before: u64, now: u64) -> u64
    ensures { result ≡ now - before }
{
    now.saturating_sub(before)
}
