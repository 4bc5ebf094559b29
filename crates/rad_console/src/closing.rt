//! What is left of all lanes when the proxy is closed.

ghost use Rattle.std.specs.Prelude.{◌≡◌, IfErr, IfOk, MatchOption, OnOk};
ghost use Rattle.rad_console.specs.Closing.{outstanding_at, IsKnown, known_count, CountsUntaken, Tells, Closes, LeavesTold};
ghost use Rattle.rad_console.specs.Totals.{count_in_all};

use crate::lines::EndLine;
use block_queue::Fifo;
use rad_desk::{Inlet, LaneEnd, Ledger, Proxy, Report, Rest, tell_left};
use rad_tables::Moment;
use std::alloc::{AllocError, Global};

/// Closes a proxy with its inlets, and returns what is left.
///
/// # Errors
///
/// `AllocError` if a growth is refused.
pub fn close(alloc: Global, proxy: Proxy, inlets: Vec<Inlet>) -> Result<EndLine, AllocError>
    ensures { IfOk result (λ end. Closes proxy inlets.items end) }
{
    match proxy.close(alloc, inlets) {
        Ok(report) => {
            let end = end_of(&report);
            report.discard();
            Ok(end)
        }
        Err(fault) => Err(fault.into()),
    }
}

/// Closes a proxy as [`close`] does, and tells a ledger each request that is left, with its age at this moment.
///
/// # Errors
///
/// As [`close`]. The ledger is told that nothing can be told.
pub fn close_with<L: Ledger>(
    alloc: Global,
    proxy: Proxy,
    inlets: Vec<Inlet>,
    now: Moment,
    ledger: &mut L,
) -> Result<EndLine, AllocError>
    ensures closed { IfOk result (λ end. Closes proxy inlets.items end) }
    ensures left { OnOk result (LeavesTold proxy inlets.items (L.left ledger.old) (L.left ledger.new)) }
    ensures untold { IfErr result (λ _. L.left ledger.new ≡ L.left ledger.old) }
{
    match proxy.close(alloc, inlets) {
        Ok(report) => {
            let end = end_of(&report);
            tell_left(report, now, ledger);
            Ok(end)
        }
        Err(fault) => {
            ledger.leave_untold();
            Err(fault.into())
        }
    }
}

/// Returns the totals of a report: the requests never sent, those outstanding, and the responses that nobody took.
fn end_of(report: &Report) -> EndLine
    ensures { Tells report.now result }
{
    let ends = report.ends.as_slice();
    EndLine {
        queued: report.queued.len(),
        outstanding: count_outstanding(ends),
        untaken: count_untaken(ends),
    }
}

fn count_outstanding(ends: &[LaneEnd]) -> usize
    ensures { result ≡ count_in_all outstanding_at ends.now }
{
    let mut count = 0_usize;
    for end in ends {
        count = count.saturating_add(end.counts.outstanding);
    }
    count
}

fn count_untaken(ends: &[LaneEnd]) -> Option<usize>
    ensures { CountsUntaken ends.now result }
{
    let mut count = 0_usize;
    for end in ends {
        count = count.saturating_add(count_rest(&end.rest)?);
    }
    Some(count)
}

fn count_rest(rest: &Rest) -> Option<usize>
    ensures { MatchOption result (¬ IsKnown rest.now) (λ n. IsKnown rest.now × (n ≡ known_count rest.now)) }
{
    match rest {
        Rest::Known(rest) => Some(rest.as_slice().len()),
        Rest::Unknown => None,
    }
}
