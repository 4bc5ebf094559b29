//! Waiting, at the end, for what the lanes still hold.

use super::working::Service;
use rad_lane::Counts;
use rad_realms::Config;
use std::sync::{Wait, WaitMethods};
use std::thread;
use std::time::{Clock, Duration, Instant};

/// The time between two checks whether the lanes are done, in milliseconds.
const LOOK: u64 = 1;

/// Returns the configuration's `linger`: the longest time that a stop waits for the lanes.
pub(crate) fn linger_of(config: &Config) -> Duration {
    Duration::from_millis(u64::from(config.linger()))
}

/// Waits until all lanes are done and the front took all their responses, until the configuration's `linger` has passed
/// since `drained`, or until the workers are stopped.
pub(crate) fn linger<R: Clock + Wait, G>(service: Service<'_, R, G>, drained: Instant) {
    let most = linger_of(service.config);
    for _ in service.rt.forever() {
        if has_passed(service.rt, drained, most)
            || service.supervisor.is_stopped()
            || are_done(service)
        {
            return;
        }
        thread::sleep(service.rt, Duration::from_millis(LOOK));
    }
}

/// Returns whether at least `most` has passed since `start`. If the clock fails, it has.
pub(crate) fn has_passed(clock: &impl Clock, start: Instant, most: Duration) -> bool {
    match start.elapsed(clock) {
        Ok(passed) => passed >= most,
        Err(_) => true,
    }
}

/// Returns whether all lanes are done and the front took all their responses.
fn are_done<R: Wait, G>(service: Service<'_, R, G>) -> bool {
    for lane in 0..service.proxy.lanes() {
        let taken = service.supervisor.taken(lane);
        let counts = service.proxy.counts(service.rt, lane);
        if !is_done(&counts) || counts.answered != taken {
            return false;
        }
    }
    true
}

/// Returns whether a lane is done: it accepts no new request, and has none queued or outstanding.
fn is_done(counts: &Counts) -> bool {
    counts.draining && counts.queued == 0 && counts.outstanding == 0
}
