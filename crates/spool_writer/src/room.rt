//! How the front waits for room in a ring.

ghost use Rattle.rtrb.specs.Ring.{ProducerLooked};

use crate::parcel::Parcel;
use crate::state::SpoolState;
use rtrb::Producer;
use std::alloc::Global;
use std::thread;
use std::time::{Clock, Duration, Instant};

/// How many milliseconds the front waits at most.
const LONGEST: u64 = 1000;

/// How many milliseconds pass between two looks.
const LOOK: u64 = 1;

/// Waits until a ring has room, for a second at most: unless the disk fails, or the wait before was in vain and the thread took
/// nothing since.
pub(crate) fn wait_for_room<R: Clock>(
    ring: &mut Producer<Parcel, Global>,
    clock: &R,
    state: &SpoolState,
)
    ensures { ProducerLooked ring.old ring.new }
{
    if !ring.is_full() || !state.may_wait() {
        return;
    }
    let since = Instant::now(clock).ok();
    for _ in 0..LONGEST {
        thread::sleep(clock, Duration::from_millis(LOOK));
        if !ring.is_full() {
            return;
        }
        if !state.may_wait() || is_over(clock, since) {
            break;
        }
    }
    state.set_in_vain();
}

/// Returns whether the longest wait from this moment on is over.
fn is_over<R: Clock>(clock: &R, since: Option<Instant>) -> bool {
    match since {
        Some(since) => match since.elapsed(clock) {
            Ok(passed) => passed >= Duration::from_millis(LONGEST),
            Err(_) => true,
        },
        None => true,
    }
}
