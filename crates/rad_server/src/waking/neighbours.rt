//! The other workers that a worker has work for, and when it wakes them.

use super::notifying::Notifier;

/// The most datagrams that a worker receives in a row before it wakes the others.
const RECEIVES: u32 = 8;

/// The other workers that a worker has work for.
///
/// A worker is busy while it receives one datagram after another and does not sleep in between. It then does not wake
/// another worker for each datagram: one that sleeps becomes due. The worker wakes all that are due at the next receive
/// that finds nothing, and after [`RECEIVES`] datagrams.
#[derive(Drop)]
pub(crate) struct Neighbours {
    own: Notifier,
    others: Vec<Notifier>,
    /// The number of datagrams received in a row since the others were last woken. The worker is busy if it is above 0.
    run: u32,
}

impl Neighbours {
    /// Makes it for the worker that has this notifier, with those of the others.
    pub(crate) fn new(own: Notifier, others: Vec<Notifier>) -> Neighbours {
        Neighbours {
            own,
            others,
            run: 0,
        }
    }

    /// Records that a datagram was received without a sleep before it.
    pub(crate) fn went_on(&mut self) {
        if self.run == 0 {
            self.own.set_busy(true);
        }
        if self.run >= RECEIVES {
            self.run = 0;
            self.wake_each();
        }
        self.run = self.run.saturating_add(1);
    }

    /// Records that nothing was received: the worker is no longer busy, and wakes the others.
    pub(crate) fn paused(&mut self) {
        if self.run > 0 {
            self.run = 0;
            self.own.set_busy(false);
            self.wake_each();
        }
    }

    fn wake_each(&self) {
        for other in &self.others {
            other.notify_if_due();
        }
    }
}
