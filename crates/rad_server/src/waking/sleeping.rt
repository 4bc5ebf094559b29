//! The sleep of a worker.

use super::notifying::Notifier;
use mio::{Events, Poll};
use std::alloc::{AllocError, Global};
use std::io;
use std::net::Net;
use std::time::Duration;

/// The longest sleep, in milliseconds.
pub(crate) const SLEEP: u64 = 20;

/// The most events that one sleep returns: those of a lane's sockets and of its notifier. The next sleep, which then
/// ends at once, returns the others.
const EVENTS: usize = 8;

/// What a worker sleeps over.
#[derive(Drop)]
pub(crate) struct Sleeper {
    pub(crate) poll: Poll,
    pub(crate) events: Events<Global>,
    pub(crate) notifier: Notifier,
}

impl Sleeper {
    /// Makes it without a registered socket.
    ///
    /// # Errors
    ///
    /// The system's error, and `OutOfMemory` if memory is refused.
    pub(crate) fn new(net: &impl Net, alloc: Global) -> io::Result<Sleeper> {
        let poll = Poll::new(net)?;
        let notifier = Notifier::new(alloc, &poll)?;
        let events = Events::with_capacity(alloc, EVENTS)?;
        Ok(Sleeper {
            poll,
            events,
            notifier,
        })
    }

    /// Returns a notifier that ends a sleep.
    ///
    /// # Errors
    ///
    /// `AllocError` if memory is refused.
    pub(crate) fn notifier(&self) -> Result<Notifier, AllocError> {
        self.notifier.share()
    }

    /// Sleeps until a datagram arrives, the worker is notified, or so many milliseconds have passed, of which more than
    /// [`SLEEP`] do not count. Returns whether the system allowed it.
    pub(crate) fn sleep(&mut self, milliseconds: u64) -> bool {
        let longest = Duration::from_millis(milliseconds.min(SLEEP));
        self.poll.poll(&mut self.events, Some(longest)).is_ok()
    }
}
