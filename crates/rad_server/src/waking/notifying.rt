//! Notifying a worker that sleeps that there is work for it.

use super::apart::Apart;
use super::ring_level::RingLevel;
use mio::{Poll, Token, Waker};
use rad_desk::Worker;
use std::alloc::{AllocError, Global};
use std::io;
use std::sync::Arc;
use std::sync::atomic::{AtomicBool, AtomicU8, Ordering};

/// The worker is looking for work.
const AWAKE: u8 = 0;

/// The worker sleeps, or is about to sleep, and has to be woken.
const ASLEEP: u8 = 1;

/// There is work for the worker, and it need not be notified again.
const NOTIFIED: u8 = 2;

/// The token of a notifier at its poll.
const TOKEN: Token = Token(usize::MAX);

/// What a worker shares with those that have work for it.
#[derive(Drop)]
struct Shared {
    /// One of the three states above.
    state: AtomicU8,
    waker: Waker,
    /// Whether the worker is due: it slept when another one had work for it, and was not woken yet.
    is_due: AtomicBool,
}

/// What a worker alone writes and reads.
#[derive(Drop)]
struct Own {
    /// Whether the worker is busy, so that those that it has work for become due.
    is_busy: AtomicBool,
    /// Whether the worker is behind: a ring that it takes from is more than half full.
    is_behind: AtomicBool,
}

/// Notifies a worker that there is work for it. The waker of its poll is called only if the worker sleeps.
///
/// The worker calls [`Notifier::try_sleep`] before it sleeps, and [`Notifier::set_awake`] before it looks for work. In
/// any other order a notification may be lost.
#[derive(Drop)]
pub struct Notifier {
    shared: Arc<Shared>,
    own: Arc<Apart<Own>>,
}

impl Notifier {
    /// Makes the notifier of a worker that is awake and that sleeps over this poll.
    ///
    /// # Errors
    ///
    /// The system's error, and `OutOfMemory` if memory is refused.
    pub(crate) fn new(alloc: Global, poll: &Poll) -> io::Result<Notifier> {
        let shared = Shared {
            state: AtomicU8::new(AWAKE),
            waker: Waker::new(poll.registry(), TOKEN)?,
            is_due: AtomicBool::new(false),
        };
        let own = Own {
            is_busy: AtomicBool::new(false),
            is_behind: AtomicBool::new(false),
        };
        Ok(Notifier {
            shared: Arc::new(alloc, shared)?,
            own: Arc::new(alloc, Apart::new(own))?,
        })
    }

    /// Returns another notifier of the same worker.
    ///
    /// # Errors
    ///
    /// `AllocError` if memory is refused.
    pub fn share(&self) -> Result<Notifier, AllocError> {
        Ok(Notifier {
            shared: self.shared.clone()?,
            own: self.own.clone()?,
        })
    }

    /// Notifies the worker that there is work for it. If the call of the waker fails, that only delays the worker,
    /// since no sleep is long.
    pub fn notify(&self) {
        if self.is_notified() {
            return;
        }
        if self.shared.state.swap(NOTIFIED, Ordering::SeqCst) == ASLEEP {
            let _ = self.shared.waker.wake();
        }
    }

    /// Returns whether the worker was notified since it last looked for work: it will look for this work too.
    fn is_notified(&self) -> bool {
        self.shared.state.load(Ordering::SeqCst) == NOTIFIED
    }

    /// Tells the worker that there is work for it. If it sleeps, it is not woken, but becomes due. Whoever calls this
    /// calls [`Notifier::notify_if_due`] soon.
    fn notify_later(&self) {
        if self.is_notified() {
            return;
        }
        let found = self
            .shared
            .state
            .compare_exchange(AWAKE, NOTIFIED, Ordering::SeqCst, Ordering::SeqCst);
        if found == Err(ASLEEP) {
            self.shared.is_due.store(true, Ordering::SeqCst);
        }
    }

    pub(crate) fn notify_if_due(&self) {
        let is_due = &self.shared.is_due;
        if is_due.load(Ordering::SeqCst) && is_due.swap(false, Ordering::SeqCst) {
            self.notify();
        }
    }

    fn is_busy(&self) -> bool {
        self.own.value.is_busy.load(Ordering::SeqCst)
    }

    /// Sets whether the worker is busy. Once it is no longer busy, it wakes all that are due.
    pub(crate) fn set_busy(&self, is_busy: bool) {
        self.own.value.is_busy.store(is_busy, Ordering::SeqCst);
    }

    fn set_behind(&self) {
        self.own.value.is_behind.store(true, Ordering::SeqCst);
    }

    /// Returns whether the worker was behind since the last call.
    pub(crate) fn was_behind(&self) -> bool {
        let is_behind = &self.own.value.is_behind;
        is_behind.load(Ordering::SeqCst) && is_behind.swap(false, Ordering::SeqCst)
    }

    /// Marks the worker as asleep and returns `true`, unless it was notified since it was awake.
    pub(crate) fn try_sleep(&self) -> bool {
        self.shared
            .state
            .compare_exchange(AWAKE, ASLEEP, Ordering::SeqCst, Ordering::SeqCst)
            .is_ok()
    }

    /// Marks the worker as awake: it looks for work from now on, and more work has to be notified again.
    pub(crate) fn set_awake(&self) {
        if self.shared.state.load(Ordering::SeqCst) != AWAKE {
            self.shared.state.store(AWAKE, Ordering::SeqCst);
        }
    }
}

/// The notifiers of the workers and of the reader of the commands, as far as they have one.
#[derive(Drop)]
pub struct Notifiers {
    pub front: Option<Notifier>,
    /// Those of the lanes, in order.
    pub lanes: Vec<Notifier>,
    pub reader: Option<Notifier>,
    /// How full the lanes' rings are, in the order of the lanes, if the workers heed it.
    pub(crate) rings: Vec<RingLevel>,
}

impl Notifiers {
    /// Makes it without any notifier.
    pub fn none(alloc: Global) -> Notifiers {
        Notifiers {
            front: None,
            lanes: Vec::new(alloc),
            reader: None,
            rings: Vec::new(alloc),
        }
    }

    /// Notifies a worker, if it has a notifier.
    pub(crate) fn notify(&self, worker: Worker) {
        if let Some(notifier) = self.of(worker) {
            notifier.notify();
        }
    }

    /// Notifies a worker, if it has a notifier, that `by` has work for it. While `by` is busy, a worker that sleeps is
    /// not woken, but becomes due.
    pub(crate) fn notify_for(&self, by: Worker, worker: Worker) {
        let Some(notifier) = self.of(worker) else {
            return;
        };
        match self.of(by) {
            Some(own) if own.is_busy() => notifier.notify_later(),
            _ => notifier.notify(),
        }
    }

    pub(crate) fn set_behind(&self, worker: Worker) {
        if let Some(notifier) = self.of(worker) {
            notifier.set_behind();
        }
    }

    /// Returns the level of a lane's ring, if the workers heed it.
    ///
    /// # Errors
    ///
    /// `AllocError` if memory is refused.
    pub(crate) fn share_ring(&self, lane: usize) -> Result<Option<RingLevel>, AllocError> {
        match self.rings.get(lane) {
            Some(ring) => Ok(Some(ring.share()?)),
            None => Ok(None),
        }
    }

    /// Returns the notifiers of those that a worker has work for: the front has work for all lanes, and each lane for the
    /// front.
    ///
    /// # Errors
    ///
    /// `AllocError` if memory is refused.
    pub(crate) fn others_of(
        &self,
        alloc: Global,
        worker: Worker,
    ) -> Result<Vec<Notifier>, AllocError> {
        let mut others = Vec::new(alloc);
        match worker {
            Worker::Front => {
                for lane in &self.lanes {
                    others.push(lane.share()?)?;
                }
            }
            Worker::Lane(_) => {
                if let Some(front) = &self.front {
                    others.push(front.share()?)?;
                }
            }
        }
        Ok(others)
    }

    fn of(&self, worker: Worker) -> Option<&Notifier> {
        match worker {
            Worker::Front => self.front.as_ref(),
            Worker::Lane(lane) => self.lanes.get(usize::from(lane)),
        }
    }

    /// Notifies all workers and the reader.
    pub(crate) fn notify_all(&self) {
        notify_if_any(&self.front);
        for notifier in &self.lanes {
            notifier.notify();
        }
        notify_if_any(&self.reader);
    }
}

fn notify_if_any(notifier: &Option<Notifier>) {
    if let Some(notifier) = notifier {
        notifier.notify();
    }
}
