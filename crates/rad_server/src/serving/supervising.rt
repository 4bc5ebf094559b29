//! The gate of the workers: it stops them, notifies them of work, and counts the responses that lanes add to their rings
//! and that the front takes.

use super::beginning::Beginnings;
use crate::waking::{Notifiers, RingLevel};
use rad_desk::{Asked, Call, Gate, Go, UpReason, Worker, WorkerReport};
use rad_realms::Home;
use std::alloc::{AllocError, Global};
use std::sync::atomic::{AtomicBool, Ordering};
use std::sync::{OnceLock, Wait};

/// What is known of a lane from the workers' reports.
#[derive(Drop)]
struct LaneState {
    /// The responses that the lane's worker added to the ring, and that the front took from it and sent.
    ring: RingLevel,
    /// Whether the home server was last reported as marked down.
    is_down: AtomicBool,
}

/// Supervises the workers, as their gate. It passes each question and report on to another gate. The report that a home
/// server is marked down or up is passed on only if that is a change.
#[derive(Drop)]
pub(crate) struct Supervisor<'a, G> {
    outer: &'a G,
    notifiers: &'a Notifiers,
    /// What is known of each lane, in the order of the lanes.
    lanes: Vec<LaneState>,
    beginnings: Beginnings,
    /// Whether the workers are to stop.
    is_stopped: AtomicBool,
    /// The first worker that ended by itself.
    ended: OnceLock<Worker>,
}

impl<'a, G> Supervisor<'a, G> {
    /// Supervises the workers of the front and of the lanes of these home servers, all of which are up.
    ///
    /// # Errors
    ///
    /// `AllocError` if memory is refused.
    pub(crate) fn new(
        alloc: Global,
        homes: &[Home],
        outer: &'a G,
        notifiers: &'a Notifiers,
    ) -> Result<Supervisor<'a, G>, AllocError> {
        let mut lanes = Vec::with_capacity(alloc, homes.len())?;
        for (lane, home) in homes.iter().enumerate() {
            let ring = match notifiers.share_ring(lane)? {
                Some(ring) => ring,
                None => RingLevel::new(alloc, home.limits().numbers().ring)?,
            };
            let is_down = AtomicBool::new(false);
            lanes.push(LaneState { ring, is_down })?;
        }
        Ok(Supervisor {
            outer,
            notifiers,
            lanes,
            beginnings: Beginnings::new(),
            is_stopped: AtomicBool::new(false),
            ended: OnceLock::new(),
        })
    }

    pub(crate) fn begin<R: Wait>(&self, rt: &R) {
        self.beginnings.add(rt);
    }

    /// Waits until all workers have begun: that of the front, and one for each lane.
    pub(crate) fn wait_for_all<R: Wait>(&self, rt: &R) {
        self.beginnings
            .wait_for(rt, self.lanes.len().saturating_add(1));
    }

    /// Stops all workers before their next call, and notifies them.
    pub(crate) fn stop(&self) {
        self.is_stopped.store(true, Ordering::SeqCst);
        self.notifiers.notify_all();
    }

    pub(crate) fn is_stopped(&self) -> bool {
        self.is_stopped.load(Ordering::SeqCst)
    }

    /// Records that a worker ended. If it was not stopped, it ended by itself, and the others are stopped too; of
    /// several, the first is kept.
    pub(crate) fn end(&self, worker: Worker) {
        if !self.is_stopped() && self.ended.try_set(worker).is_ok() {
            self.stop();
        }
    }

    pub(crate) fn ended(&self) -> Option<Worker> {
        self.ended.get().copied()
    }

    /// Returns how many responses the front took from a lane and sent.
    pub(crate) fn taken(&self, lane: u16) -> u64 {
        match self.lane(lane) {
            Some(state) => state.ring.taken(),
            None => 0,
        }
    }

    fn lane(&self, lane: u16) -> Option<&LaneState> {
        self.lanes.get(usize::from(lane))
    }

    fn lane_of(&self, worker: Worker) -> Option<&LaneState> {
        match worker {
            Worker::Front => None,
            Worker::Lane(lane) => self.lane(lane),
        }
    }

    /// Counts a response that the front took from a lane and sent. If the ring was full, it notifies the lane's worker,
    /// which may wait for a place. If the ring still is more than half full, the front is behind.
    fn took(&self, lane: u16) {
        let Some(state) = self.lane(lane) else {
            return;
        };
        let taken = state.ring.count_taken();
        if taken.was_full {
            self.notifiers.notify_for(Worker::Front, Worker::Lane(lane));
        }
        if taken.is_crowded {
            self.notifiers.set_behind(Worker::Front);
        }
    }
}

impl<G: Gate> Supervisor<'_, G> {
    /// Records that a worker's home server is marked down or up, and reports that to the outer gate if it is a change.
    fn set_down(&self, worker: Worker, is_down: bool, report: &WorkerReport<'_>) {
        if let Some(state) = self.lane_of(worker) {
            if state.is_down.swap(is_down, Ordering::SeqCst) != is_down {
                self.outer.report(worker, report);
            }
        }
    }

    /// Records that a worker's home server is marked down or up, and notifies that worker. It has more to do then:
    /// marking down was all that its step did, and so was marking up, unless an answer did that.
    fn home_changed(&self, worker: Worker, is_down: bool, report: &WorkerReport<'_>) {
        self.set_down(worker, is_down, report);
        self.notifiers.notify(worker);
    }

    /// Records an answer, which marks a home server up without a step, and notifies the front. The worker does not know
    /// whether this answer did so. It did, if the home server was last reported as marked down.
    fn answered(&self, worker: Worker) {
        self.set_down(worker, false, &WorkerReport::WentUp(UpReason::Answered));
        if let Some(state) = self.lane_of(worker) {
            state.ring.count_answered();
        }
        self.notifiers.notify_for(worker, Worker::Front);
    }
}

impl<G: Gate> Gate for Supervisor<'_, G> {
    fn before(&self, worker: Worker, call: Call) -> Go {
        if self.outer.before(worker, call) == Go::Stop || self.is_stopped() {
            return Go::Stop;
        }
        Go::On
    }

    fn after(&self, worker: Worker, call: Call) {
        self.outer.after(worker, call);
    }

    fn asks(&self, lane: u16) -> Asked {
        self.outer.asks(lane)
    }

    /// A response that a lane's worker added is counted before the front is notified, so the front looks for it.
    fn may_have_response(&self, lane: u16) -> bool {
        match self.lane(lane) {
            Some(state) => !state.ring.is_empty(),
            None => true,
        }
    }

    /// Does what an event asks for, and passes the report on.
    fn report(&self, worker: Worker, report: &WorkerReport<'_>) {
        match *report {
            WorkerReport::WentDown(_) => return self.home_changed(worker, true, report),
            WorkerReport::WentUp(_) => return self.home_changed(worker, false, report),
            WorkerReport::Answered { .. } => self.answered(worker),
            WorkerReport::Accepted { lane, .. } => {
                self.notifiers.notify_for(worker, Worker::Lane(lane));
            }
            WorkerReport::Took { lane, .. } => self.took(lane),
            _ => {}
        }
        self.outer.report(worker, report);
    }
}
