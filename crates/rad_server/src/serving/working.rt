//! The work of each worker in its thread.

ghost use Rattle.std.specs.Prelude.{IsSome};
ghost use Rattle.rad_desk.specs.Calls.{Passes};
ghost use Rattle.rad_desk.specs.Once.{UntilStopped, WorksInFront, terms_of};
ghost use Rattle.rad_desk.specs.HandOver.{HandsOver};
ghost use Rattle.rad_desk.specs.Working.{WorksForHome, WorksOnLane};

use super::supervising::Supervisor;
use rad_desk::{
    Entrance, Gate, Inlet, Ledger, Memory, Proxy, Wire, Worker, front_worker_with, lane_worker,
};
use rad_realms::{Config, Home};
use std::alloc::{AllocError, Global};
use std::sync::Wait;

/// What all workers and the reader of the commands share.
pub(crate) struct Service<'a, R, G> {
    pub(crate) rt: &'a R,
    pub(crate) alloc: Global,
    pub(crate) config: &'a Config,
    pub(crate) proxy: &'a Proxy,
    pub(crate) supervisor: &'a Supervisor<'a, G>,
}

impl<R, G> Clone for Service<'_, R, G> {
    fn clone(&self) -> Result<Self, AllocError> {
        Ok(*self)
    }
}

impl<R, G> Copy for Service<'_, R, G> {}

impl<R: Wait, G: Gate> Service<'_, R, G> {
    /// Serves the clients until the worker is stopped, and hands each response over to the ledger. The list of the entrance
    /// tells what each datagram led to that passed the checks.
    pub(crate) fn work_in_front<W: Wire, M: Memory, L: Ledger, E: Entrance>(
        self,
        inlets: &mut [Inlet],
        wire: &mut W,
        memory: &M,
        ledger: &mut L,
        entrance: &mut E,
    )
        requires { IsSome (W.log wire.old) }
        ensures works { Passes (WorksInFront (terms_of self.entry.config.now (M.remembered memory.now)) inlets.old inlets.new) (W.log wire.old) (W.log wire.new) }
        ensures hands_over { Passes (UntilStopped (terms_of self.entry.config.now (M.remembered memory.now)) (HandsOver (terms_of self.entry.config.now (M.remembered memory.now)) inlets.old inlets.new (E.outcomes entrance.old) (E.outcomes entrance.new) (W.log wire.old) (L.kept ledger.old) (L.kept ledger.new))) (W.log wire.old) (W.log wire.new) }
    {
        self.supervisor.begin(self.rt);
        let _ = front_worker_with(
            self.rt,
            self.alloc,
            self.proxy,
            self.config,
            memory,
            inlets,
            wire,
            ledger,
            entrance,
            self.supervisor,
            u64::MAX,
        );
        self.supervisor.end(Worker::Front);
    }

    /// Serves a lane until the worker is stopped.
    pub(crate) fn work_on_lane<W: Wire>(self, lane: u16, wire: &mut W)
        requires { IsSome (W.log wire.old) }
        ensures { Passes (WorksOnLane self.entry.config.now lane) (W.log wire.old) (W.log wire.new) }
    {
        self.supervisor.begin(self.rt);
        if let Some(home) = self.config.homes().get(usize::from(lane)) {
            self.work_for(lane, home, wire);
        }
        self.supervisor.end(Worker::Lane(lane));
    }

    fn work_for<W: Wire>(self, lane: u16, home: &Home, wire: &mut W)
        ensures { Passes (WorksForHome lane home.now) (W.log wire.old) (W.log wire.new) }
    {
        let Self {
            rt,
            alloc,
            proxy,
            supervisor,
            ..
        } = self;
        if lane < proxy.lanes() {
            let _ = lane_worker(rt, alloc, proxy, lane, home, wire, supervisor, u64::MAX);
        }
    }
}
