//! A process of a list of runs: what it has of its spool, and the calls of its workers.

use crate::clock::VirtualClock;
use crate::rules::Rule;
use crate::run::{Served, work_lane};
use crate::trace::{Stage, TraceGate, TraceWire};
use crate::witness::Witness;
use memory_disk::MemoryDisk;
use rad_desk::{Inlet, ResumedWire, Tally, Worker, front_worker_with};
use rad_realms::Config;
use spool_writer::{
    EarlierAnswers, OfferNotes, Offers, OpenedSpool, SpoolInlet, SpoolLedger, SpoolSession,
    SpoolState,
};
use std::alloc::Global;
use std::cell::Cell;
use std::sync::{Arc, Wait};

/// The spool of a run, over a disk in memory.
pub type Spool<'a> = OpenedSpool<'a, VirtualClock, MemoryDisk>;

type FrontWire<'a> = ResumedWire<'a, TraceWire<'a>, Offers<'a, VirtualClock>, TraceGate<'a>>;

/// What a process has beside its lanes.
#[derive(Drop)]
pub struct Process<'a> {
    stage: &'a Stage,
    notes: &'a OfferNotes,
    gate: &'a TraceGate<'a>,
    wire: FrontWire<'a>,
    memory: EarlierAnswers<'a, VirtualClock>,
    ledger: SpoolLedger<'a, VirtualClock, Witness<'a>>,
    entrance: SpoolInlet<'a, VirtualClock>,
    session: SpoolSession<'a, VirtualClock, MemoryDisk>,
    state: Arc<SpoolState>,
}

/// Returns the gate of a worker over a spool, which stops it after this many calls, if after any.
pub fn gate_of<'a>(
    stage: &'a Stage,
    worker: Worker,
    notes: &'a OfferNotes,
    calls: Option<u32>,
) -> TraceGate<'a> {
    TraceGate {
        stage,
        worker,
        calls: Cell::new(calls),
        notes: Some(notes),
    }
}

impl<'a> Process<'a> {
    /// Makes the process that an opened spool is for.
    pub fn new(
        stage: &'a Stage,
        alloc: Global,
        config: &'a Config,
        gate: &'a TraceGate<'a>,
        notes: &'a OfferNotes,
        spool: Spool<'a>,
    ) -> Result<Process<'a>, Rule> {
        let OpenedSpool {
            inlet,
            responses,
            writer,
            disk,
            state,
            notes: shared,
            requests,
            answers,
            faults,
        } = spool;
        drop(faults);
        let clock = &stage.clock;
        let (offers, unfit) = Offers::new(clock, alloc, config, requests, shared)?;
        drop(unfit);
        let memory = EarlierAnswers::new(clock, alloc, config, answers)?;
        Ok(Process {
            stage,
            notes,
            gate,
            wire: ResumedWire::new(TraceWire { stage }, offers, gate),
            memory,
            ledger: SpoolLedger::new(responses, Witness { stage }),
            entrance: inlet,
            session: SpoolSession::new(clock, alloc, writer, disk),
            state,
        })
    }

    /// Calls the front for `turns` turns, which its gate stops after this many calls, if after any.
    pub fn work_front(
        &mut self,
        rt: &impl Wait,
        alloc: Global,
        served: Served<'_>,
        inlets: &mut [Inlet],
        turns: u64,
        calls: Option<u32>,
    ) -> Tally {
        self.gate.calls.set(calls);
        front_worker_with(
            rt,
            alloc,
            served.proxy,
            served.config,
            &self.memory,
            inlets,
            &mut self.wire,
            &mut self.ledger,
            &mut self.entrance,
            self.gate,
            turns,
        )
    }

    /// Calls the worker of a lane for `turns` turns, which its gate stops after this many calls, if after any.
    pub fn work_lane(
        &mut self,
        rt: &impl Wait,
        alloc: Global,
        served: Served<'_>,
        lane: u16,
        turns: u64,
        calls: Option<u32>,
    ) -> Option<Tally> {
        let mut wire = TraceWire { stage: self.stage };
        let gate = gate_of(self.stage, Worker::Lane(lane), self.notes, calls);
        work_lane(rt, alloc, served, lane, &mut wire, &gate, turns)
    }

    /// Has the spool's thread do a round, and returns whether it failed.
    pub fn do_round(&mut self) -> bool {
        self.session.do_round();
        self.state.reading(0).is_failing
    }

    /// Returns how many requests are open that are not on disk.
    pub fn unsynced(&self) -> u64 {
        self.state.reading(0).unsynced
    }

    /// Returns how many requests wait for their lanes.
    pub fn waiting(&self) -> u64 {
        self.notes.waiting()
    }
}
