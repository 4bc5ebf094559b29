//! A list of runs over one spool, on a disk in memory. Each run but the last ends by a stop or by a crash at any turn, after which the
//! disk has lost what was not synced, or torn it. What was synced is compared with what the next run reads, offers and answers.

use crate::history::{Ended, History};
use crate::process::{Process, Spool, gate_of};
use crate::rules::Rule;
use crate::run::{Outcome, Run, Served, begin};
use crate::trace::Stage;
use memory_disk::{MemoryDisk, MemoryFolder};
use rad_desk::{Inlet, Proxy, Worker, open};
use rad_realms::Config;
use spool_files::LocalAddress;
use spool_writer::{SpoolPlace, open_spool};
use std::alloc::{AllocError, Global};
use std::sync::{Arc, Wait};

/// All runs of a seed over one spool.
#[derive(Drop)]
pub struct Life<'a> {
    /// What is outside of the process. Its books stay empty: here they only tell which lane a request leads to.
    pub outside: Run<'a>,
    pub folder: Arc<MemoryFolder>,
    pub history: History,
    /// How many octets the spool may have.
    limit: u64,
    pub crashes: u64,
}

/// Runs the list of runs of a seed.
pub fn live(rt: &impl Wait, alloc: Global, seed: u64) -> Outcome {
    let stage = Stage::new(alloc);
    match begin_life(alloc, &stage, seed) {
        Ok(mut life) => life.outcome(rt),
        Err(rule) => Outcome {
            turns: 0,
            crashes: 0,
            broken: Some(rule),
        },
    }
}

fn begin_life(alloc: Global, stage: &Stage, seed: u64) -> Result<Life<'_>, Rule> {
    let mut outside = begin(alloc, stage, seed)?;
    let limit = if outside.chance.is_one_in(2) {
        1 << 34
    } else {
        outside.chance.between(20_000, 80_000)
    };
    outside.lengthen_spans();
    let history = History::new(alloc, &outside.setting)?;
    Ok(Life {
        outside,
        folder: MemoryFolder::new(alloc)?,
        history,
        limit,
        crashes: 0,
    })
}

impl<'a> Life<'a> {
    fn outcome(&mut self, rt: &impl Wait) -> Outcome {
        let broken = self.run_all(rt).err();
        Outcome {
            turns: self.outside.turns,
            crashes: self.crashes,
            broken,
        }
    }

    /// Has all runs follow one another. After the last one another start finds what it left.
    fn run_all(&mut self, rt: &impl Wait) -> Result<(), Rule> {
        let config = self.outside.config()?;
        let runs = self.outside.chance.between(2, 5);
        let mut ended = Ended::InOrder(0);
        for run in 1..=runs {
            ended = self.run_once(rt, &config, run, ended, run == runs)?;
        }
        let spool = self.open(&config, runs.saturating_add(1))?;
        self.compare_start(runs.saturating_add(1), ended, &spool)
    }

    /// Opens the spool for a run. At times the disk fails at first, so that the run does not begin.
    fn open(&mut self, config: &Config, run: u64) -> Result<Spool<'a>, Rule> {
        if self.outside.chance.is_one_in(6) {
            self.folder.stop_after(self.outside.chance.below(3));
            let failed = self.try_open(config, run)?;
            self.folder.go_on();
            drop(failed);
        }
        match self.try_open(config, run)? {
            Some(spool) => Ok(spool),
            None => Err(Rule::OPENS),
        }
    }

    /// Opens the spool for a run, if the disk does not fail.
    fn try_open(&self, config: &Config, run: u64) -> Result<Option<Spool<'a>>, Rule> {
        let alloc = self.outside.alloc;
        let disk = MemoryDisk::new(&self.folder)?;
        let place = SpoolPlace {
            folder: String::new(alloc),
            limit: self.limit,
        };
        let mut ours = Vec::new(alloc);
        ours.push(LocalAddress {
            address: [127, 0, 0, 1],
            port: 1813,
        })?;
        let stage = self.outside.stage;
        Ok(open_spool(&stage.clock, alloc, disk, place, config, run, ours).ok())
    }

    /// Compares what a start finds.
    fn compare_start(&mut self, run: u64, ended: Ended, spool: &Spool<'a>) -> Result<(), Rule> {
        Rule::OPENS.unless(spool.faults.is_empty())?;
        self.outside.network.world.begins_run();
        let (requests, answers) = (spool.requests.as_slice(), spool.answers.as_slice());
        let now = self.outside.now();
        self.history.start(run, ended, requests, answers, now)
    }

    /// Has a run begin and end, and returns how it ended.
    fn run_once(
        &mut self,
        rt: &impl Wait,
        config: &Config,
        run: u64,
        ended: Ended,
        is_last: bool,
    ) -> Result<Ended, Rule> {
        let spool = self.open(config, run)?;
        self.compare_start(run, ended, &spool)?;
        for _ in 0..self.outside.chance.below(12) {
            self.outside.have_nas_send()?;
        }
        match open(self.outside.alloc, config) {
            Ok((proxy, inlets)) => self.serve(rt, config, spool, proxy, inlets, is_last),
            Err(_) => Err(Rule::MEMORY),
        }
    }

    /// Has a proxy serve over a spool.
    fn serve(
        &mut self,
        rt: &impl Wait,
        config: &Config,
        spool: Spool<'a>,
        proxy: Proxy,
        inlets: Vec<Inlet>,
        is_last: bool,
    ) -> Result<Ended, Rule> {
        let mut inlets = inlets;
        let served = Served {
            config,
            proxy: &proxy,
        };
        let ended = self.work(rt, served, spool, inlets.as_mut_slice(), is_last);
        let closed = self.close(proxy, inlets);
        let ended = ended?;
        closed?;
        Ok(ended)
    }

    /// Closes a proxy, and compares what is left of it.
    fn close(&self, proxy: Proxy, inlets: Vec<Inlet>) -> Result<(), Rule> {
        match proxy.close(self.outside.alloc, inlets) {
            Ok(report) => {
                let compared = self.history.compare_left(&report);
                report.discard();
                compared
            }
            Err(fault) => Err(AllocError::from(fault).into()),
        }
    }

    fn work(
        &mut self,
        rt: &impl Wait,
        served: Served<'_>,
        spool: Spool<'a>,
        inlets: &mut [Inlet],
        is_last: bool,
    ) -> Result<Ended, Rule> {
        let stage = self.outside.stage;
        let notes = Arc::try_clone(&spool.notes)?;
        let gate = gate_of(stage, Worker::Front, &notes, None);
        let mut process = Process::new(
            stage,
            self.outside.alloc,
            served.config,
            &gate,
            &notes,
            spool,
        )?;
        self.work_all(rt, served, &mut process, inlets, is_last)
    }
}
