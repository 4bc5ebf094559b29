//! The run of one seed: which worker is called when, what arrives and what fails, and the comparison after each call.

use crate::book::Book;
use crate::chance::Chance;
use crate::ending::compare_end;
use crate::events::TraceEvent;
use crate::front_turn::Books;
use crate::lane_turn::lane_turn;
use crate::nases::{Nases, spoil};
use crate::network::Network;
use crate::planning::Plan;
use crate::rules::Rule;
use crate::setting::Setting;
use crate::trace::{Arrival, NextCall, Stage, TraceGate, TraceWire};
use crate::walk::Walk;
use rad_desk::{Inlet, Proxy, Tally, Worker, front_worker, lane_worker, open};
use rad_realms::{Config, read_config};
use std::alloc::{AllocError, Global};
use std::cell::Cell;
use std::sync::Wait;

/// The result of a run.
#[derive(Clone, Copy)]
pub struct Outcome {
    /// The number of turns.
    pub turns: u64,
    /// The number of crashes.
    pub crashes: u64,
    /// The rule that was broken in the last of them, if any.
    pub broken: Option<Rule>,
}

/// The proxy of a run, with its configuration.
#[derive(Clone, Copy)]
pub struct Served<'a> {
    pub config: &'a Config,
    pub proxy: &'a Proxy,
}

/// Runs the worker of a lane for `turns` turns. Returns `None` if there is no such lane.
pub fn work_lane(
    rt: &impl Wait,
    alloc: Global,
    served: Served<'_>,
    lane: u16,
    wire: &mut TraceWire<'_>,
    gate: &TraceGate<'_>,
    turns: u64,
) -> Option<Tally> {
    let Served { config, proxy } = served;
    let home = config.homes().get(usize::from(lane))?;
    if lane >= proxy.lanes() {
        return None;
    }
    Some(lane_worker(rt, alloc, proxy, lane, home, wire, gate, turns))
}

/// A run in progress, without its proxy.
#[derive(Drop)]
pub struct Run<'a> {
    pub alloc: Global,
    pub stage: &'a Stage,
    pub chance: Chance,
    pub setting: Setting,
    pub books: Books,
    nases: Nases,
    pub network: Network,
    pub turns: u64,
}

/// Runs a seed.
pub fn run_seed(rt: &impl Wait, alloc: Global, seed: u64) -> Outcome {
    let stage = Stage::new(alloc);
    match begin(alloc, &stage, seed) {
        Ok(mut run) => run.outcome(rt),
        Err(rule) => Outcome {
            turns: 0,
            crashes: 0,
            broken: Some(rule),
        },
    }
}

/// Returns the run of a seed, in which nothing happened yet.
pub fn begin(alloc: Global, stage: &Stage, seed: u64) -> Result<Run<'_>, Rule> {
    let mut chance = Chance::new(seed);
    let setting = Setting::draw(alloc, &mut chance)?;
    let books = books_of(alloc, &setting)?;
    let network = Network::new(alloc, &setting)?;
    Ok(Run {
        alloc,
        stage,
        chance,
        setting,
        books,
        nases: Nases::new(alloc),
        network,
        turns: 0,
    })
}

/// Returns empty books for all lanes.
fn books_of(alloc: Global, setting: &Setting) -> Result<Books, Rule> {
    let mut books = Vec::new(alloc);
    for (lane, home) in setting.homes.as_slice().iter().enumerate() {
        books.push(Book::new(alloc, (lane & 0xffff) as u16, home))?;
    }
    let default = if setting.has_default { Some(0) } else { None };
    let other = setting.other.map(usize::from);
    Ok(Books {
        books,
        default,
        other,
    })
}

fn close(alloc: Global, proxy: Proxy, inlets: Vec<Inlet>, books: &[Book]) -> Result<(), Rule> {
    match proxy.close(alloc, inlets) {
        Ok(mut report) => {
            let compared = compare_end(&mut report, books);
            report.discard();
            compared
        }
        Err(fault) => Err(AllocError::from(fault).into()),
    }
}

impl Run<'_> {
    fn outcome(&mut self, rt: &impl Wait) -> Outcome {
        let broken = self.serve_text(rt).err();
        Outcome {
            turns: self.turns,
            crashes: 0,
            broken,
        }
    }

    /// Runs a proxy with the setting's configuration.
    fn serve_text(&mut self, rt: &impl Wait) -> Result<(), Rule> {
        let config = self.config()?;
        self.serve(rt, &config)
    }

    /// Returns the configuration that the setting's text describes.
    pub fn config(&self) -> Result<Config, Rule> {
        let setting = &self.setting;
        let text = format!(in self.alloc; "{setting}")?;
        match read_config(self.alloc, text.as_str()) {
            Ok(config) => Ok(config),
            Err(_) => Err(Rule::CONFIGURATION),
        }
    }

    /// Runs a proxy with a configuration.
    fn serve(&mut self, rt: &impl Wait, config: &Config) -> Result<(), Rule> {
        match open(self.alloc, config) {
            Ok((proxy, inlets)) => self.run_proxy(rt, config, proxy, inlets),
            Err(_) => Err(Rule::MEMORY),
        }
    }

    /// Calls the workers, and closes the proxy.
    fn run_proxy(
        &mut self,
        rt: &impl Wait,
        config: &Config,
        proxy: Proxy,
        inlets: Vec<Inlet>,
    ) -> Result<(), Rule> {
        let mut inlets = inlets;
        let served = Served {
            config,
            proxy: &proxy,
        };
        let went = self.go(rt, served, inlets.as_mut_slice());
        let closed = close(self.alloc, proxy, inlets, self.books.books.as_slice());
        went?;
        closed
    }

    fn go(&mut self, rt: &impl Wait, served: Served<'_>, inlets: &mut [Inlet]) -> Result<(), Rule> {
        for _ in 0..self.setting.calls {
            self.step(rt, served, inlets)?;
        }
        self.settle(rt, served, inlets)
    }

    /// Has something happen outside the workers, by chance, and then calls one worker.
    fn step(
        &mut self,
        rt: &impl Wait,
        served: Served<'_>,
        inlets: &mut [Inlet],
    ) -> Result<(), Rule> {
        self.happen()?;
        if self.chance.strikes(self.setting.drains) {
            self.drain(rt, served.proxy)?;
        }
        let plan = self.plan();
        self.play(rt, served, inlets, plan)
    }

    /// Has a NAS send something, a datagram come late to its home server, and a home server die or come back, by chance.
    pub fn happen(&mut self) -> Result<(), Rule> {
        let sends = if self.setting.is_hurried { 1 } else { 3 };
        if self.chance.is_one_in(sends) {
            self.have_nas_send()?;
        }
        if self.chance.is_one_in(20) {
            let now = self.now();
            self.network
                .deliver_late(&mut self.chance, &self.setting, now)?;
        }
        if self.chance.is_one_in(40) {
            self.network.turn_over(&mut self.chance);
        }
        Ok(())
    }

    /// Has half of the home servers remember their answers for longer than most runs.
    pub fn lengthen_spans(&mut self) {
        self.setting.lengthen_spans(&mut self.chance);
    }

    pub fn have_nas_send(&mut self) -> Result<(), Rule> {
        let mut mail = self.nases.send(&mut self.chance, &self.setting)?;
        mail.socket = if self.chance.is_one_in(3) { 2 } else { 0 };
        self.network.world.asks(&mail)?;
        spoil(&mut mail, &mut self.chance)?;
        let now = self.now();
        self.network
            .carry(&mut self.chance, &self.setting, now, None, mail)
    }

    fn drain(&mut self, rt: &impl Wait, proxy: &Proxy) -> Result<(), Rule> {
        let place = self.chance.below(self.books.books.len() as u64) as usize;
        match self.books.books.as_mut_slice().get_mut(place) {
            Some(book) if book.lane < proxy.lanes() => {
                Rule::DRAIN.unless(proxy.drain(rt, book.lane) == book.drain())
            }
            _ => Err(Rule::DRAIN),
        }
    }

    /// Calls a worker, and compares what it did, and the counts of all lanes.
    pub fn play(
        &mut self,
        rt: &impl Wait,
        served: Served<'_>,
        inlets: &mut [Inlet],
        plan: Plan,
    ) -> Result<(), Rule> {
        self.call(rt, served, inlets, plan)?;
        compare_counts(rt, served.proxy, self.books.books.as_slice())
    }

    fn call(
        &mut self,
        rt: &impl Wait,
        served: Served<'_>,
        inlets: &mut [Inlet],
        plan: Plan,
    ) -> Result<(), Rule> {
        let (lane, turns) = (plan.lane, plan.turns);
        let tally = self.work(rt, served, inlets, plan);
        self.give_back(lane)?;
        match (self.stage.trace.take(), tally) {
            (Some(events), Some(tally)) => self.follow(lane, turns, events.as_slice(), tally),
            _ => Err(Rule::MEMORY),
        }
    }

    /// Puts what a worker did not receive in its last call on its way again.
    pub fn give_back(&mut self, lane: Option<u16>) -> Result<(), Rule> {
        let now = self.now();
        match self.stage.take_arrivals() {
            Some(arrivals) => self.network.give_back(arrivals, now, lane),
            None => Ok(()),
        }
    }

    /// Has this arrive in the next call of a worker, whose clock is so many milliseconds behind.
    pub fn prepare(&mut self, arrivals: Vec<Arrival>, lag: u64) {
        let call = NextCall {
            lag,
            chance: Chance::new(self.chance.draw()),
            faults: self.setting.faults,
        };
        self.stage.prepare(call, arrivals);
    }

    /// Returns the moment, in milliseconds since the beginning.
    pub fn now(&self) -> u64 {
        self.stage.clock.passed()
    }

    /// Compares what a worker did with the world outside and with the rules, and delivers what it sent to the home servers.
    fn follow(
        &mut self,
        lane: Option<u16>,
        turns: u64,
        events: &[TraceEvent],
        tally: Tally,
    ) -> Result<(), Rule> {
        self.show(lane, events)?;
        self.compare(lane, turns, events, tally)?;
        self.react(lane, events)
    }

    /// Runs a worker. Returns its tally, if there is such a worker.
    fn work(
        &mut self,
        rt: &impl Wait,
        served: Served<'_>,
        inlets: &mut [Inlet],
        plan: Plan,
    ) -> Option<Tally> {
        let Plan {
            lane,
            turns,
            arrivals,
            calls,
            lag,
        } = plan;
        self.prepare(arrivals, lag);
        let mut wire = TraceWire { stage: self.stage };
        let gate = TraceGate {
            stage: self.stage,
            worker: worker_of(lane),
            calls: Cell::new(calls),
            notes: None,
        };
        let alloc = self.alloc;
        match lane {
            Some(lane) => work_lane(rt, alloc, served, lane, &mut wire, &gate, turns),
            None => {
                let Served { config, proxy } = served;
                Some(front_worker(rt, alloc, proxy, config, inlets, &mut wire, &gate, turns))
            }
        }
    }

    /// Shows what a worker sent to the world outside.
    pub fn show(&mut self, lane: Option<u16>, events: &[TraceEvent]) -> Result<(), Rule> {
        for event in events {
            let TraceEvent::Went(gone) = event else {
                continue;
            };
            match lane {
                Some(lane) => self.network.world.departs(lane, gone)?,
                None => self.network.world.tells(gone)?,
            }
        }
        Ok(())
    }

    /// Compares what a worker did with the rules.
    fn compare(
        &mut self,
        lane: Option<u16>,
        turns: u64,
        events: &[TraceEvent],
        tally: Tally,
    ) -> Result<(), Rule> {
        let mut walk = Walk::new(events, tally.turns == turns);
        self.compare_turns(lane, turns, &mut walk);
        self.turns = self.turns.saturating_add(walk.tally.turns);
        walk.outcome(tally)
    }

    fn compare_turns(&mut self, lane: Option<u16>, turns: u64, walk: &mut Walk<'_>) {
        for _ in 0..turns {
            if !self.compare_turn(lane, walk) || walk.is_broken() {
                return;
            }
        }
        walk.ends(Rule::ENDS);
    }

    /// Compares a turn. Returns whether the worker goes on.
    fn compare_turn(&mut self, lane: Option<u16>, walk: &mut Walk<'_>) -> bool {
        let Some(lane) = lane else {
            return self.books.front_turn(walk);
        };
        match self.books.books.as_mut_slice().get_mut(usize::from(lane)) {
            Some(book) => lane_turn(book, walk),
            None => false,
        }
    }

    /// Delivers what a lane sent to the home servers.
    pub fn react(&mut self, lane: Option<u16>, events: &[TraceEvent]) -> Result<(), Rule> {
        let Some(lane) = lane else {
            return Ok(());
        };
        let now = self.now();
        for event in events {
            if let TraceEvent::Went(gone) = event
                && gone.is_handed_over
            {
                self.network
                    .reach_home(&mut self.chance, &self.setting, now, lane, gone)?;
            }
        }
        Ok(())
    }
}

fn compare_counts(rt: &impl Wait, proxy: &Proxy, books: &[Book]) -> Result<(), Rule> {
    for book in books {
        let is_right = book.lane < proxy.lanes() && proxy.counts(rt, book.lane) == book.counts();
        Rule::COUNTS.unless(is_right)?;
    }
    Ok(())
}

fn worker_of(lane: Option<u16>) -> Worker {
    match lane {
        None => Worker::Front,
        Some(lane) => Worker::Lane(lane),
    }
}
