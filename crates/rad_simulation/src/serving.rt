//! What happens in a run over a spool: the turns of its workers in a seeded order, the rounds of the spool's thread, the faults of
//! the disk, and the end.

use crate::events::{Came, Sign, TraceEvent};
use crate::front_turn::Kind;
use crate::history::{Ended, key_of};
use crate::life::Life;
use crate::planning::Plan;
use crate::process::Process;
use crate::rules::Rule;
use crate::run::Served;
use rad_desk::Inlet;
use std::sync::Wait;

/// How many rounds of all workers the last run takes at most until all is served.
const MOST_ROUNDS: u64 = 4000;

/// How many milliseconds pass from one of them to the next.
const PAUSE: u64 = 700;

impl Life<'_> {
    /// Has the workers of a run take their turns until it ends, and returns how it ended.
    pub fn work_all(
        &mut self,
        rt: &impl Wait,
        served: Served<'_>,
        process: &mut Process<'_>,
        inlets: &mut [Inlet],
        is_last: bool,
    ) -> Result<Ended, Rule> {
        for _ in 0..self.outside.chance.between(10, 200) {
            self.act(rt, served, process, inlets)?;
        }
        if is_last {
            self.serve_all(rt, served, process, inlets)?;
        }
        Rule::WAITS.unless(process.waiting() >= self.history.due())?;
        if is_last || self.outside.chance.is_one_in(4) {
            Ok(self.stop(process))
        } else {
            self.crash(rt, served, process, inlets)
        }
    }

    /// Has something happen outside, and then a worker take its turns or the spool's thread do a round.
    fn act(
        &mut self,
        rt: &impl Wait,
        served: Served<'_>,
        process: &mut Process<'_>,
        inlets: &mut [Inlet],
    ) -> Result<(), Rule> {
        self.outside.happen()?;
        if self.outside.chance.is_one_in(150) {
            self.folder.stop_after(self.outside.chance.below(6));
        }
        if self.outside.chance.is_one_in(30) {
            self.folder.go_on();
        }
        if self.outside.chance.is_one_in(8) {
            self.do_round(process);
            return Ok(());
        }
        let mut plan = self.outside.plan();
        if plan.lane.is_none() {
            plan.calls = None;
            plan.lag = 0;
        }
        self.call(rt, served, process, inlets, plan)
    }

    /// Has the spool's thread do a round.
    fn do_round(&mut self, process: &mut Process<'_>) {
        let is_failing = process.do_round();
        self.history.end_round(is_failing);
    }

    /// Calls a worker, and compares what it did.
    fn call(
        &mut self,
        rt: &impl Wait,
        served: Served<'_>,
        process: &mut Process<'_>,
        inlets: &mut [Inlet],
        plan: Plan,
    ) -> Result<(), Rule> {
        let Plan {
            lane,
            turns,
            arrivals,
            calls,
            lag,
        } = plan;
        let before = self.outside.now();
        let alloc = self.outside.alloc;
        self.outside.prepare(arrivals, lag);
        let tally = match lane {
            Some(lane) => process.work_lane(rt, alloc, served, lane, turns, calls),
            None => Some(process.work_front(rt, alloc, served, inlets, turns, calls)),
        };
        self.outside.give_back(lane)?;
        let (Some(events), Some(tally)) = (self.outside.stage.trace.take(), tally) else {
            return Err(Rule::MEMORY);
        };
        self.outside.turns = self.outside.turns.saturating_add(tally.turns);
        match lane {
            Some(_) => {
                self.outside.show(lane, events.as_slice())?;
                self.outside.react(lane, events.as_slice())
            }
            None => self.see_front(events.as_slice(), before),
        }
    }

    /// Compares what the front did from a moment on.
    fn see_front(&mut self, events: &[TraceEvent], before: u64) -> Result<(), Rule> {
        let (mut now, mut awaited) = (before, None);
        for event in events {
            match event {
                TraceEvent::Received(moment, came) => {
                    Rule::SAME_ANSWER.unless(awaited.is_none())?;
                    now = *moment;
                    awaited = self.awaited(came, now)?;
                }
                TraceEvent::Went(gone) => {
                    self.outside.network.world.tells(gone)?;
                    if let Some(place) = awaited {
                        awaited = None;
                        Rule::SAME_ANSWER.unless(self.history.is_same_answer(place, gone))?;
                    }
                }
                TraceEvent::Signed(Sign::Accepted(lane, number, from), octets) => {
                    self.history
                        .accept(*lane, *number, *from, octets.as_slice(), now)?;
                }
                TraceEvent::Kept(keeping) => self.history.answer(keeping)?,
                _ => {}
            }
        }
        Rule::SAME_ANSWER.unless(awaited.is_none())
    }

    /// Returns the place of the request that a datagram repeats, if an earlier run answered it within its span.
    fn awaited(&self, came: &Came, now: u64) -> Result<Option<usize>, Rule> {
        let Came::Datagram(mail) = came else {
            return Ok(None);
        };
        match self.outside.books.kind_of(mail) {
            Ok(Kind::Request(lane, packet)) => {
                let key = key_of(mail.from, packet.octets())?;
                Ok(self.history.answered_before((lane & 3) as u16, &key, now))
            }
            _ => Ok(None),
        }
    }

    /// Ends a run in order: what came is written, if the disk does not fail.
    fn stop(&mut self, process: &mut Process<'_>) -> Ended {
        for _ in 0..3 {
            self.do_round(process);
        }
        self.folder.go_on();
        Ended::InOrder(process.unsynced())
    }

    /// Ends a run by a crash: between two turns, within one, or while the spool is written.
    fn crash(
        &mut self,
        rt: &impl Wait,
        served: Served<'_>,
        process: &mut Process<'_>,
        inlets: &mut [Inlet],
    ) -> Result<Ended, Rule> {
        match self.outside.chance.below(4) {
            0 => {}
            1 => {
                let mut plan = self.outside.plan();
                plan.lag = 0;
                plan.calls = Some((self.outside.chance.below(8) & 7) as u32);
                self.call(rt, served, process, inlets, plan)?;
            }
            _ => {
                self.folder.stop_after(self.outside.chance.below(9));
                self.do_round(process);
            }
        }
        self.crashes = self.crashes.saturating_add(1);
        self.lose()?;
        Ok(Ended::ByCrash)
    }

    /// Has the disk lose what was not synced, and tear the last write, unless only the process ended.
    fn lose(&mut self) -> Result<(), Rule> {
        if self.outside.chance.is_one_in(4) {
            self.folder.go_on();
            return Ok(());
        }
        let kept = self.outside.chance.below(400) as usize;
        self.folder.crash(self.outside.alloc, kept)?;
        Ok(())
    }

    /// Has all requests be answered: the network loses nothing from here on, each home server answers, and the disk does not fail.
    fn serve_all(
        &mut self,
        rt: &impl Wait,
        served: Served<'_>,
        process: &mut Process<'_>,
        inlets: &mut [Inlet],
    ) -> Result<(), Rule> {
        self.folder.go_on();
        self.outside.setting.faults = 0;
        self.outside.setting.losses = 0;
        self.outside.setting.is_hurried = true;
        for _ in 0..MOST_ROUNDS {
            if self.history.is_served() && process.waiting() == 0 {
                return Ok(());
            }
            self.serve_some(rt, served, process, inlets)?;
        }
        Err(Rule::LEFT)
    }

    /// Calls each worker once, after a pause, and has the spool's thread do a round.
    fn serve_some(
        &mut self,
        rt: &impl Wait,
        served: Served<'_>,
        process: &mut Process<'_>,
        inlets: &mut [Inlet],
    ) -> Result<(), Rule> {
        self.outside.stage.clock.pass(PAUSE);
        self.call_in_order(rt, served, process, inlets, None)?;
        for lane in 0..served.proxy.lanes() {
            self.call_in_order(rt, served, process, inlets, Some(lane))?;
        }
        self.do_round(process);
        Ok(())
    }

    /// Calls a worker for some turns, in which comes what is on its way.
    fn call_in_order(
        &mut self,
        rt: &impl Wait,
        served: Served<'_>,
        process: &mut Process<'_>,
        inlets: &mut [Inlet],
        lane: Option<u16>,
    ) -> Result<(), Rule> {
        let turns = 4;
        let arrivals = self.outside.arrivals(lane, turns);
        let plan = Plan {
            lane,
            turns,
            arrivals,
            calls: None,
            lag: 0,
        };
        self.call(rt, served, process, inlets, plan)
    }
}
