//! The end of a run: from here on the network loses nothing, and each home server answers. Each lane is served in as many
//! rounds as the bounds of `rad_progress` say, counted in its own turns.

use crate::book::{Book, Out};
use crate::events::{Came, Mail};
use crate::network::right_reply;
use crate::planning::Plan;
use crate::rules::Rule;
use crate::run::{Run, Served};
use crate::trace::Arrival;
use rad_desk::Inlet;
use rad_packet::read;
use std::alloc::Global;
use std::sync::Wait;

/// A home server's right reply, and the datagram that it answers.
#[derive(Drop)]
struct RightReply {
    asked: Vec<u8>,
    mail: Mail,
}

impl Book {
    /// Returns whether there is nothing to do at a moment, until something comes.
    fn is_settled(&self, moment: u64) -> bool {
        let now = moment.max(self.last);
        match self.down {
            Some(down) => now < down.until && now < down.next_probe,
            None => !self.has_due(now) && (self.queued() == 0 || self.is_window_full()),
        }
    }

    fn has_due(&self, now: u64) -> bool {
        for out in self.out.as_slice() {
            if out.number.is_some() && out.due <= now {
                return true;
            }
        }
        false
    }

    fn is_window_full(&self) -> bool {
        self.outstanding() >= self.limits.window as usize
    }

    /// Returns how many steps the lane can take at one moment at most: one for each request of the window, and one more.
    fn most_steps(&self) -> u64 {
        let requests = self.queued().saturating_add(self.outstanding() as u64);
        requests
            .min(u64::from(self.limits.window))
            .saturating_add(1)
    }

    /// Returns how many rounds the queue takes at most: one, and one for each window of requests, rounded up.
    fn most_rounds(&self) -> u64 {
        let window = u64::from(self.limits.window).max(1);
        self.queued().div_ceil(window).saturating_add(1)
    }

    /// Returns whether the home server is marked up, or something is outstanding, to which it can reply.
    fn can_go_on(&self) -> bool {
        self.down.is_none() || self.outstanding() > 0
    }

    fn is_served(&self) -> bool {
        self.queued() == 0 && self.outstanding() == 0
    }

    /// Returns the home server's right replies to all that is outstanding.
    fn replies(&self, alloc: Global) -> Result<Vec<RightReply>, Rule> {
        let mut replies = Vec::new(alloc);
        for out in self.out.as_slice() {
            if out.number.is_some() {
                replies.push(self.reply(alloc, out)?)?;
            }
        }
        Ok(replies)
    }

    fn reply(&self, alloc: Global, out: &Out) -> Result<RightReply, Rule> {
        let Ok(sent) = read(out.octets.as_slice()) else {
            return Err(Rule::SERVES);
        };
        let reply = right_reply(&sent, &self.secret);
        Ok(RightReply {
            asked: out.octets.to_vec(alloc)?,
            mail: Mail {
                from: self.endpoint,
                socket: (out.pair / 256 & 3) as u16,
                octets: reply.bytes().to_vec(alloc)?,
            },
        })
    }
}

impl Run<'_> {
    /// Has each lane be served.
    pub fn settle(
        &mut self,
        rt: &impl Wait,
        served: Served<'_>,
        inlets: &mut [Inlet],
    ) -> Result<(), Rule> {
        self.setting.faults = 0;
        for place in 0..self.books.books.len() {
            self.take_all(rt, served, inlets, place)?;
            self.settle_lane(rt, served, inlets, place)?;
        }
        Ok(())
    }

    /// Has the front take the responses that wait in the ring of a lane.
    fn take_all(
        &mut self,
        rt: &impl Wait,
        served: Served<'_>,
        inlets: &mut [Inlet],
        place: usize,
    ) -> Result<(), Rule> {
        for _ in 0..self.book(place)?.untaken() {
            self.turn(rt, served, inlets, None, Came::Nothing)?;
        }
        Ok(())
    }

    /// Plays the rounds that a lane takes at most, and compares what is left. A lane that cannot go on goes up first, once
    /// its wait is over.
    fn settle_lane(
        &mut self,
        rt: &impl Wait,
        served: Served<'_>,
        inlets: &mut [Inlet],
        place: usize,
    ) -> Result<(), Rule> {
        if !self.book(place)?.can_go_on() {
            if let Some(down) = self.book(place)?.down {
                self.stage.clock.pass(down.until.saturating_sub(self.now()));
            }
            self.lane_turns(rt, served, inlets, place, Came::Nothing)?;
            Rule::COMES_UP.unless(self.book(place)?.can_go_on())?;
        }
        for _ in 0..self.book(place)?.most_rounds() {
            self.round(rt, served, inlets, place)?;
        }
        Rule::SERVES.unless(self.book(place)?.is_served())
    }

    /// Plays a round: turns without a datagram until there is nothing to do, and one more; and then a turn for each right
    /// reply. The front takes each response.
    fn round(
        &mut self,
        rt: &impl Wait,
        served: Served<'_>,
        inlets: &mut [Inlet],
        place: usize,
    ) -> Result<(), Rule> {
        for _ in 0..self.book(place)?.most_steps() {
            if !self.book(place)?.is_settled(self.now()) {
                self.lane_turns(rt, served, inlets, place, Came::Nothing)?;
            }
        }
        Rule::SETTLES.unless(self.book(place)?.is_settled(self.now()))?;
        self.lane_turns(rt, served, inlets, place, Came::Nothing)?;
        let replies = self.book(place)?.replies(self.alloc)?;
        for reply in replies {
            let RightReply { asked, mail } = reply;
            let (lane, answer) = ((place & 0xffff) as u16, mail.octets.as_slice());
            self.network.world.answers(lane, asked.as_slice(), answer)?;
            self.lane_turns(rt, served, inlets, place, Came::Datagram(mail))?;
            self.turn(rt, served, inlets, None, Came::Nothing)?;
        }
        Ok(())
    }

    fn book(&self, place: usize) -> Result<&Book, Rule> {
        match self.books.books.as_slice().get(place) {
            Some(book) => Ok(book),
            None => Err(Rule::SERVES),
        }
    }

    /// Calls the worker of a lane for one turn.
    fn lane_turns(
        &mut self,
        rt: &impl Wait,
        served: Served<'_>,
        inlets: &mut [Inlet],
        place: usize,
        came: Came,
    ) -> Result<(), Rule> {
        self.turn(rt, served, inlets, Some((place & 0xffff) as u16), came)
    }

    /// Calls a worker for one turn, at the same moment, in which this comes.
    fn turn(
        &mut self,
        rt: &impl Wait,
        served: Served<'_>,
        inlets: &mut [Inlet],
        lane: Option<u16>,
        came: Came,
    ) -> Result<(), Rule> {
        let mut arrivals = Vec::new(self.alloc);
        arrivals.push(Arrival { wait: 0, came })?;
        let plan = Plan {
            lane,
            turns: 1,
            arrivals,
            calls: None,
            lag: 0,
        };
        self.play(rt, served, inlets, plan)
    }
}
