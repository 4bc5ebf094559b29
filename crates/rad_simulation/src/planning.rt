//! Which worker is called next, and what arrives meanwhile.

use crate::events::Came;
use crate::run::Run;
use crate::trace::Arrival;

/// What is decided about a call of a worker before the call.
#[derive(Drop)]
pub struct Plan {
    /// The lane whose worker is called, or `None` for the front.
    pub lane: Option<u16>,
    pub turns: u64,
    pub arrivals: Vec<Arrival>,
    /// How many calls the gate lets the worker make, or `None` for all.
    pub calls: Option<u32>,
    /// How many milliseconds the worker's clock is behind.
    pub lag: u64,
}

impl Run<'_> {
    /// Decides which worker is called next, for how many turns, and what arrives in each.
    pub fn plan(&mut self) -> Plan {
        let lanes = self.setting.homes.len() as u64;
        let lane = match self.chance.below(lanes.saturating_add(1)) {
            0 => None,
            other => Some((other.saturating_sub(1) & 0xffff) as u16),
        };
        let turns = if self.chance.is_one_in(3) {
            self.chance.between(2, 4)
        } else {
            1
        };
        let calls = if self.chance.strikes(self.setting.stops) {
            Some((self.chance.below(8) & 0xff) as u32)
        } else {
            None
        };
        let arrivals = self.arrivals(lane, turns);
        let lag = if self.chance.is_one_in(10) {
            self.chance.below(4)
        } else {
            0
        };
        Plan {
            lane,
            turns,
            arrivals,
            calls,
            lag,
        }
    }

    /// Returns what arrives in `turns` turns, the first one last; nothing if memory is refused.
    pub fn arrivals(&mut self, lane: Option<u16>, turns: u64) -> Vec<Arrival> {
        let mut arrivals = Vec::new(self.alloc);
        let mut clock = self.now();
        for _ in 0..turns {
            let wait = self.wait(clock);
            clock = clock.saturating_add(wait);
            let came = self.came(lane, clock);
            let _ = arrivals.push(Arrival { wait, came });
        }
        arrivals.as_mut_slice().reverse();
        arrivals
    }

    fn came(&mut self, lane: Option<u16>, clock: u64) -> Came {
        if self.chance.strikes(self.setting.faults) {
            return Came::Fault;
        }
        match self.network.arrive(clock, lane) {
            Some(mail) => Came::Datagram(mail),
            None => Came::Nothing,
        }
    }

    /// Returns how long a receive waits, in milliseconds: not at all, a little, or just until, or just before,
    /// something is due.
    fn wait(&mut self, clock: u64) -> u64 {
        if self.setting.is_hurried {
            return self.chance.below(2);
        }
        match self.chance.below(40) {
            0..=19 => 0,
            20..=29 => self.chance.below(20),
            30..=36 => self.wait_for_change(clock),
            37..=38 => self.chance.below(200),
            _ => self.chance.below(3000),
        }
    }

    fn wait_for_change(&mut self, clock: u64) -> u64 {
        let Some(book) = self.chance.pick(self.books.books.as_slice()) else {
            return 0;
        };
        match book.next_change(clock) {
            Some(moment) => {
                let wait = moment.saturating_sub(clock).min(5000);
                wait.saturating_add(self.chance.below(3)).saturating_sub(1)
            }
            None => 0,
        }
    }
}
