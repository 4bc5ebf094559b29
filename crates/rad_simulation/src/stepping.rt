//! The steps of a lane, by the rules.

use crate::book::{Book, Down, Out};
use crate::making::{forwarded, mark_value, status_server};
use crate::rules::Rule;
use rad_packet::read;

/// The longest wait for an answer, in milliseconds.
const LONGEST_WAIT: u64 = 120_000;

/// A step of a lane. What it sends is at this place among the outstanding requests and the probe.
#[derive(Clone, Copy)]
pub enum Doing {
    Send(usize),
    SendAgain(usize),
    Probe(usize),
    GoDown(u64),
    GoUp,
    Idle,
}

impl Book {
    /// Marks the home server up: forgets the probe, and makes the outstanding requests due at once.
    pub fn go_up(&mut self, now: u64) {
        self.down = None;
        self.forget_probe();
        for out in self.out.as_mut_slice().iter_mut() {
            out.due = now;
            out.sendings = 0;
        }
    }

    fn forget_probe(&mut self) {
        if let Some(place) = self.find_probe() {
            self.remove_out(place);
        }
    }

    /// Returns the place of the probe, of which there is at most one.
    fn find_probe(&self) -> Option<usize> {
        for (place, out) in self.out.as_slice().iter().enumerate() {
            if out.number.is_none() {
                return Some(place);
            }
        }
        None
    }

    /// Removes the outstanding request or the probe at a place.
    pub fn remove_out(&mut self, place: usize) {
        if place < self.out.len() {
            self.out.remove(place);
        }
    }

    /// Makes the next step, with these octets as a probe's Authenticator.
    pub fn step(&mut self, moment: u64, drawn: [u8; 16]) -> Result<Doing, Rule> {
        let now = moment.max(self.last);
        self.last = now;
        match self.down {
            None => self.step_up(now),
            Some(down) => self.step_down(now, down, drawn),
        }
    }

    fn step_up(&mut self, now: u64) -> Result<Doing, Rule> {
        if let Some(place) = self.least_due(false, now) {
            self.send_again(place, now);
            return Ok(Doing::SendAgain(place));
        }
        if let Some(place) = self.least_due(true, now) {
            self.down = Some(Down {
                until: now.saturating_add(u64::from(self.limits.down_wait)),
                next_probe: now,
            });
            return Ok(Doing::GoDown(self.number_at(place).unwrap_or(0)));
        }
        let window = self.limits.window as usize;
        if self.queued() > 0 && self.outstanding() < window {
            let place = self.send_first(now)?;
            return Ok(Doing::Send(place));
        }
        Ok(Doing::Idle)
    }

    /// Returns the place of the first due request of those that are spent, or not spent. The first one has the least
    /// due moment, and of these the least number.
    fn least_due(&self, is_spent: bool, now: u64) -> Option<usize> {
        let mut least: Option<(u64, u64, usize)> = None;
        for (place, out) in self.out.as_slice().iter().enumerate() {
            let spent = out.sendings >= self.limits.tries;
            if let Some(number) = out.number
                && out.due <= now
                && spent == is_spent
                && is_before(out.due, number, least)
            {
                least = Some((out.due, number, place));
            }
        }
        Some(least?.2)
    }

    fn send_again(&mut self, place: usize, now: u64) {
        let first_wait = self.limits.first_wait;
        if let Some(out) = self.out.as_mut_slice().get_mut(place) {
            out.sendings = out.sendings.saturating_add(1);
            out.due = now.saturating_add(wait_after(first_wait, out.sendings));
        }
    }

    fn send_first(&mut self, now: u64) -> Result<usize, Rule> {
        let number = self.sent;
        self.take_pair();
        let octets = self.first_sending(number)?;
        self.sent = number.saturating_add(1);
        let due = now.saturating_add(wait_after(self.limits.first_wait, 1));
        self.put_out(Some(number), octets, due)
    }

    /// Returns the octets that go to the home server for a request, under the pair that was allotted last.
    fn first_sending(&self, number: u64) -> Result<Vec<u8>, Rule> {
        let text = match self.at(number) {
            Some(asked) => asked.text.as_slice(),
            None => &[],
        };
        let Ok(request) = read(text) else {
            return Err(Rule::FIRST_SENDING);
        };
        let mark = mark_value(self.lane, number);
        let made = forwarded(&request, (self.pair % 256) as u8, &mark, &self.secret);
        Ok(made.bytes().to_vec(self.alloc)?)
    }

    /// Adds these octets as sent, under the pair that was allotted last. Returns their place.
    fn put_out(&mut self, number: Option<u64>, octets: Vec<u8>, due: u64) -> Result<usize, Rule> {
        let place = self.out.len();
        self.out.push(Out {
            pair: self.pair,
            number,
            octets,
            sendings: 1,
            due,
        })?;
        Ok(place)
    }

    /// Allots the first free pair after the one that was allotted last.
    fn take_pair(&mut self) {
        let pairs = self.limits.ports.saturating_mul(256);
        for _ in 0..pairs {
            let next = self.pair.saturating_add(1);
            self.pair = if next < pairs { next } else { 0 };
            if self.find_out(self.pair).is_none() {
                return;
            }
        }
    }

    fn step_down(&mut self, now: u64, down: Down, drawn: [u8; 16]) -> Result<Doing, Rule> {
        if down.until <= now {
            self.go_up(now);
            return Ok(Doing::GoUp);
        }
        if down.next_probe <= now {
            self.forget_probe();
            self.take_pair();
            let probe = status_server((self.pair % 256) as u8, drawn, &self.secret);
            let octets = probe.bytes().to_vec(self.alloc)?;
            let place = self.put_out(None, octets, 0)?;
            self.down = Some(Down {
                until: down.until,
                next_probe: now.saturating_add(u64::from(self.limits.probe_every)),
            });
            return Ok(Doing::Probe(place));
        }
        Ok(Doing::Idle)
    }
}

/// Returns whether this request comes before the least one so far.
fn is_before(due: u64, number: u64, least: Option<(u64, u64, usize)>) -> bool {
    match least {
        None => true,
        Some((other_due, other_number, _)) => due < other_due
            || (due == other_due && number < other_number),
    }
}

/// Returns how many milliseconds to wait after `sendings` sendings of a round: twice as long each time, and at most
/// two minutes.
fn wait_after(first_wait: u32, sendings: u32) -> u64 {
    let mut wait = u64::from(first_wait);
    for _ in 1..sendings {
        wait = wait.saturating_mul(2);
    }
    wait.min(LONGEST_WAIT)
}
