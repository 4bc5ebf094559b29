//! The book of a lane, by the rules: flat lists, and loops over all of them. Its calls are in `accepting.rt`,
//! `hearing.rt` and `stepping.rt`.

use crate::making::{ACCT_SESSION_ID, first_value};
use crate::setting::Home;
use rad_auth::Secret;
use rad_lane::Counts;
use rad_packet::read;
use rad_realms::{Endpoint, LimitNumbers};
use std::alloc::Global;

/// An accepted request. Its number is its place in the list.
#[derive(Drop)]
pub struct Asked {
    pub from: Endpoint,
    pub identifier: u8,
    pub authenticator: [u8; 16],
    /// The moment at which it was accepted.
    pub moment: u64,
    pub text: Vec<u8>,
    /// The moment at which it was answered.
    pub answered: Option<u64>,
    pub response: Vec<u8>,
}

impl Asked {
    /// Returns its Acct-Session-Id, if it has one.
    pub fn session(&self) -> Option<&[u8]> {
        match read(self.text.as_slice()) {
            Ok(packet) => first_value(&packet, ACCT_SESSION_ID),
            Err(_) => None,
        }
    }
}

/// An outstanding request or a probe, with its pair. A probe has no number.
#[derive(Drop)]
pub struct Out {
    /// The pair's place in the order of pairs.
    pub pair: u32,
    pub number: Option<u64>,
    pub octets: Vec<u8>,
    pub sendings: u32,
    pub due: u64,
}

/// The moments that a lane waits for while it is down.
#[derive(Clone, Copy)]
pub struct Down {
    pub until: u64,
    pub next_probe: u64,
}

/// The book of a lane.
#[derive(Drop)]
pub struct Book {
    pub alloc: Global,
    pub lane: u16,
    /// The address and port of the home server.
    pub endpoint: Endpoint,
    /// The secret that the home server shares with the proxy.
    pub secret: Secret,
    pub limits: LimitNumbers,
    pub asked: Vec<Asked>,
    /// The number of the first request that is not cut.
    pub opening: u64,
    /// How many requests were sent for the first time. Those are the first ones.
    pub sent: u64,
    pub out: Vec<Out>,
    /// The numbers of the answered requests, in the order in which they were answered.
    pub answers: Vec<u64>,
    /// How many responses were taken.
    pub taken: usize,
    pub down: Option<Down>,
    pub is_drained: bool,
    /// The latest moment.
    pub last: u64,
    /// The pair that was allotted last.
    pub pair: u32,
}

impl Book {
    /// Returns an empty book.
    pub fn new(alloc: Global, lane: u16, home: &Home) -> Book {
        Book {
            alloc,
            lane,
            endpoint: home.endpoint,
            secret: home.secret,
            limits: home.limits,
            asked: Vec::new(alloc),
            opening: 0,
            sent: 0,
            out: Vec::new(alloc),
            answers: Vec::new(alloc),
            taken: 0,
            down: None,
            is_drained: false,
            last: 0,
            pair: home.limits.ports.saturating_mul(256).saturating_sub(1),
        }
    }

    /// Returns how many requests were accepted in all.
    pub fn accepted(&self) -> u64 {
        self.asked.len() as u64
    }

    /// Returns how many requests the book holds.
    pub fn held(&self) -> u64 {
        self.accepted().saturating_sub(self.opening)
    }

    /// Returns how many requests are queued.
    pub fn queued(&self) -> u64 {
        self.accepted().saturating_sub(self.sent)
    }

    /// Returns how many requests are outstanding. A probe does not count.
    pub fn outstanding(&self) -> usize {
        let mut count: usize = 0;
        for out in self.out.as_slice() {
            if out.number.is_some() {
                count = count.saturating_add(1);
            }
        }
        count
    }

    /// Returns how many responses wait to be taken.
    pub fn untaken(&self) -> usize {
        self.answers.len().saturating_sub(self.taken)
    }

    /// Returns the counts that the lane must have.
    pub fn counts(&self) -> Counts {
        Counts {
            opening: self.opening,
            accepted: self.accepted(),
            answered: self.answers.len() as u64,
            queued: usize::try_from(self.queued()).unwrap_or(0),
            outstanding: self.outstanding(),
            up: self.down.is_none(),
            draining: self.is_drained,
        }
    }

    /// Returns the request of a number.
    pub fn at(&self, number: u64) -> Option<&Asked> {
        self.asked.as_slice().get(place_of(number)?)
    }

    /// Returns the response of a request, or no octets if it has none.
    pub fn response_of(&self, number: u64) -> &[u8] {
        match self.at(number) {
            Some(asked) => asked.response.as_slice(),
            None => &[],
        }
    }

    /// Takes the next response that waits. Returns its serial, and the number of its request.
    pub fn take(&mut self) -> Option<(u64, u64)> {
        let serial = self.taken;
        let number = self.answers.as_slice().get(serial).copied()?;
        self.taken = serial.saturating_add(1);
        Some((serial as u64, number))
    }

    /// Drains the lane. Returns how many requests were accepted until it was drained first.
    pub fn drain(&mut self) -> u64 {
        self.is_drained = true;
        self.accepted()
    }

    /// Cuts the first requests that are over, and returns how many.
    pub fn cut(&mut self, moment: u64) -> u64 {
        let now = moment.max(self.last);
        let span = u64::from(self.limits.span);
        let mut count: u64 = 0;
        for asked in self
            .asked
            .as_slice()
            .iter()
            .skip(place_of(self.opening).unwrap_or(0))
        {
            match asked.answered {
                Some(answered) if answered.saturating_add(span) <= now => {
                    count = count.saturating_add(1);
                }
                _ => break,
            }
        }
        if count > 0 {
            self.last = now;
            self.opening = self.opening.saturating_add(count);
        }
        count
    }

    /// Returns the least moment after `now` at which something changes by itself.
    pub fn next_change(&self, now: u64) -> Option<u64> {
        let span = u64::from(self.limits.span);
        let mut least = None;
        for out in self.out.as_slice() {
            if out.number.is_some() && self.down.is_none() {
                least = earlier(least, out.due, now);
            }
        }
        if let Some(down) = self.down {
            least = earlier(least, down.until, now);
            least = earlier(least, down.next_probe, now);
        }
        if let Some(asked) = self.at(self.opening)
            && let Some(answered) = asked.answered
        {
            least = earlier(least, answered.saturating_add(span), now);
        }
        least
    }
}

fn earlier(least: Option<u64>, moment: u64, now: u64) -> Option<u64> {
    if moment <= now {
        return least;
    }
    match least {
        Some(other) => Some(other.min(moment)),
        None => Some(moment),
    }
}

/// Returns the place of a number in a list.
pub fn place_of(number: u64) -> Option<usize> {
    usize::try_from(number).ok()
}
