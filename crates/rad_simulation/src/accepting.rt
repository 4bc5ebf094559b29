//! How a lane accepts a request, by the rules.

use crate::book::{Asked, Book};
use crate::rules::Rule;
use rad_lane::Refusal;
use rad_packet::PacketRef;
use rad_realms::Endpoint;

/// The length of the longest request behind which the mark fits.
const LONGEST_REQUEST: usize = 4084;

/// What became of a request.
#[derive(Clone, Copy)]
pub enum Taking {
    New(u64),
    Waiting,
    Again(u64),
    Refused(Refusal),
}

impl Book {
    /// Returns the number of the last request with this key.
    fn last_of(&self, from: Endpoint, packet: &PacketRef<'_>) -> Option<u64> {
        let (identifier, authenticator) = (packet.identifier(), packet.authenticator());
        let mut last = None;
        for (place, asked) in self.asked.as_slice().iter().enumerate() {
            if asked.authenticator == authenticator
                && asked.identifier == identifier
                && asked.from == from
            {
                last = Some(place as u64);
            }
        }
        last
    }

    /// Accepts or refuses a request of the lane, or finds that it is a repeat.
    pub fn accept(
        &mut self,
        from: Endpoint,
        packet: &PacketRef<'_>,
        moment: u64,
    ) -> Result<Taking, Rule> {
        let now = moment.max(self.last);
        if let Some(number) = self.last_of(from, packet)
            && let Some(taking) = self.repeat_of(number, now)
        {
            self.last = now;
            return Ok(taking);
        }
        if let Some(refusal) = self.refusal_of(packet) {
            return Ok(Taking::Refused(refusal));
        }
        self.last = now;
        let number = self.accepted();
        self.keep(from, packet)?;
        Ok(Taking::New(number))
    }

    /// Keeps a request that is accepted at the last moment.
    fn keep(&mut self, from: Endpoint, packet: &PacketRef<'_>) -> Result<(), Rule> {
        let text = packet.octets().to_vec(self.alloc)?;
        self.asked.push(Asked {
            from,
            identifier: packet.identifier(),
            authenticator: packet.authenticator(),
            moment: self.last,
            text,
            answered: None,
            response: Vec::new(self.alloc),
        })?;
        Ok(())
    }

    /// Returns what becomes of a repeat of a request, or `None` if that request is over.
    fn repeat_of(&self, number: u64, now: u64) -> Option<Taking> {
        let span = u64::from(self.limits.span);
        match self.at(number)?.answered {
            None => Some(Taking::Waiting),
            Some(moment) if now < moment.saturating_add(span) => Some(Taking::Again(number)),
            Some(_) => None,
        }
    }

    /// Returns why a new request is refused, if it is.
    fn refusal_of(&self, packet: &PacketRef<'_>) -> Option<Refusal> {
        if self.is_drained {
            return Some(Refusal::Draining);
        }
        if self.held() >= u64::from(self.limits.book) {
            return Some(Refusal::BookFull);
        }
        if self.queued() >= u64::from(self.limits.queue) {
            return Some(Refusal::QueueFull);
        }
        if packet.octets().len() > LONGEST_REQUEST {
            return Some(Refusal::TooLong);
        }
        None
    }
}
