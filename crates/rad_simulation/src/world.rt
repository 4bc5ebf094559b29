//! What the lanes sent, what the home servers received and replied, and what the NASes asked. What a NAS is told is compared with
//! that alone.

use crate::events::{Gone, Mail};
use crate::making::{last_value, response};
use crate::rules::Rule;
use crate::setting::{Home, client_secret};
use rad_auth::{ACCOUNTING_REQUEST, PROXY_STATE, Secret, check_response};
use rad_packet::{PacketRef, read};
use rad_realms::Endpoint;
use std::alloc::Global;

/// The length of a packet without attributes.
const HEADER: usize = 20;

/// The length of the value of a mark.
const MARK_LENGTH: usize = 10;

/// A datagram that a lane sent, once or several times.
#[derive(Drop)]
pub struct Departed {
    /// The index of the socket from which it was sent first.
    pub socket: u16,
    pub to: Endpoint,
    pub octets: Vec<u8>,
}

/// A reply of a home server.
#[derive(Drop)]
struct Reply {
    /// The place of the datagram that it answers, among those that its lane sent.
    asked: usize,
    octets: Vec<u8>,
}

/// What a lane sent, and what its home server received and replied.
#[derive(Drop)]
struct Link {
    lane: u16,
    secret: Secret,
    /// What was sent, each datagram once, in the order of the first sending.
    departed: Vec<Departed>,
    /// The places of what was sent first in this run. Another run gives its marks anew.
    of_run: Vec<usize>,
    /// The places of what the home server received, in the order in which it came.
    received: Vec<usize>,
    replies: Vec<Reply>,
}

/// The world outside the proxy.
#[derive(Drop)]
pub struct World {
    alloc: Global,
    links: Vec<Link>,
    /// The datagrams of the NASes, each once.
    asked: Vec<Mail>,
}

impl World {
    /// Returns a world in which nothing was sent.
    pub fn new(alloc: Global, homes: &[Home]) -> Result<World, Rule> {
        let mut links = Vec::new(alloc);
        for (lane, home) in homes.iter().enumerate() {
            links.push(Link {
                lane: (lane & 0xffff) as u16,
                secret: home.secret,
                departed: Vec::new(alloc),
                of_run: Vec::new(alloc),
                received: Vec::new(alloc),
                replies: Vec::new(alloc),
            })?;
        }
        Ok(World {
            alloc,
            links,
            asked: Vec::new(alloc),
        })
    }

    /// A NAS sends a datagram.
    pub fn asks(&mut self, mail: &Mail) -> Result<(), Rule> {
        for asked in self.asked.as_slice() {
            if asked.from == mail.from && asked.octets.as_slice() == mail.octets.as_slice() {
                return Ok(());
            }
        }
        self.asked.push(mail.copy(self.alloc)?)?;
        Ok(())
    }

    /// Another run begins.
    pub fn begins_run(&mut self) {
        for link in self.links.as_mut_slice().iter_mut() {
            link.of_run.clear();
        }
    }

    /// A lane sends a datagram. Whatever has the same mark has the same octets, within a run.
    pub fn departs(&mut self, lane: u16, gone: &Gone) -> Result<(), Rule> {
        let alloc = self.alloc;
        let link = self.link(lane)?;
        let octets = gone.octets.as_slice();
        let place = match link.place_of(octets) {
            Some(place) if link.of_run.as_slice().contains(&place) => return Ok(()),
            Some(place) => place,
            None => link.departed.len(),
        };
        Rule::SENT_ALIKE.unless(!link.has_mark_of(octets))?;
        if place == link.departed.len() {
            link.departed.push(Departed {
                socket: gone.socket,
                to: gone.to,
                octets: octets.to_vec(alloc)?,
            })?;
        }
        link.of_run.push(place)?;
        Ok(())
    }

    /// Returns how many different datagrams a lane sent.
    pub fn sent(&self, lane: u16) -> usize {
        match self.links.as_slice().get(usize::from(lane)) {
            Some(link) => link.departed.len(),
            None => 0,
        }
    }

    /// Returns a datagram that a lane sent.
    pub fn departed(&self, lane: u16, place: usize) -> Option<&Departed> {
        self.links
            .as_slice()
            .get(usize::from(lane))?
            .departed
            .as_slice()
            .get(place)
    }

    /// Returns the place of a datagram among those that a lane sent.
    pub fn place_of(&self, lane: u16, octets: &[u8]) -> Option<usize> {
        self.links
            .as_slice()
            .get(usize::from(lane))?
            .place_of(octets)
    }

    /// A home server receives a datagram that its lane sent.
    pub fn receives(&mut self, lane: u16, place: usize) -> Result<(), Rule> {
        self.link(lane)?.received.push(place)?;
        Ok(())
    }

    /// A home server replies to a datagram that it received.
    pub fn replies(&mut self, lane: u16, asked: usize, octets: &[u8]) -> Result<(), Rule> {
        let octets = octets.to_vec(self.alloc)?;
        let link = self.link(lane)?;
        link.replies.push(Reply { asked, octets })?;
        Ok(())
    }

    /// A home server receives what its lane sent, and replies to it.
    pub fn answers(&mut self, lane: u16, asked: &[u8], octets: &[u8]) -> Result<(), Rule> {
        let Some(place) = self.place_of(lane, asked) else {
            return Err(Rule::SERVES);
        };
        self.receives(lane, place)?;
        self.replies(lane, place, octets)
    }

    /// A NAS is told this. It is valid for something that the NAS asked; and each request for which it is valid was received by
    /// a home server, whose reply it passes on.
    pub fn tells(&self, gone: &Gone) -> Result<(), Rule> {
        let Some(secret) = client_secret(gone.to.address) else {
            return Err(Rule::TOLD);
        };
        let Ok(told) = read(gone.octets.as_slice()) else {
            return Err(Rule::TOLD);
        };
        let mut is_valid = false;
        for mail in self.asked.as_slice() {
            if let Some(asked) = answered_by(mail, gone.to, &told, &secret) {
                is_valid = true;
                self.compare(&asked, &told, &secret)?;
            }
        }
        Rule::TOLD.unless(is_valid)
    }

    /// Compares what a NAS takes as the answer to what it asked: to a Status-Server the proxy answers by itself.
    fn compare(
        &self,
        asked: &PacketRef<'_>,
        told: &PacketRef<'_>,
        secret: &Secret,
    ) -> Result<(), Rule> {
        if asked.code() != ACCOUNTING_REQUEST {
            return Ok(());
        }
        for link in self.links.as_slice() {
            if link.acknowledges(asked, told, secret) {
                return Ok(());
            }
        }
        Err(Rule::ACKNOWLEDGED)
    }

    fn link(&mut self, lane: u16) -> Result<&mut Link, Rule> {
        match self.links.as_mut_slice().get_mut(usize::from(lane)) {
            Some(link) => Ok(link),
            None => Err(Rule::CONFIGURATION),
        }
    }
}

impl Link {
    fn place_of(&self, octets: &[u8]) -> Option<usize> {
        for (place, departed) in self.departed.as_slice().iter().enumerate() {
            if departed.octets.as_slice() == octets {
                return Some(place);
            }
        }
        None
    }

    /// Returns whether something was sent in this run with the same mark as this. A probe has none.
    fn has_mark_of(&self, octets: &[u8]) -> bool {
        let Some(mark) = mark_of(self.lane, octets) else {
            return false;
        };
        for place in self.of_run.as_slice() {
            if let Some(departed) = self.departed.as_slice().get(*place)
                && mark_of(self.lane, departed.octets.as_slice()) == Some(mark)
            {
                return true;
            }
        }
        false
    }

    /// Returns whether the home server received a request, with its attributes unchanged and a mark behind them, and made a
    /// reply to it that is passed on here.
    fn acknowledges(&self, asked: &PacketRef<'_>, told: &PacketRef<'_>, secret: &Secret) -> bool {
        for reply in self.replies.as_slice() {
            if self.is_received(asked, reply.asked)
                && self.is_reply(reply)
                && is_passed_on(reply.octets.as_slice(), asked, told, secret)
            {
                return true;
            }
        }
        false
    }

    /// Returns whether the home server received the datagram at a place, and that has the attributes of a request, with a mark
    /// behind them.
    fn is_received(&self, asked: &PacketRef<'_>, place: usize) -> bool {
        let Some(departed) = self.departed.as_slice().get(place) else {
            return false;
        };
        self.received.as_slice().contains(&place)
            && is_forwarded(self.lane, asked.octets(), departed.octets.as_slice())
    }

    /// Returns whether a reply is valid for what it answers, under the home server's secret.
    fn is_reply(&self, reply: &Reply) -> bool {
        let Some(departed) = self.departed.as_slice().get(reply.asked) else {
            return false;
        };
        match (
            read(departed.octets.as_slice()),
            read(reply.octets.as_slice()),
        ) {
            (Ok(asked), Ok(reply)) => check_response(&reply, &asked.authenticator(), &self.secret),
            _ => false,
        }
    }
}

/// Returns what a NAS asked, if it comes from this endpoint and what the NAS is told is valid for it.
fn answered_by<'a>(
    mail: &'a Mail,
    nas: Endpoint,
    told: &PacketRef<'_>,
    secret: &Secret,
) -> Option<PacketRef<'a>> {
    if mail.from != nas {
        return None;
    }
    let asked = read(mail.octets.as_slice()).ok()?;
    if asked.identifier() == told.identifier()
        && check_response(told, &asked.authenticator(), secret)
    {
        Some(asked)
    } else {
        None
    }
}

/// Returns the mark of a lane that a request has, if it has one: the value of its last Proxy-State.
fn mark_of(lane: u16, octets: &[u8]) -> Option<[u8; MARK_LENGTH]> {
    let packet = read(octets).ok()?;
    if packet.code() != ACCOUNTING_REQUEST {
        return None;
    }
    let value = last_value(&packet, PROXY_STATE)?;
    if value.len() != MARK_LENGTH || value.get(..2) != Some(lane.to_be_bytes().as_slice()) {
        return None;
    }
    let mut mark = [0; MARK_LENGTH];
    mark.copy_from_slice(value);
    Some(mark)
}

/// Returns whether a datagram has the attributes of a request, and a mark of the lane behind them, and nothing else.
fn is_forwarded(lane: u16, request: &[u8], octets: &[u8]) -> bool {
    let Some(end) = octets.len().checked_sub(MARK_LENGTH + 2) else {
        return false;
    };
    mark_of(lane, octets).is_some()
        && octets.get(HEADER..end) == request.get(HEADER..)
        && octets.get(end) == Some(&PROXY_STATE)
}

/// Returns whether a NAS is told a reply's attributes without the last Proxy-State, as the answer to this request.
fn is_passed_on(
    reply: &[u8],
    asked: &PacketRef<'_>,
    told: &PacketRef<'_>,
    secret: &Secret,
) -> bool {
    let Ok(reply) = read(reply) else {
        return false;
    };
    let made = response(&reply, asked.identifier(), &asked.authenticator(), secret);
    made.bytes() == told.octets()
}
