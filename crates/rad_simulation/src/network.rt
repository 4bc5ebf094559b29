//! The home servers, and the network between them, the proxy and the NASes. It loses, repeats, delays and reorders what is sent in
//! either direction.

use crate::chance::Chance;
use crate::events::{Came, Gone, Mail};
use crate::making::{CLASS, begun, push, sign_response};
use crate::nases::turn_a_bit;
use crate::rules::Rule;
use crate::setting::{Home, Setting};
use crate::trace::Arrival;
use crate::world::{Departed, World};
use rad_auth::{ACCOUNTING_RESPONSE, MESSAGE_AUTHENTICATOR, PROXY_STATE, STATUS_SERVER, Secret};
use rad_packet::{Datagram, PacketRef, read};
use rad_realms::Endpoint;
use std::alloc::Global;

/// A datagram on its way to the proxy.
#[derive(Drop)]
struct Flying {
    /// The moment at which it arrives.
    at: u64,
    /// The lane that it goes to, or `None` for the front.
    lane: Option<u16>,
    mail: Mail,
}

/// The network, and which home servers are alive.
#[derive(Drop)]
pub struct Network {
    alloc: Global,
    flying: Vec<Flying>,
    /// Whether each home server is dead.
    dead: [bool; 3],
    pub world: World,
}

impl Network {
    /// Returns a network with no datagram on its way, in which all home servers are alive.
    pub fn new(alloc: Global, setting: &Setting) -> Result<Network, Rule> {
        Ok(Network {
            alloc,
            flying: Vec::new(alloc),
            dead: [false; 3],
            world: World::new(alloc, setting.homes.as_slice())?,
        })
    }

    /// Has a home server die or come back.
    pub fn turn_over(&mut self, chance: &mut Chance) {
        let place = chance.below(3) as usize;
        if let Some(dead) = self.dead.get_mut(place) {
            *dead = !*dead;
        }
    }

    /// Carries a datagram to the proxy. It may be lost, duplicated, delayed or reordered.
    pub fn carry(
        &mut self,
        chance: &mut Chance,
        setting: &Setting,
        now: u64,
        lane: Option<u16>,
        mail: Mail,
    ) -> Result<(), Rule> {
        if chance.strikes(setting.losses) {
            return Ok(());
        }
        if chance.strikes(setting.losses) {
            self.fly_twice(now.saturating_add(chance.below(300)), lane, &mail)?;
        }
        self.fly(now.saturating_add(delay(chance, setting)), lane, mail)
    }

    /// Puts a copy of a datagram on its way.
    fn fly_twice(&mut self, at: u64, lane: Option<u16>, mail: &Mail) -> Result<(), Rule> {
        self.fly(at, lane, mail.copy(self.alloc)?)
    }

    fn fly(&mut self, at: u64, lane: Option<u16>, mail: Mail) -> Result<(), Rule> {
        self.flying.push(Flying { at, lane, mail })?;
        Ok(())
    }

    /// Removes and returns what arrives at a lane, or at the front, by a moment: the datagram that was sent first.
    pub fn arrive(&mut self, now: u64, lane: Option<u16>) -> Option<Mail> {
        let place = self.find(now, lane)?;
        if place >= self.flying.len() {
            return None;
        }
        let Flying { mail, .. } = self.flying.remove(place);
        Some(mail)
    }

    fn find(&self, now: u64, lane: Option<u16>) -> Option<usize> {
        for (place, flying) in self.flying.as_slice().iter().enumerate() {
            if flying.at <= now && flying.lane == lane {
                return Some(place);
            }
        }
        None
    }

    /// Puts the datagrams that a worker did not receive on their way again.
    pub fn give_back(
        &mut self,
        arrivals: Vec<Arrival>,
        now: u64,
        lane: Option<u16>,
    ) -> Result<(), Rule> {
        for arrival in arrivals {
            let Arrival { came, .. } = arrival;
            if let Came::Datagram(mail) = came {
                self.fly(now, lane, mail)?;
            }
        }
        Ok(())
    }

    /// Delivers what a lane sent to its home server, unless it is lost.
    pub fn reach_home(
        &mut self,
        chance: &mut Chance,
        setting: &Setting,
        now: u64,
        lane: u16,
        gone: &Gone,
    ) -> Result<(), Rule> {
        if chance.strikes(setting.losses) {
            return Ok(());
        }
        match self.world.place_of(lane, gone.octets.as_slice()) {
            Some(place) => self.deliver(chance, setting, now, lane, place),
            None => Ok(()),
        }
    }

    /// Delivers something that a lane sent at some time, perhaps once more.
    pub fn deliver_late(
        &mut self,
        chance: &mut Chance,
        setting: &Setting,
        now: u64,
    ) -> Result<(), Rule> {
        let lane = (chance.below(setting.homes.len() as u64) & 3) as u16;
        let place = chance.below(self.world.sent(lane) as u64) as usize;
        self.deliver(chance, setting, now, lane, place)
    }

    /// Has a home server receive what stands at this place of what its lane sent. It replies, or does not, or replies late, twice or
    /// wrongly.
    fn deliver(
        &mut self,
        chance: &mut Chance,
        setting: &Setting,
        now: u64,
        lane: u16,
        place: usize,
    ) -> Result<(), Rule> {
        let is_dead = self.dead.get(usize::from(lane)).copied().unwrap_or(false);
        if is_dead && !setting.is_hurried {
            return Ok(());
        }
        let Some(departed) = self.world.departed(lane, place) else {
            return Ok(());
        };
        let made = reply_of(self.alloc, departed, lane, chance, setting)?;
        let Some(mut mail) = made else {
            return Ok(());
        };
        self.world.receives(lane, place)?;
        self.world.replies(lane, place, mail.octets.as_slice())?;
        if !setting.is_hurried {
            spoil(&mut mail, chance)?;
        }
        self.carry(chance, setting, now, Some(lane), mail)
    }
}

/// Returns the reply of a lane's home server to a datagram, if that is a packet.
fn reply_of(
    alloc: Global,
    departed: &Departed,
    lane: u16,
    chance: &mut Chance,
    setting: &Setting,
) -> Result<Option<Mail>, Rule> {
    let Some(home) = setting.homes.as_slice().get(usize::from(lane)) else {
        return Ok(None);
    };
    let Ok(sent) = read(departed.octets.as_slice()) else {
        return Ok(None);
    };
    let reply = reply_to(&sent, home, chance, setting);
    Ok(Some(Mail {
        from: departed.to,
        socket: departed.socket,
        octets: reply.bytes().to_vec(alloc)?,
    }))
}

/// Returns the right reply to a packet, without other attributes than its Proxy-States.
pub fn right_reply(sent: &PacketRef<'_>, secret: &Secret) -> Datagram {
    let mut reply = begun(ACCOUNTING_RESPONSE, sent.identifier(), [0; 16]);
    push_states(&mut reply, sent);
    sign_response(&mut reply, &sent.authenticator(), secret);
    reply
}

/// Returns the reply to a packet, in most cases with each Proxy-State in its order.
fn reply_to(sent: &PacketRef<'_>, home: &Home, chance: &mut Chance, setting: &Setting) -> Datagram {
    let fault = if setting.is_hurried {
        99
    } else {
        chance.below(40)
    };
    let code = if fault == 0 {
        STATUS_SERVER
    } else {
        ACCOUNTING_RESPONSE
    };
    let mut reply = begun(code, sent.identifier(), [0; 16]);
    if chance.is_one_in(3) {
        push(&mut reply, CLASS, b"before");
    }
    if fault != 1 {
        push_states(&mut reply, sent);
    }
    match fault {
        2 => push(&mut reply, MESSAGE_AUTHENTICATOR, &[0; 16]),
        3 => push(&mut reply, PROXY_STATE, b"later"),
        4..=9 => push(&mut reply, CLASS, b"behind"),
        _ => {}
    }
    sign_response(&mut reply, &sent.authenticator(), &home.secret);
    reply
}

/// Spoils one reply in a few: flips a bit, cuts it short, changes its sender or its socket, or appends octets.
fn spoil(mail: &mut Mail, chance: &mut Chance) -> Result<(), Rule> {
    match chance.below(50) {
        0 => turn_a_bit(&mut mail.octets, chance),
        1 => mail.octets.truncate(chance.below(40) as usize),
        2 => mail.from = nobody(mail.from, chance),
        3 => mail.socket = (chance.below(4) & 3) as u16,
        4 => mail.octets.extend_from_slice(&[0x21; 3])?,
        _ => {}
    }
    Ok(())
}

/// Adds the Proxy-States of a packet, in their order.
fn push_states(draft: &mut Datagram, sent: &PacketRef<'_>) {
    for attribute in sent.attributes() {
        if attribute.kind == PROXY_STATE {
            push(draft, PROXY_STATE, attribute.value);
        }
    }
}

/// Returns an endpoint that differs from a home server's in its address, or in its port.
fn nobody(home: Endpoint, chance: &mut Chance) -> Endpoint {
    let mut nobody = home;
    if chance.is_one_in(2) {
        nobody.address = [127, 0, 0, 3];
    } else {
        nobody.port = 2815;
    }
    nobody
}

/// Returns how many milliseconds a datagram is on its way.
fn delay(chance: &mut Chance, setting: &Setting) -> u64 {
    if setting.is_hurried {
        return 0;
    }
    match chance.below(20) {
        0 if chance.is_one_in(4) => chance.below(300_000),
        0 => chance.below(5000),
        1..=4 => chance.below(400),
        5..=10 => chance.below(30),
        _ => 0,
    }
}
