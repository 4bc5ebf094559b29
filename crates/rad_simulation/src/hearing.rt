//! How a lane hears a datagram of its home server, by the rules.

use crate::book::{Book, Out, place_of};
use crate::making::{last_value, mark_value, response};
use crate::rules::Rule;
use crate::setting::client_secret;
use rad_auth::{ACCOUNTING_RESPONSE, MESSAGE_AUTHENTICATOR, PROXY_STATE, check_response};
use rad_desk::DeskFault;
use rad_lane::HearFault;
use rad_packet::{PacketRef, read};

/// What became of a datagram of the home server.
#[derive(Clone, Copy)]
pub enum Hearing {
    Answer(u64),
    ProbeAnswered,
    Fault(DeskFault),
}

impl Book {
    /// Hears a datagram of the home server that arrived at a source port.
    pub fn hear(&mut self, moment: u64, port: u16, datagram: &[u8]) -> Result<Hearing, Rule> {
        if self.untaken() as u64 >= u64::from(self.limits.ring) {
            return Ok(Hearing::Fault(DeskFault::RingFull));
        }
        let packet = match read(datagram) {
            Ok(packet) => packet,
            Err(fault) => return Ok(fault_of(HearFault::Unread(fault))),
        };
        match self.check_reply(port, &packet) {
            Ok(place) => self.heard(moment.max(self.last), place, &packet),
            Err(fault) => Ok(fault_of(fault)),
        }
    }

    /// Returns the place of the outstanding request or the probe that a packet of the home server answers.
    fn check_reply(&self, port: u16, packet: &PacketRef<'_>) -> Result<usize, HearFault> {
        if packet.code() != ACCOUNTING_RESPONSE {
            return Err(HearFault::WrongCode);
        }
        let pair = u32::from(port)
            .saturating_mul(256)
            .saturating_add(u32::from(packet.identifier()));
        let Some((place, out)) = self.find_out(pair) else {
            return Err(HearFault::Unknown);
        };
        let Ok(sent) = read(out.octets.as_slice()) else {
            return Err(HearFault::Unknown);
        };
        if !check_response(packet, &sent.authenticator(), &self.secret) {
            return Err(HearFault::BadAuthenticator);
        }
        let Some(number) = out.number else {
            return Ok(place);
        };
        if packet.count_of(MESSAGE_AUTHENTICATOR) > 0 {
            return Err(HearFault::MessageAuthenticatorHere);
        }
        let mark = mark_value(self.lane, number);
        if last_value(packet, PROXY_STATE) != Some(mark.as_slice()) {
            return Err(HearFault::NoProxyState);
        }
        Ok(place)
    }

    /// Returns the outstanding request or the probe of a pair, and its place.
    pub fn find_out(&self, pair: u32) -> Option<(usize, &Out)> {
        for (place, out) in self.out.as_slice().iter().enumerate() {
            if out.pair == pair {
                return Some((place, out));
            }
        }
        None
    }

    /// Keeps the reply to the outstanding request or the probe at a place.
    fn heard(&mut self, now: u64, place: usize, reply: &PacketRef<'_>) -> Result<Hearing, Rule> {
        self.last = now;
        let heard = match self.number_at(place) {
            Some(number) => self.replied(now, place, number, reply)?,
            None => Hearing::ProbeAnswered,
        };
        if self.down.is_some() {
            self.go_up(now);
        }
        Ok(heard)
    }

    /// Keeps the reply to the outstanding request of a number, at a place.
    fn replied(
        &mut self,
        now: u64,
        place: usize,
        number: u64,
        reply: &PacketRef<'_>,
    ) -> Result<Hearing, Rule> {
        self.answer(now, number, reply)?;
        let serial = self.answers.len() as u64;
        self.answers.push(number)?;
        self.remove_out(place);
        Ok(Hearing::Answer(serial))
    }

    /// Returns the number of the outstanding request at a place.
    pub fn number_at(&self, place: usize) -> Option<u64> {
        self.out.as_slice().get(place)?.number
    }

    /// Answers a request with a reply: makes its response.
    fn answer(&mut self, now: u64, number: u64, reply: &PacketRef<'_>) -> Result<(), Rule> {
        let alloc = self.alloc;
        if let Some(place) = place_of(number)
            && let Some(asked) = self.asked.as_mut_slice().get_mut(place)
            && let Some(secret) = client_secret(asked.from.address)
        {
            let made = response(reply, asked.identifier, &asked.authenticator, &secret);
            asked.response = made.bytes().to_vec(alloc)?;
            asked.answered = Some(now);
        }
        Ok(())
    }
}

fn fault_of(fault: HearFault) -> Hearing {
    Hearing::Fault(DeskFault::Lane(fault))
}
