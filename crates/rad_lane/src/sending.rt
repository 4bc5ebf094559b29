ghost use Rattle.std.specs.Prelude.{◌≡◌, ◌+◌, ◌≤◌};
ghost use Rattle.rad_tables.specs.Waiting.{wait_of};

use crate::{Answered, Outgoing, Record, Setup};
use rad_auth::{Mark, Octets, ReplyFault, RequestHead, Secret, forward, respond};
use rad_packet::{Datagram, PacketRef};
use rad_tables::{Moment, wait_after};
use std::alloc::Global;
use std::marker::Model;

/// A request that was sent to the home server and is unanswered.
///
/// Its type keeps that the octets sent are the forwarded packet of its record.
#[derive(Drop)]
pub struct Sending {
    /// The record of the request.
    request: Record,
    /// The packet that was sent. Each retransmission has the same octets.
    octets: Octets,
    /// The number of sendings in this round.
    sendings: u32,
    /// When it is due to be retransmitted, in milliseconds.
    due: u64,
    /// The home server's secret. Each sending has a copy, so that its type can keep that its octets are signed with
    /// it, and so that the secret is known once the lane is closed.
    home: Secret,
    /// The number of sendings in a round. Each sending has a copy, since the slots look for spent entries and see
    /// nothing but the entries.
    tries: u32,
}

impl Model for Sending {
    ghost use Rattle.rad_lane.specs.Outstanding.{Outstanding, IsForwarded};

    ghost Value = { Outstanding };

    ghost view = { λ s. record { request = s.request.recorded; octets = s.octets; sendings = s.sendings; due = s.due; home = s.home; tries = s.tries } };

    ghost invariant = { λ s. IsForwarded (record { request = s.request.recorded; octets = s.octets; sendings = s.sendings; due = s.due; home = s.home; tries = s.tries }) };
}

impl Sending {
    ghost use Rattle.std.specs.Prelude.{◌≡◌, ◌<◌, ◌≤◌, IfOk, IfErr};
    ghost use Rattle.rad_packet.specs.Packet.{code_of, identifier_of};
    ghost use Rattle.rad_auth.specs.Refusing.{RefusesReply};
    ghost use Rattle.rad_lane.specs.Hears.{KeepsAnswer, GoesOut};
    ghost use Rattle.rad_lane.specs.internal.Invariant.{HasRoom};
    ghost use Rattle.rad_lane.specs.Outstanding.{IsForwarded, is_spent, octets_of, first_sending, renewed, sent_again};

    /// Returns the record whose forwarded packet was sent.
    pub fn request(&self) -> &Record
        ensures value { result.now.recorded ≡ self.now.request }
        ensures forwarded { IsForwarded self.now }
    {
        &self.request
    }

    /// Returns the octets that were sent. Each retransmission has the same octets.
    pub fn octets(&self) -> &[u8]
        ensures { result.now ≡ self.now.octets }
    {
        self.octets.as_slice()
    }

    /// Returns the number of sendings in this round.
    pub fn sendings(&self) -> u32
        ensures { result ≡ self.now.sendings }
    {
        self.sendings
    }

    /// Returns when it is due to be retransmitted, in milliseconds.
    pub fn due(&self) -> u64
        ensures { result ≡ self.now.due }
    {
        self.due
    }

    /// Returns the secret of the home server that it was sent to.
    pub fn home(&self) -> &Secret
        ensures { result.now ≡ self.now.home }
    {
        &self.home
    }

    /// Returns the number of sendings in a round.
    pub fn tries(&self) -> u32
        ensures { result ≡ self.now.tries }
    {
        self.tries
    }

    /// Sends a record for the first time: writes its forwarded packet into the datagram and keeps a copy in the
    /// record's spare buffer. It signs once and copies the packet twice.
    pub(crate) fn first(
        request: Record,
        setup: &Setup,
        identifier: u8,
        now: Moment,
        datagram: &mut Datagram,
    ) -> Sending
        requires { HasRoom request }
        ensures octets { datagram.new ≡ octets_of setup.now request.recorded identifier }
        ensures sending { result ≡ first_sending setup.now now request.recorded identifier }
    {
        let limits = setup.limits().numbers();
        let mark = Mark {
            lane: setup.lane(),
            number: request.stamp().number,
        };
        forward(&request.packet(), mark, identifier, setup.home(), datagram).unwrap();
        let mut request = request;
        let octets = request.fill_spare(datagram.bytes());
        Sending {
            request,
            octets,
            sendings: 1,
            due: due_after(now, limits.first_wait, 1),
            home: *setup.home(),
            tries: limits.tries,
        }
    }

    /// Returns the packet that was sent and that each retransmission repeats.
    pub(crate) fn packet(&self) -> PacketRef<'_>
        ensures { result ≡ self.now.octets }
    {
        PacketRef::over(self.octets.as_slice())
    }

    /// Returns the answer to its request and the outgoing response to the client, if the packet is a valid reply to
    /// this sending. It hashes the reply once and the response once.
    pub(crate) fn answer(
        &self,
        alloc: Global,
        packet: &PacketRef<'_>,
        now: Moment,
        serial: u64,
    ) -> Result<(Answered, Outgoing), ReplyFault>
        requires since { self.now.request.stamp.moment ≤ now }
        requires code { code_of packet.now ≡ 5 }
        requires identifier { identifier_of packet.now ≡ identifier_of self.now.octets }
        ensures kept { IfOk result (λ made. KeepsAnswer self.now.home now serial self.now packet.now made.0) }
        ensures out { IfOk result (λ made. GoesOut made.0 made.1) }
        ensures err { IfErr result (λ fault. RefusesReply self.now.octets packet.now self.now.home fault) }
    {
        let stamp = self.request.stamp();
        let authenticator = stamp.authenticator;
        let head = RequestHead {
            identifier: stamp.identifier,
            authenticator,
        };
        let client = self.request.client_secret();
        let reply = respond(alloc, head, &self.packet(), packet, client, &self.home)?;
        let Ok(made) = Answered::with_outgoing(alloc, stamp, now, serial, reply) else {
            return Err(ReplyFault::OutOfMemory);
        };
        Ok(made)
    }

    /// Returns the number of the request.
    pub(crate) fn number(&self) -> u64
        ensures { result ≡ self.now.request.stamp.number }
    {
        self.request.stamp().number
    }

    /// Returns whether it is spent: its round has used its `tries`.
    pub(crate) fn is_spent(&self) -> bool
        ensures { result ≡ is_spent self.now }
    {
        self.tries <= self.sendings
    }

    /// Counts one more sending, at this moment. The wait until it is due again doubles with each sending of a round,
    /// up to 120,000 milliseconds.
    pub(crate) fn send_again(&mut self, now: Moment, first_wait: u32)
        requires first_least { 100 ≤ first_wait }
        requires first_most { first_wait ≤ 60000 }
        requires few { self.old.sendings < 10 }
        ensures { self.new ≡ sent_again first_wait now self.old }
    {
        self.sendings += 1;
        self.due = due_after(now, first_wait, self.sendings);
    }

    /// Begins a new round, due at this moment.
    pub(crate) fn renew(&mut self, now: Moment)
        ensures { self.new ≡ renewed now self.old }
    {
        self.sendings = 0;
        self.due = now.get();
    }
}

/// Returns when a sending is due again after sending number `k` of its round at this moment, in milliseconds.
fn due_after(now: Moment, first_wait: u32, k: u32) -> u64
    requires first_least { 100 ≤ first_wait }
    requires first_most { first_wait ≤ 60000 }
    requires k_least { 1 ≤ k }
    requires k_most { k ≤ 10 }
    ensures { result ≡ now + wait_of first_wait k }
{
    now.get() + u64::from(wait_after(first_wait, k))
}
