//! Hearing a datagram from the home server.

ghost use Rattle.std.specs.Prelude.{◌≡◌, ◌≤◌, ℕ, List, IfOk, IfErr};
ghost use Rattle.rad_packet.specs.Packet.{code_of, identifier_of};
ghost use Rattle.rad_packet.specs.Reading.{ReadsAs};
ghost use Rattle.rad_lane.specs.Book.{moment_in};
ghost use Rattle.rad_lane.specs.declared.hearing.HearFault.TheVariants.{OutOfMemory};
ghost use Rattle.rad_lane.specs.Hears.{Hears, with_answer};
ghost use Rattle.rad_lane.specs.internal.KeepAnswer.{AnswersSending};

use crate::answered::AnswerIndex;
use crate::watch::free;
use crate::{Answered, Entry, Lane, Outgoing, Record};
use block_queue::Fifo;
use rad_auth::{ACCOUNTING_RESPONSE, ReplyFault, check_response};
use rad_packet::{PacketRef, ReadFault, read};
use rad_tables::{Moment, Slot};
use std::alloc::Global;
use std::fmt;

/// How a datagram from the home server was heard.
#[derive(Drop)]
pub enum Heard {
    /// It is the verified reply to a request. The response goes to the client.
    Answer(Outgoing),
    /// It is the valid answer to the probe.
    ProbeAnswered,
}

/// Why a datagram from the home server is not heard. If several reasons apply, the first in this order is returned. A
/// fault is printed as its name; after `Unread` follows the name of the read fault.
#[derive(Clone, Copy, Debug, PartialEq, Eq)]
pub enum HearFault {
    /// It is not a packet.
    Unread(ReadFault),
    /// It is not an Accounting-Response.
    WrongCode,
    /// Nothing is outstanding under its pair of source port and Identifier.
    Unknown,
    /// Its Response Authenticator is not valid.
    BadAuthenticator,
    /// It is a reply to a request and has a Message-Authenticator.
    MessageAuthenticatorHere,
    /// It is a reply to a request, and its last Proxy-State is not the mark of the sending, or it has no Proxy-State.
    NoProxyState,
    /// Memory was refused.
    OutOfMemory,
}

/// Each such fault, at its place. One read fault stands for all.
pub const HEAR_FAULTS: &[HearFault] = &[
    HearFault::Unread(ReadFault::Short),
    HearFault::WrongCode,
    HearFault::Unknown,
    HearFault::BadAuthenticator,
    HearFault::MessageAuthenticatorHere,
    HearFault::NoProxyState,
    HearFault::OutOfMemory,
];

impl HearFault {
    ghost use Rattle.std.specs.Prelude.{◌≡◌};
    ghost use Rattle.rad_lane.specs.Printed.{hear_fault_name, hear_fault_place};

    /// Returns the name of the fault, without the read fault.
    pub fn name(self) -> &'static str
        ensures { result.now ≡ hear_fault_name self }
    {
        match self {
            HearFault::Unread(_) => "Unread",
            HearFault::WrongCode => "WrongCode",
            HearFault::Unknown => "Unknown",
            HearFault::BadAuthenticator => "BadAuthenticator",
            HearFault::MessageAuthenticatorHere => "MessageAuthenticatorHere",
            HearFault::NoProxyState => "NoProxyState",
            HearFault::OutOfMemory => "OutOfMemory",
        }
    }

    /// Returns the index of the fault in [`HEAR_FAULTS`]. All read faults have one.
    pub fn place(self) -> usize
        ensures { result ≡ hear_fault_place self }
    {
        match self {
            HearFault::Unread(_) => 0,
            HearFault::WrongCode => 1,
            HearFault::Unknown => 2,
            HearFault::BadAuthenticator => 3,
            HearFault::MessageAuthenticatorHere => 4,
            HearFault::NoProxyState => 5,
            HearFault::OutOfMemory => 6,
        }
    }
}

impl fmt::Display for HearFault {
    ghost use Rattle.std.specs.Prelude.{Some};
    ghost use Rattle.rad_lane.specs.Printed.{hear_fault_text};

    ghost output = { λ fault. Some (hear_fault_text fault) };

    fn fmt<W: fmt::Write>(&self, f: &mut fmt::Formatter<W>) -> fmt::Result {
        match self {
            HearFault::Unread(fault) => write!(f, "Unread {fault}"),
            fault => f.write_str(fault.name()),
        }
    }
}

impl From<ReadFault> for HearFault {
    ghost use Rattle.std.specs.Prelude.{◌≡◌};
    ghost use Rattle.rad_lane.specs.declared.hearing.HearFault.TheVariants.{Unread};

    ghost from_gives = { λ read fault. fault ≡ Unread read };

    fn from(fault: ReadFault) -> HearFault {
        HearFault::Unread(fault)
    }
}

impl From<ReplyFault> for HearFault {
    ghost use Rattle.std.specs.Prelude.{◌≡◌};
    ghost use Rattle.rad_lane.specs.Hears.{fault_of};

    ghost from_gives = { λ reply fault. fault ≡ fault_of reply };

    fn from(fault: ReplyFault) -> HearFault {
        match fault {
            ReplyFault::BadAuthenticator => HearFault::BadAuthenticator,
            ReplyFault::MessageAuthenticatorHere => HearFault::MessageAuthenticatorHere,
            ReplyFault::NoProxyState => HearFault::NoProxyState,
            ReplyFault::OutOfMemory => HearFault::OutOfMemory,
        }
    }
}

impl<Q: Fifo<Record>> Lane<Q> {
    /// Hears a datagram that arrived from the home server at source port `port` of the lane, counted from 0. A
    /// verified reply to a sending is kept as the answer to its request, and the response is returned. A valid answer
    /// to the probe is reported. Either marks the home server up if it is marked down.
    ///
    /// It looks up once what was sent under the pair, and hashes the reply once and the response once. Marking the
    /// home server up changes each outstanding sending. If the list of answers grows, at most a few of them are
    /// moved, unless memory was refused again and again until the list was full.
    ///
    /// # Errors
    ///
    /// The first [`HearFault`] that applies. The lane is unchanged.
    pub fn hear(
        &mut self,
        alloc: Global,
        moment: Moment,
        port: u16,
        datagram: &[u8],
    ) -> Result<Heard, HearFault>
        ensures { Hears self.old moment port datagram.now result self.new }
    {
        let packet = read(datagram)?;
        if packet.code() != ACCOUNTING_RESPONSE {
            return Err(HearFault::WrongCode);
        }
        let slot = Slot {
            port,
            identifier: packet.identifier(),
        };
        let now = self.moment_of(moment);
        self.hear_response(alloc, now, slot, &packet)
    }

    fn hear_response(
        &mut self,
        alloc: Global,
        now: Moment,
        slot: Slot,
        packet: &PacketRef<'_>,
    ) -> Result<Heard, HearFault>
        requires later { self.old.last ≤ now }
        requires code { code_of packet.now ≡ 5 }
        requires identifier { slot.identifier ≡ identifier_of packet.now }
        ensures { (moment : ℕ) (datagram : List ℕ) → now ≡ moment_in self.old moment → ReadsAs datagram packet.now → Hears self.old moment slot.port datagram result self.new }
    {
        match self.slots.get(slot) {
            None => Err(HearFault::Unknown),
            Some(Entry::Probe(probe)) => {
                if !check_response(packet, &probe.authenticator(), self.setup.home()) {
                    return Err(HearFault::BadAuthenticator);
                }
                self.go_up_if_down(now);
                Ok(Heard::ProbeAnswered)
            }
            Some(Entry::Sending(sending)) => {
                let (answer, outgoing) = sending.answer(alloc, packet, now, self.served)?;
                self.keep_answer(slot, answer, now)?;
                self.go_up_if_down(now);
                Ok(Heard::Answer(outgoing))
            }
        }
    }

    /// If the list of answers grows, at most a few of them are moved, unless memory was refused again and again until
    /// the list was full.
    fn keep_answer(&mut self, slot: Slot, answer: Answered, now: Moment) -> Result<(), HearFault>
        requires later { self.old.last ≤ now }
        requires answers { AnswersSending self.old now slot answer }
        ensures ok { IfOk result (λ _. self.new ≡ with_answer self.old now slot answer) }
        ensures err { IfErr result (λ fault. (fault ≡ OutOfMemory) × (self.new ≡ self.old)) }
    {
        let Ok(()) = self.answered.reserve_one() else {
            return Err(HearFault::OutOfMemory);
        };
        let place = (answer.stamp().number - self.opening) as usize;
        free(&mut self.slots, Some(slot));
        self.indices.set(
            place,
            Some(AnswerIndex {
                serial: self.served,
                moment: now,
            }),
        );
        self.answered.push(answer);
        self.served += 1;
        self.outstanding -= 1;
        self.last = now;
        Ok(())
    }
}
