//! What the calls of a run give.

use rad_lane::{Action, Given, GivenAnswer, Heard, Taken, Volume};
use rad_packet::Datagram;

/// What a call gives, without the packets.
#[derive(Clone, Copy, PartialEq, Eq)]
pub enum Gives {
    Accepted(Taken),
    /// The request of this number is sent, under this Identifier of the first source port.
    Sent(u64, u8),
    /// It is sent again.
    Resent(u64, u8),
    /// The home server is probed, under this Identifier of the first source port.
    Probed(u8),
    WentDown,
    /// There is nothing to do until something arrives.
    Idle,
    /// The response of this serial goes to this port of the client.
    Answered(u64, u16),
    ProbeAnswered,
    /// So many requests had been accepted.
    Drained(u64),
    /// A volume begins with the request of this number, and has so many requests and answers.
    Turned(u64, usize, usize),
    /// What no call of these tests is to give.
    Other,
}

/// A call's answer, and the octets that it hands out, or else those of the datagram.
pub type Row<'a> = (Gives, &'a [u8]);

/// Returns whether a run gave these answers, with these octets.
pub fn gave(gives: &[Given], wanted: &[Row<'_>]) -> bool {
    for (given, (answer, octets)) in gives.iter().zip(wanted) {
        if answer_of(&given.answer) != *answer || octets_of(given) != *octets {
            return false;
        }
    }
    gives.len() == wanted.len()
}

fn answer_of(answer: &GivenAnswer) -> Gives {
    match answer {
        GivenAnswer::Accept(Ok(taken)) => Gives::Accepted(*taken),
        GivenAnswer::Step(action) => done(*action),
        GivenAnswer::Hear(Ok(heard)) => told(heard),
        GivenAnswer::Drain(count) => Gives::Drained(*count),
        GivenAnswer::Turn(Ok(volume)) => turned(volume),
        _ => Gives::Other,
    }
}

fn done(action: Action) -> Gives {
    match action {
        Action::Sent(number, pair) if pair.port == 0 => Gives::Sent(number, pair.identifier),
        Action::Resent(number, pair) if pair.port == 0 => Gives::Resent(number, pair.identifier),
        Action::Probed(pair) if pair.port == 0 => Gives::Probed(pair.identifier),
        Action::WentDown => Gives::WentDown,
        Action::Idle(None) => Gives::Idle,
        _ => Gives::Other,
    }
}

fn told(heard: &Heard) -> Gives {
    match heard {
        Heard::Answer(outgoing) => Gives::Answered(outgoing.serial, outgoing.port),
        Heard::ProbeAnswered => Gives::ProbeAnswered,
    }
}

fn turned(volume: &Volume) -> Gives {
    Gives::Turned(
        volume.opening,
        volume.stamps.as_slice().len(),
        volume.answered.as_slice().len(),
    )
}

/// The response to the client, or else what the datagram has.
fn octets_of(given: &Given) -> &[u8] {
    match &given.answer {
        GivenAnswer::Hear(Ok(Heard::Answer(outgoing))) => outgoing.reply.response(),
        _ => octets_in(&given.datagram),
    }
}

/// The octets of a datagram that has a packet of its own, or none.
fn octets_in(datagram: &Datagram) -> &[u8] {
    let octets = datagram.bytes();
    if octets == Datagram::new().bytes() {
        return &[];
    }
    octets
}
