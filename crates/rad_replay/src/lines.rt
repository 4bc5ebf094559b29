//! The lines of the results of events.

ghost use Rattle.std.specs.Prelude.{◌≡◌, ◌≤◌, length};

use crate::packet_text::{PacketText, SentHeadText, SentText};
use crate::path::PathFault;
use rad_auth::Reply;
use rad_desk::laws::Handled;
use rad_desk::{DeskFault, Told};
use rad_lane::{Action, Outgoing, Taken, TurnFault, Volume};
use rad_realms::AddressText;
use rad_tables::Moment;
use std::fmt;

/// The line of a NAS's datagram.
#[derive(Clone, Copy)]
pub struct NasLine<'a> {
    pub outcome: Result<Handled, PathFault>,
    /// The packet that was written for the datagram.
    pub written: PacketText<'a>,
}

/// The result of a checked datagram of a NAS, as it is printed.
#[derive(Clone, Copy)]
struct HandledText<'a> {
    handled: Handled,
    /// The packet that was written for the datagram.
    written: PacketText<'a>,
}

/// A lane, and the number of a request or of a response there.
#[derive(Clone, Copy)]
struct RequestText {
    lane: u16,
    number: u64,
}

/// The line of a lane's step.
#[derive(Clone, Copy)]
pub struct StepLine<'a> {
    pub action: Action,
    /// The packet that the step gave to be sent.
    pub sent: SentText<'a>,
}

/// An idle step, with the moment at which the lane has something to do next, if that is known.
#[derive(Clone, Copy)]
struct IdleText(Option<Moment>);

/// The line of a datagram of a lane's home server.
#[derive(Clone, Copy)]
pub struct HomeLine {
    pub lane: u16,
    pub outcome: Result<Told, DeskFault>,
}

/// The line of the response that was taken from those that wait in a lane's ring, if one waited.
#[derive(Drop)]
pub struct TakeLine {
    pub taken: Option<Outgoing>,
}

/// The line of the removal of a volume from a lane's book.
#[derive(Clone, Copy)]
pub struct TurnLine {
    pub lane: u16,
    pub outcome: Result<Cut, TurnFault>,
}

/// The size of a volume.
#[derive(Clone, Copy)]
pub struct Cut {
    /// The number of requests that were removed.
    pub count: usize,
    /// The number of the first request that the book holds from then on.
    pub opening: u64,
}

impl fmt::Display for NasLine<'_> {
    ghost use Rattle.std.specs.Prelude.{Some};
    ghost use Rattle.rad_replay.specs.Lines.{nas_line};

    ghost output = { λ line. Some (nas_line line.outcome line.written.octets.now) };

    fn fmt<W: fmt::Write>(&self, f: &mut fmt::Formatter<W>) -> fmt::Result {
        match self.outcome {
            Ok(handled) => {
                let handled = HandledText {
                    handled,
                    written: self.written,
                };
                write!(f, "nas: {handled}")
            }
            Err(fault) => write!(f, "nas: {fault}"),
        }
    }
}

impl fmt::Display for HandledText<'_> {
    ghost use Rattle.std.specs.Prelude.{Some};
    ghost use Rattle.rad_replay.specs.Lines.{handled_text};

    ghost output = { λ text. Some (handled_text text.handled text.written.octets.now) };

    fn fmt<W: fmt::Write>(&self, f: &mut fmt::Formatter<W>) -> fmt::Result {
        let written = self.written;
        match self.handled {
            Handled::Answered => write!(f, "status {written}"),
            Handled::Taken(lane, Taken::New(number)) => {
                let request = RequestText { lane, number };
                write!(f, "new {request}")
            }
            Handled::Taken(lane, Taken::Waiting(number)) => {
                let request = RequestText { lane, number };
                write!(f, "waiting {request}")
            }
            Handled::Taken(lane, Taken::Again(number)) => {
                let request = RequestText { lane, number };
                write!(f, "again {request} {written}")
            }
        }
    }
}

impl fmt::Display for RequestText {
    ghost use Rattle.std.specs.Prelude.{Some};
    ghost use Rattle.rad_replay.specs.Lines.{request_text};

    ghost output = { λ request. Some (request_text request.lane request.number) };

    fn fmt<W: fmt::Write>(&self, f: &mut fmt::Formatter<W>) -> fmt::Result {
        let RequestText { lane, number } = *self;
        write!(f, "{lane} {number}")
    }
}

impl fmt::Display for PathFault {
    ghost use Rattle.std.specs.Prelude.{Some};
    ghost use Rattle.rad_replay.specs.Lines.{path_fault_text};

    ghost output = { λ fault. Some (path_fault_text fault) };

    fn fmt<W: fmt::Write>(&self, f: &mut fmt::Formatter<W>) -> fmt::Result {
        match self {
            PathFault::Dropped(dropped) => write!(f, "dropped {dropped}"),
            PathFault::Refused(refusal) => write!(f, "refused {refusal}"),
        }
    }
}

impl fmt::Display for StepLine<'_> {
    ghost use Rattle.std.specs.Prelude.{Some};
    ghost use Rattle.rad_replay.specs.Lines.{step_line};

    ghost output = { λ line. Some (step_line line.action line.sent.port line.sent.packet.octets.now) };

    fn fmt<W: fmt::Write>(&self, f: &mut fmt::Formatter<W>) -> fmt::Result {
        let sent = self.sent;
        match self.action {
            Action::Sent(..) => write!(f, "step: sent {sent}"),
            Action::Resent(..) => write!(f, "step: resent {sent}"),
            Action::Probed(_) => {
                let head = SentHeadText(sent);
                write!(f, "step: probed {head}")
            }
            Action::WentDown => f.write_str("step: down"),
            Action::WentUp => f.write_str("step: up"),
            Action::Idle(next) => {
                let idle = IdleText(next);
                write!(f, "step: {idle}")
            }
        }
    }
}

impl fmt::Display for IdleText {
    ghost use Rattle.std.specs.Prelude.{Some};
    ghost use Rattle.rad_replay.specs.Lines.{idle_text};

    ghost output = { λ text. Some (idle_text text.0) };

    fn fmt<W: fmt::Write>(&self, f: &mut fmt::Formatter<W>) -> fmt::Result {
        match self.0 {
            Some(next) => {
                let next = next.get();
                write!(f, "idle {next}")
            }
            None => f.write_str("idle"),
        }
    }
}

impl fmt::Display for HomeLine {
    ghost use Rattle.std.specs.Prelude.{Some};
    ghost use Rattle.rad_replay.specs.Lines.{home_line};

    ghost output = { λ line. Some (home_line line.lane line.outcome) };

    fn fmt<W: fmt::Write>(&self, f: &mut fmt::Formatter<W>) -> fmt::Result {
        let lane = self.lane;
        match self.outcome {
            Ok(Told::Answer(number)) => {
                let request = RequestText { lane, number };
                write!(f, "home: answer {request}")
            }
            Ok(Told::ProbeAnswered) => f.write_str("home: probe"),
            Err(fault) => write!(f, "home: dropped {fault}"),
        }
    }
}

impl fmt::Display for TakeLine {
    ghost use Rattle.std.specs.Prelude.{Some};
    ghost use Rattle.rad_replay.specs.Lines.{take_line};

    ghost output = { λ line. Some (take_line line.taken) };

    fn fmt<W: fmt::Write>(&self, f: &mut fmt::Formatter<W>) -> fmt::Result {
        match &self.taken {
            Some(response) => {
                let client = AddressText(response.client);
                let port = response.port;
                let packet = PacketText::new(response_of(&response.reply));
                write!(f, "take: {client} {port} {packet}")
            }
            None => f.write_str("take: none"),
        }
    }
}

/// Returns the octets of a response, which its type guarantees to be a packet, as the contract of its head states.
fn response_of(reply: &Reply) -> &[u8]
    ensures value { result.now ≡ reply.now.response }
    ensures packet { 20 ≤ length result.now }
{
    let _head = reply.head();
    reply.response()
}

impl Cut {
    ghost use Rattle.std.specs.Prelude.{◌≡◌, ◌+◌, ◌-◌, ◌^◌, length, min};

    /// Returns the size of a volume.
    pub fn of(volume: &Volume) -> Cut
        ensures count { result.count ≡ length volume.now.stamps }
        ensures opening { result.opening ≡ min (volume.now.opening + length volume.now.stamps) (2 ^ 64 - 1) }
    {
        let count = volume.stamps.as_slice().len();
        Cut {
            count,
            opening: volume.opening.saturating_add(count as u64),
        }
    }
}

impl fmt::Display for TurnLine {
    ghost use Rattle.std.specs.Prelude.{Some};
    ghost use Rattle.rad_replay.specs.Lines.{turn_line};

    ghost output = { λ line. Some (turn_line line.lane line.outcome) };

    fn fmt<W: fmt::Write>(&self, f: &mut fmt::Formatter<W>) -> fmt::Result {
        let lane = self.lane;
        match self.outcome {
            Ok(Cut { count, opening }) => write!(f, "turn: {lane} {count} {opening}"),
            Err(fault) => write!(f, "turn: refused {fault}"),
        }
    }
}
