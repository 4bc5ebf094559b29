use crate::{Outgoing, Stamp};
use block_queue::{Numbered, Share};
use rad_auth::Reply;
use rad_tables::Moment;
use std::alloc::{AllocError, Global};
use std::marker::Model;
use std::sync::Arc;

/// An answer to a request: the request's stamp, the moment of the answer, its serial, and the reply with the
/// response.
///
/// Its type keeps that the response answers that request, after a verified reply to the request's forwarded packet.
#[derive(Drop)]
pub struct Answered {
    /// The number of answers that the lane gave before it.
    serial: u64,
    /// The number of the request, which is in the stamp too. A cut looks at nothing else of an answer.
    number: u64,
    /// The rest of the answer. It is apart from the serial, so that a list of answers is small, and so that the copies
    /// that the list makes when it grows share it.
    kept: Arc<Kept, Global>,
}

/// An answer without its serial.
#[derive(Drop)]
struct Kept {
    /// The stamp of the request.
    stamp: Stamp,
    /// The moment of the answer.
    moment: Moment,
    /// The home server's reply and the response, with the sending and the secrets that they rest on.
    reply: Reply,
}

/// What a lane keeps for each answered request: the answer's serial, by which the answer is found, and the moment of
/// the answer.
#[derive(Clone, Copy)]
pub(crate) struct AnswerIndex {
    /// The number of answers that the lane gave before it.
    pub(crate) serial: u64,
    /// The moment of the answer.
    pub(crate) moment: Moment,
}

impl Model for Answered {
    ghost use Rattle.std.specs.Prelude.{◌≡◌};
    ghost use Rattle.std.specs.Arc.{arc_value};
    ghost use Rattle.rad_lane.specs.Outstanding.{AnswerKept, IsAnswered};

    ghost Value = { AnswerKept };

    ghost view = { λ a. record {
      stamp = (arc_value a.kept).stamp;
      moment = (arc_value a.kept).moment;
      serial = a.serial;
      reply = (arc_value a.kept).reply;
    } };

    ghost invariant = { λ a. (a.number ≡ (arc_value a.kept).stamp.number) × IsAnswered (record {
      stamp = (arc_value a.kept).stamp;
      moment = (arc_value a.kept).moment;
      serial = a.serial;
      reply = (arc_value a.kept).reply;
    }) };
}

impl Answered {
    ghost use Rattle.std.specs.Prelude.{◌≡◌, IfOk};
    ghost use Rattle.rad_lane.specs.Hears.{GoesOut};
    ghost use Rattle.rad_lane.specs.Outstanding.{IsAnswered};

    /// Returns the stamp of the request.
    pub fn stamp(&self) -> Stamp
        ensures value { result ≡ self.now.stamp }
        ensures answered { IsAnswered self.now }
    {
        self.kept.stamp
    }

    /// Returns the moment of the answer.
    pub fn moment(&self) -> Moment
        ensures { result ≡ self.now.moment }
    {
        self.kept.moment
    }

    /// Returns its serial: the number of answers that the lane gave before it.
    pub fn serial(&self) -> u64
        ensures { result ≡ self.now.serial }
    {
        self.serial
    }

    /// Returns the home server's reply and the response to the client.
    pub fn reply(&self) -> &Reply
        ensures value { result.now ≡ self.now.reply }
        ensures answered { IsAnswered self.now }
    {
        &self.kept.reply
    }

    fn new(
        alloc: Global,
        stamp: Stamp,
        moment: Moment,
        serial: u64,
        reply: Reply,
    ) -> Result<Answered, AllocError>
        requires { IsAnswered (record { stamp = stamp; moment = moment; serial = serial; reply = reply }) }
        ensures { IfOk result (λ answer. answer ≡ record { stamp = stamp; moment = moment; serial = serial; reply = reply }) }
    {
        let kept = Kept {
            stamp,
            moment,
            reply,
        };
        Ok(Answered {
            serial,
            number: stamp.number,
            kept: Arc::new(alloc, kept)?,
        })
    }

    /// Makes an answer, and the response on its way to the client. An error means that memory was refused.
    pub(crate) fn with_outgoing(
        alloc: Global,
        stamp: Stamp,
        moment: Moment,
        serial: u64,
        reply: Reply,
    ) -> Result<(Answered, Outgoing), AllocError>
        requires { IsAnswered (record { stamp = stamp; moment = moment; serial = serial; reply = reply }) }
        ensures answer { IfOk result (λ made. made.0 ≡ record { stamp = stamp; moment = moment; serial = serial; reply = reply }) }
        ensures out { IfOk result (λ made. GoesOut made.0 made.1) }
    {
        let answer = Answered::new(alloc, stamp, moment, serial, reply)?;
        let outgoing = answer.outgoing(alloc)?;
        Ok((answer, outgoing))
    }

    fn outgoing(&self, alloc: Global) -> Result<Outgoing, AllocError>
        ensures { IfOk result (GoesOut self.now) }
    {
        let client = self.kept.stamp.client;
        Ok(Outgoing {
            serial: self.serial,
            client,
            port: self.kept.stamp.port,
            reply: self.kept.reply.copy(alloc)?,
        })
    }
}

/// Sharing fails if the shared part has too many owners.
impl Share for Answered {
    fn share(&self) -> Result<Answered, AllocError> {
        Ok(Answered {
            serial: self.serial,
            number: self.number,
            kept: Arc::try_clone(&self.kept)?,
        })
    }
}

/// The number is that of the request.
impl Numbered for Answered {
    ghost number_of = { λ a. a.stamp.number };

    fn number(&self) -> u64 {
        self.number
    }
}
