//! A run: a list of calls of one lane.

ghost use Rattle.std.specs.Prelude.{◌≡◌, IfOk, OnErr};
ghost use Rattle.rad_lane.specs.Datagrams.{Datagrams};
ghost use Rattle.rad_lane.specs.Headline.{Headline};
ghost use Rattle.rad_lane.specs.Lawful.{IsLawful};
ghost use Rattle.rad_lane.specs.Runs.{Gives, TakesEvent, TakesEach};

use crate::{Action, HearFault, Heard, Lane, Record, Refusal, Taken, TurnFault, Volume};
use block_queue::Fifo;
use rad_packet::Datagram;
use rad_realms::Checked;
use rad_tables::Moment;
use std::alloc::Global;

/// A call of a lane. One lifetime is that of the references, the other that of what the request borrows.
#[derive(Drop)]
pub enum Event<'a, 'c> {
    /// Accept a request at a moment.
    Accept(&'a Checked<'c>, Moment),
    /// Step at a moment, with octets for a probe's Authenticator.
    Step(Moment, [u8; 16]),
    /// Hear at a moment a datagram that arrived at a source port from the home server.
    Hear(Moment, u16, &'a [u8]),
    /// Drain the lane.
    Drain,
    /// Turn at a moment.
    Turn(Moment),
}

/// The result of a call of a lane.
#[derive(Drop)]
pub enum GivenAnswer {
    /// Of [`Event::Accept`].
    Accept(Result<Taken, Refusal>),
    /// Of [`Event::Step`].
    Step(Action),
    /// Of [`Event::Hear`].
    Hear(Result<Heard, HearFault>),
    /// Of [`Event::Drain`].
    Drain(u64),
    /// Of [`Event::Turn`].
    Turn(Result<Volume, TurnFault>),
}

/// The outcome of an event: the result of the call, and the datagram after it.
#[derive(Drop)]
pub struct Given {
    /// The result of the call.
    pub answer: GivenAnswer,
    /// A copy of the datagram, which passes from event to event.
    pub datagram: Datagram,
}

/// Why no run was made.
#[derive(Clone, Copy, Debug, PartialEq, Eq)]
pub enum RunFault {
    /// Memory was refused before the first event.
    OutOfMemory,
}

/// Makes the calls of these events in order, with one datagram that begins as [`Datagram::new`]. The request of each
/// [`Event::Accept`] must be one that the lane takes. Each result is kept with a copy of the datagram after it. The
/// memory for all results is taken before the first event, so no event is made whose result could not be kept.
///
/// # Errors
///
/// `OutOfMemory` if memory for the results is refused. The lane is unchanged.
pub fn run<Q: Fifo<Record>>(
    alloc: Global,
    lane: &mut Lane<Q>,
    events: &[Event<'_, '_>],
) -> Result<Vec<Given>, RunFault>
    requires { TakesEach lane.old events.now }
    ensures headline { IfOk result (λ gives. Headline lane.old events.now gives.items lane.new) }
    ensures stays { OnErr result (lane.new ≡ lane.old) }
{
    let Ok(mut gives) = Vec::with_capacity(alloc, events.len()) else {
        return Err(RunFault::OutOfMemory);
    };
    keep_law(lane);
    let mut datagram = Datagram::new();
    for event in events {
        let answer = give(alloc, lane, event, &mut datagram);
        gives.push_reserved(Given {
            answer,
            datagram: datagram.copy(),
        });
    }
    keep_law(lane);
    Ok(gives)
}

fn give<Q: Fifo<Record>>(
    alloc: Global,
    lane: &mut Lane<Q>,
    event: &Event<'_, '_>,
    datagram: &mut Datagram,
) -> GivenAnswer
    requires { TakesEvent lane.old event.now }
    ensures { Gives lane.old event.now result (record { before = datagram.old; after = datagram.new }) lane.new }
{
    match event {
        Event::Accept(request, moment) => {
            GivenAnswer::Accept(lane.accept(alloc, request, *moment, datagram))
        }
        Event::Step(moment, random) => GivenAnswer::Step(lane.step(*moment, *random, datagram)),
        Event::Hear(moment, port, octets) => {
            GivenAnswer::Hear(lane.hear(alloc, *moment, *port, octets))
        }
        Event::Drain => GivenAnswer::Drain(lane.drain()),
        Event::Turn(moment) => GivenAnswer::Turn(lane.turn(alloc, *moment)),
    }
}

/// For the proof: states that the book is lawful, as the lane's type keeps it.
fn keep_law<Q: Fifo<Record>>(lane: &Lane<Q>)
    ensures { IsLawful lane.now }
{
    let _ = lane.accepted();
}
