//! An example of a lane's use, from its configuration to its end. One request of a NAS is accepted, forwarded and
//! answered, and its repeat is answered again. The home server is marked down by another one, and marked up by the
//! answer to a probe.

ghost use Rattle.std.specs.Prelude.{IsTrue, ◌↔◌};
ghost use Rattle.rad_lane.specs.Accepts.{IsTaken};
ghost use Rattle.rad_lane.specs.Runs.{TakesEach};

use super::answers::Gives::{
    Accepted, Answered, Drained, Idle, ProbeAnswered, Probed, Resent, Sent, Turned, WentDown,
};
use super::answers::{Row, gave};
use crate::comparing::holds;
use crate::configured::with_one_home;
use crate::homes::{FORWARDED, REPLY, SECOND_FORWARDED, SECOND_PROBE, SECOND_PROBE_ANSWER};
use crate::nas::{REQUEST, RESPONSE, SECOND_REQUEST};
use block_queue::BlockQueue;
use rad_lane::{Event, Lane, Leftover, Record, Setup, Taken, run};
use rad_realms::{Checked, Config, Incoming, check_in};
use rad_tables::Moment;
use std::alloc::Global;
use std::test::Fail;

const KEYS: &str = "tries = 1";

/// The client's IPv4 address.
const CLIENT: [u8; 4] = [10, 0, 0, 1];

/// The UDP port that it sends from.
pub(super) const CLIENT_PORT: u16 = 40_000;

/// The Authenticator of each probe.
const RANDOM: [u8; 16] = [0xa5; 16];

/// The empty lane of the first home server of a configuration.
pub(super) fn lane_of(alloc: Global, config: &Config) -> Result<Lane<BlockQueue<Record>>, Fail> {
    if config.homes().is_empty() {
        return Err(Fail::from("a home server"));
    }
    let setup = Setup::of(alloc, config, 0)?;
    Ok(Lane::new(alloc, setup)?)
}

/// Checks a datagram of the client: its authenticator, and that it leads to a lane. `None` where it is no such request.
pub(super) fn checked<'a>(config: &'a Config, datagram: &'a [u8]) -> Option<Checked<'a>> {
    match check_in(config, CLIENT, CLIENT_PORT, datagram) {
        Ok(Incoming::Request(request)) => Some(request),
        _ => None,
    }
}

/// Returns whether a lane takes a request.
pub(super) fn takes(lane: &Lane<BlockQueue<Record>>, request: &Checked<'_>) -> bool
    ensures { IsTrue result ↔ IsTaken lane.now request.now }
{
    lane.takes(request)
}

pub(super) fn moment(milliseconds: u32) -> Moment {
    Moment::new(u64::from(milliseconds)).unwrap()
}

/// What is given. The datagram passes from call to call. The volume has the first request, and its answer.
const ROWS: &[Row<'static>] = &[
    (Accepted(Taken::New(0)), &[]),
    (Sent(0, 0), &FORWARDED),
    (Answered(0, CLIENT_PORT), &RESPONSE),
    (Idle, &FORWARDED),
    (Accepted(Taken::New(1)), &FORWARDED),
    (Sent(1, 1), &SECOND_FORWARDED),
    (WentDown, &SECOND_FORWARDED),
    (Probed(2), &SECOND_PROBE),
    (ProbeAnswered, &SECOND_PROBE),
    (Resent(1, 1), &SECOND_FORWARDED),
    (Drained(2), &SECOND_FORWARDED),
    (Accepted(Taken::Again(0)), &RESPONSE),
    (Turned(0, 1, 1), &RESPONSE),
];

fn runs(alloc: Global, lane: &mut Lane<BlockQueue<Record>>, events: &[Event<'_, '_>]) -> bool
    requires { TakesEach lane.old events.now }
{
    match run(alloc, lane, events) {
        Ok(gives) => gave(gives.as_slice(), ROWS),
        Err(_) => false,
    }
}

/// Runs all events, and returns whether they gave what they should. The book is turned a span after the first answer.
fn runs_all<'x, 'c>(
    alloc: Global,
    lane: &mut Lane<BlockQueue<Record>>,
    first: &'x Checked<'c>,
    second: &'x Checked<'c>,
) -> bool
    requires first { IsTaken lane.old first.now }
    requires second { IsTaken lane.old second.now }
{
    let (sent, answered, due) = (moment(0), moment(5), moment(2005));
    let events = [
        Event::Accept(first, sent),
        Event::Step(sent, RANDOM),
        Event::Hear(answered, 0, &REPLY),
        Event::Step(answered, RANDOM),
        Event::Accept(second, answered),
        Event::Step(answered, RANDOM),
        Event::Step(due, RANDOM),
        Event::Step(due, RANDOM),
        Event::Hear(due, 0, &SECOND_PROBE_ANSWER),
        Event::Step(due, RANDOM),
        Event::Drain,
        Event::Accept(first, due),
        Event::Turn(moment(30_005)),
    ];
    runs(alloc, lane, &events)
}

/// Runs the events on requests that the lane takes.
fn plays(alloc: Global, config: &Config, lane: &mut Lane<BlockQueue<Record>>) -> bool {
    let Some(first) = checked(config, &REQUEST) else {
        return false;
    };
    let Some(second) = checked(config, &SECOND_REQUEST) else {
        return false;
    };
    takes(lane, &first) && takes(lane, &second) && runs_all(alloc, lane, &first, &second)
}

/// Closes a lane. No other function does, since each would have to prove that it may drop what is left.
pub(super) fn end(lane: Lane<BlockQueue<Record>>) {
    discard(lane.close());
}

fn discard(_left: Leftover<BlockQueue<Record>>) {}

/// Makes all calls of a new lane, and closes it. Returns whether they gave what they should.
fn lives(alloc: Global, config: &Config) -> Result<bool, Fail> {
    let mut lane = lane_of(alloc, config)?;
    let is_right = plays(alloc, config, &mut lane);
    end(lane);
    Ok(is_right)
}

#[test]
fn a_request_is_taken_forwarded_and_answered(rt: HostRuntime) -> Result<(), Fail> {
    let config = with_one_home(rt.alloc(), KEYS)?;
    let lived = lives(rt.alloc(), &config);
    drop(config);
    holds(&rt, lived?);
    Ok(())
}
