//! A lane and a home server that answers, in rounds: the lane is stepped at one moment until it is idle, and then the
//! home server replies to all that it received. The bounds of `rad_progress` are reached, and not passed. The numbers of
//! the table are those of its definitions, worked out by hand.

use super::example::{CLIENT_PORT, checked, end, lane_of, moment, takes};
use crate::comparing::holds_at;
use crate::configured::with_one_home;
use block_queue::BlockQueue;
use rad_auth::{
    ACCOUNTING_REQUEST, ACCOUNTING_RESPONSE, PROXY_STATE, Secret, request_authenticator,
    response_authenticator,
};
use rad_lane::{Action, Heard, Lane, Record, Taken};
use rad_packet::Datagram;
use rad_realms::Config;
use std::alloc::Global;
use std::test::Fail;

const KEYS: &str =
    "tries = 1\nwindow = 2\nfirst_wait = 1000\ndown_wait = 10000\nprobe_every = 1000";

/// The Authenticator of each probe.
const RANDOM: [u8; 16] = [0x5a; 16];

/// What a round shows: the steps that were not idle, and how many requests are queued and outstanding behind it.
type Shown = (usize, usize, usize);

/// A moment in milliseconds, whether the home server replies then, and what is shown. Two requests are sent and not
/// answered, and three wait; the home server is marked down, and probed. Then its wait is over: the most steps are left,
/// one for each request of the window and one more. It replies from here on: the queue of three takes one round, and one
/// for each two requests, rounded up.
const ROUNDS: &[(u32, bool, Shown)] = &[
    (0, false, (2, 3, 2)),
    (1000, false, (2, 3, 2)),
    (11_000, true, (3, 3, 0)),
    (11_000, true, (2, 1, 0)),
    (11_000, true, (1, 0, 0)),
    (11_000, true, (0, 0, 0)),
];

/// A reply on its way, and the source port that it goes to.
type Reply = (u16, Datagram);

/// A request of the client, signed, with this Identifier.
fn request(identifier: u8, secret: &Secret) -> Datagram {
    let mut datagram = Datagram::new();
    datagram.begin(ACCOUNTING_REQUEST, identifier, [0; 16]);
    let _ = datagram.push(1, b"bob@example.org");
    let authenticator = request_authenticator(&datagram.packet(), secret);
    datagram.set_authenticator(authenticator);
    datagram
}

/// The home server's reply to what was sent, with its Proxy-States.
fn reply_to(sent: &Datagram, secret: &Secret) -> Datagram {
    let packet = sent.packet();
    let mut reply = Datagram::new();
    reply.begin(ACCOUNTING_RESPONSE, packet.identifier(), [0; 16]);
    for attribute in packet.attributes() {
        if attribute.kind == PROXY_STATE {
            let _ = reply.push(attribute.kind, attribute.value);
        }
    }
    let authenticator = response_authenticator(&reply.packet(), &packet.authenticator(), secret);
    reply.set_authenticator(authenticator);
    reply
}

/// Has a lane accept a request of the client. Returns whether it is a new one.
fn accepts(
    alloc: Global,
    config: &Config,
    lane: &mut Lane<BlockQueue<Record>>,
    datagram: &Datagram,
) -> bool {
    let mut answer = Datagram::new();
    match checked(config, datagram.bytes()) {
        Some(request) if takes(lane, &request) => matches!(
            lane.accept(alloc, &request, moment(0), &mut answer),
            Ok(Taken::New(_))
        ),
        _ => false,
    }
}

fn step_until_idle(
    alloc: Global,
    lane: &mut Lane<BlockQueue<Record>>,
    at: u32,
    secret: &Secret,
) -> Result<(usize, Vec<Reply>), Fail> {
    let mut replies = Vec::new(alloc);
    let mut datagram = Datagram::new();
    for taken in 0..9 {
        match lane.step(moment(at), RANDOM, &mut datagram) {
            Action::Sent(_, pair) | Action::Resent(_, pair) => {
                replies.push((pair.port, reply_to(&datagram, secret)))?;
            }
            Action::Idle(_) => return Ok((taken, replies)),
            _ => {}
        }
    }
    Err(Fail::from("idle"))
}

/// Has a lane hear replies, the last one first. Returns whether each is an answer to the client.
fn hears(alloc: Global, lane: &mut Lane<BlockQueue<Record>>, at: u32, replies: &[Reply]) -> bool {
    for (port, reply) in replies.iter().rev() {
        match lane.hear(alloc, moment(at), *port, reply.bytes()) {
            Ok(Heard::Answer(outgoing)) if outgoing.port == CLIENT_PORT => {}
            _ => return false,
        }
    }
    true
}

/// Plays a round. Returns what it shows, or nothing if a reply is no answer.
fn round(
    alloc: Global,
    lane: &mut Lane<BlockQueue<Record>>,
    at: u32,
    replies_come: bool,
    secret: &Secret,
) -> Result<Option<Shown>, Fail> {
    let (taken, replies) = step_until_idle(alloc, lane, at, secret)?;
    if replies_come && !hears(alloc, lane, at, replies.as_slice()) {
        return Ok(None);
    }
    let counts = lane.counts();
    Ok(Some((taken, counts.queued, counts.outstanding)))
}

/// Has a lane accept five requests, and plays the rounds. Returns the place of the first that shows something else, or
/// how many rounds there are.
fn plays(
    alloc: Global,
    config: &Config,
    lane: &mut Lane<BlockQueue<Record>>,
) -> Result<usize, Fail> {
    let nas = Secret::new(b"nas-secret")?;
    let home = Secret::new(b"home-secret")?;
    for identifier in 0..5 {
        if !accepts(alloc, config, lane, &request(identifier, &nas)) {
            return Err(Fail::from("accepted"));
        }
    }
    for (place, (at, replies_come, shown)) in ROUNDS.iter().enumerate() {
        if round(alloc, lane, *at, *replies_come, &home)? != Some(*shown) {
            return Ok(place);
        }
    }
    Ok(ROUNDS.len())
}

/// Plays the rounds of a new lane, and closes it.
fn lives(alloc: Global, config: &Config) -> Result<usize, Fail> {
    let mut lane = lane_of(alloc, config)?;
    let played = plays(alloc, config, &mut lane);
    end(lane);
    played
}

#[test]
fn a_queue_takes_its_rounds_and_no_more(rt: HostRuntime) -> Result<(), Fail> {
    let config = with_one_home(rt.alloc(), KEYS)?;
    let played = lives(rt.alloc(), &config);
    drop(config);
    let played = played?;
    holds_at(&rt, played, played == ROUNDS.len());
    Ok(())
}
