//! A test of a lane and the front in threads of their own. One thread has requests answered, and tries a reply again while
//! the ring is full. Another takes most of the responses. The others are in the rest at the end.

use crate::comparing::holds;
use crate::configured::configured;
use crate::desk::making::{reply_to, request};
use crate::desk::setting::{CLIENT, TEXT, start};
use rad_desk::laws::agrees;
use rad_desk::{CloseFault, DeskFault, Inlet, LaneEnd, Proxy, Report, Rest, Told, open};
use rad_lane::{Action, Answered, Outgoing, Stamp, Taken};
use rad_packet::Datagram;
use rad_realms::{Config, Incoming, check_in};
use std::alloc::{AllocError, Global};
use std::sync::Wait;
use std::test::Fail;
use std::thread::{self, Threads};
use std::time::{Clock, Duration};

/// What passes through the ring of the first lane, which has four places.
#[derive(Clone, Copy)]
pub struct Share {
    /// How many requests are answered.
    pub requests: u16,
    /// How many of the responses are taken before the end. The others are left.
    pub taken: usize,
}

/// All responses but two are taken.
const MOST: Share = Share {
    requests: 300,
    taken: 298,
};

/// How often a thread looks again, a millisecond apart.
const LOOKS: u32 = 10_000;

fn pause(clock: &impl Clock) {
    thread::sleep(clock, Duration::from_millis(1));
}

/// Has so many requests accepted, sent and answered in order. Returns whether all were.
fn answer_all<R: Wait + Clock>(
    rt: &R,
    alloc: Global,
    proxy: &Proxy,
    config: &Config,
    requests: u16,
) -> bool {
    for count in 0..requests {
        let number = u64::from(count);
        let is_next = accept(rt, alloc, proxy, config, count) == Some(number)
            && answer(rt, alloc, proxy) == Some(number);
        if !is_next {
            return false;
        }
    }
    true
}

/// Has the request made from `count` accepted. Returns its number.
fn accept(
    rt: &impl Wait,
    alloc: Global,
    proxy: &Proxy,
    config: &Config,
    count: u16,
) -> Option<u64> {
    let mut datagram = Datagram::new();
    let made = request(count)?;
    match check_in(config, CLIENT.address, CLIENT.port, made.bytes()) {
        Ok(Incoming::Request(request)) => {
            match proxy.accept(rt, alloc, &request, start(), &mut datagram) {
                Ok(Taken::New(number)) => Some(number),
                _ => None,
            }
        }
        _ => None,
    }
}

/// Sends the first request of the first lane's queue, and has its reply heard. Returns the serial of the response.
fn answer<R: Wait + Clock>(rt: &R, alloc: Global, proxy: &Proxy) -> Option<u64> {
    let mut datagram = Datagram::new();
    if proxy.lanes() == 0 {
        return None;
    }
    match proxy.step(rt, 0, start(), [0; 16], &mut datagram) {
        Action::Sent(..) => hear(rt, alloc, proxy, reply_to(datagram.bytes())?.bytes()),
        _ => None,
    }
}

/// Has the first lane hear a reply, again while the ring is full. Returns the serial of the response.
fn hear<R: Wait + Clock>(rt: &R, alloc: Global, proxy: &Proxy, reply: &[u8]) -> Option<u64> {
    if proxy.lanes() == 0 {
        return None;
    }
    for _ in 0..LOOKS {
        match proxy.hear(rt, alloc, 0, start(), 0, reply) {
            Ok(Told::Answer(serial)) => return Some(serial),
            Err(DeskFault::RingFull) => pause(rt),
            _ => return None,
        }
    }
    None
}

/// Takes so many responses from the first inlet, fewer if they don't come or if memory is refused. Returns them behind the
/// inlets.
fn take_most(
    rt: &impl Clock,
    alloc: Global,
    inlets: Vec<Inlet>,
    count: usize,
) -> (Vec<Inlet>, Vec<Outgoing>) {
    let mut inlets = inlets;
    let mut taken = Vec::new(alloc);
    if let Some(inlet) = inlets.as_mut_slice().first_mut() {
        take_from(rt, inlet, count, &mut taken);
    }
    (inlets, taken)
}

fn take_from(rt: &impl Clock, inlet: &mut Inlet, count: usize, taken: &mut Vec<Outgoing>) {
    for _ in 0..LOOKS {
        if taken.len() == count || !take_next(rt, inlet, taken) {
            return;
        }
    }
}

/// Takes the next response, or waits if there is none. Returns false if memory is refused.
fn take_next(rt: &impl Clock, inlet: &mut Inlet, taken: &mut Vec<Outgoing>) -> bool {
    match inlet.take() {
        Some(response) => taken.push(response).is_ok(),
        None => {
            pause(rt);
            true
        }
    }
}

/// Returns whether all responses agree with the answers that the lane kept, in order: first those that were taken, then
/// the rest.
fn are_given(taken: &[Outgoing], rest: &[Outgoing], answered: &[Answered]) -> bool {
    let mut given = taken.iter().chain(rest.iter());
    for (serial, answer) in answered.iter().enumerate() {
        match given.next() {
            Some(response) if response.serial == serial as u64 && agrees(answer, response) => {}
            _ => return false,
        }
    }
    given.next().is_none()
}

/// Returns whether the requests that the lane accepted are those that were made, each under its number.
fn are_accepted(stamps: &[Stamp]) -> bool {
    let mut count = 0;
    for stamp in stamps {
        if !is_of(stamp, count) {
            return false;
        }
        count = count.wrapping_add(1);
    }
    true
}

/// Returns whether an accepted request is the one made from `count`, with `count` as its number.
fn is_of(stamp: &Stamp, count: u16) -> bool {
    match request(count) {
        Some(made) => {
            stamp.number == u64::from(count) && stamp.authenticator == made.packet().authenticator()
        }
        None => false,
    }
}

/// Compares what is left of the first lane with the responses that were taken.
fn is_whole(end: &LaneEnd, share: Share, taken: &[Outgoing]) -> bool {
    let requests = usize::from(share.requests);
    match &end.rest {
        Rest::Known(rest) => {
            taken.len() == share.taken
                && end.answered.as_slice().len() == requests
                && end.accepted.as_slice().len() == requests
                && are_given(taken, rest.as_slice(), end.answered.as_slice())
                && are_accepted(end.accepted.as_slice())
        }
        Rest::Unknown => false,
    }
}

/// Returns whether it is known that nothing is left of a lane.
fn is_empty(end: &LaneEnd) -> bool {
    match &end.rest {
        Rest::Known(rest) => rest.as_slice().is_empty(),
        Rest::Unknown => false,
    }
}

/// Returns whether the first of two lanes is whole, and nothing is left of the second one.
fn are_whole(report: &Report, share: Share, taken: &[Outgoing]) -> bool {
    match report.ends.as_slice() {
        [first, second] => is_whole(first, share, taken) && is_empty(second),
        _ => false,
    }
}

/// Closes a proxy, again if memory was refused.
pub fn close(alloc: Global, proxy: Proxy, inlets: Vec<Inlet>) -> Result<Report, CloseFault> {
    match proxy.close(alloc, inlets) {
        Err(CloseFault::OutOfMemory(proxy, inlets)) => proxy.close(alloc, inlets.into_vec()),
        closed => closed,
    }
}

/// Closes a proxy, and compares what is left with the responses that were taken.
fn ends_whole(
    alloc: Global,
    proxy: Proxy,
    inlets: Vec<Inlet>,
    share: Share,
    taken: &[Outgoing],
) -> bool {
    match close(alloc, proxy, inlets) {
        Ok(report) => {
            let is_whole = are_whole(&report, share, taken);
            report.discard();
            is_whole
        }
        Err(fault) => {
            let _ = AllocError::from(fault);
            false
        }
    }
}

/// Has all requests answered in one thread while another takes the responses. Returns whether each came once, in order.
/// Fails if a request is not answered, as where memory is refused.
pub fn goes_through<R: Clock + Threads + Wait + Sync>(
    rt: &R,
    alloc: Global,
    config: &Config,
    share: Share,
) -> Result<bool, Fail> {
    let (proxy, inlets) = open(alloc, config)?;
    let (are_answered, (inlets, taken)) = thread::join(
        rt,
        || answer_all(rt, alloc, &proxy, config, share.requests),
        || take_most(rt, alloc, inlets, share.taken),
    );
    let is_whole = ends_whole(alloc, proxy, inlets, share, taken.as_slice());
    if are_answered {
        Ok(is_whole)
    } else {
        Err(Fail::from("a proxy that answers each request"))
    }
}

#[test]
fn each_response_goes_through_once(rt: HostRuntime) -> Result<(), Fail> {
    let config = configured(rt.alloc(), TEXT)?;
    let is_right = goes_through(&rt, rt.alloc(), &config, MOST);
    drop(config);
    holds(&rt, is_right?);
    Ok(())
}
