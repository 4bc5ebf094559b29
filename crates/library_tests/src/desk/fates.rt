//! What becomes of each request over a lane's life: some are answered, some are left outstanding or queued, and the book is
//! cut again and again. At the end each number is queued, or outstanding, or answered by one response, and that once.

use crate::comparing::holds;
use crate::configured::with_one_home;
use crate::desk::making::{reply_to, request};
use crate::desk::setting::{CLIENT, start};
use rad_auth::{Mark, Secret, check_response};
use rad_desk::{Inlet, LaneEnd, Proxy, Rest, open};
use rad_lane::{Action, Entry, Outgoing, Taken};
use rad_packet::{Datagram, read};
use rad_realms::{Config, Incoming, check_in};
use rad_tables::Slot;
use std::alloc::{AllocError, Global};
use std::sync::Wait;
use std::test::Fail;

/// With this an answered request is over at once.
const KEYS: &str = "span = 0";

/// How many requests are accepted.
const REQUESTS: u16 = 60;

/// The first request that may be left. All before it are answered.
const FIRST_LEFT: u16 = 40;

/// How often each number was found at the end, and how many requests were cut.
#[derive(Drop)]
struct Fates {
    found: [u8; 60],
    cut: usize,
}

impl Fates {
    fn new() -> Fates {
        Fates {
            found: [0; 60],
            cut: 0,
        }
    }

    /// Counts that a number was found. Returns whether there is such a number.
    fn find(&mut self, number: u64) -> bool {
        let Ok(place) = usize::try_from(number) else {
            return false;
        };
        match self.found.get_mut(place) {
            Some(count) => {
                *count = count.saturating_add(1);
                true
            }
            None => false,
        }
    }

    /// Counts the request that a response answers: the one whose Authenticator it is valid for. Its number is in the mark.
    fn find_answered(&mut self, response: &Outgoing) -> bool {
        for count in 0..REQUESTS {
            if answers(response, count) == Some(true) {
                let number = u64::from(count);
                return response.reply.mark() == Mark { lane: 0, number } && self.find(number);
            }
        }
        false
    }

    /// Returns whether each number was found once, and requests were cut.
    fn are_whole(&self) -> bool {
        self.cut > 0 && self.found.iter().all(|count| *count == 1)
    }
}

/// Returns whether a response is valid for the request that was made from `count`.
fn answers(response: &Outgoing, count: u16) -> Option<bool> {
    let secret = Secret::new(b"nas-secret").ok()?;
    let answer = read(response.reply.response()).ok()?;
    let asked = request(count)?;
    Some(check_response(&answer, &asked.packet().authenticator(), &secret))
}

/// Has the request made from `count` accepted under that number.
fn accept(rt: &impl Wait, alloc: Global, proxy: &Proxy, config: &Config, count: u16) -> bool {
    let mut datagram = Datagram::new();
    let Some(made) = request(count) else {
        return false;
    };
    let Ok(Incoming::Request(asked)) = check_in(config, CLIENT.address, CLIENT.port, made.bytes())
    else {
        return false;
    };
    matches!(
        proxy.accept(rt, alloc, &asked, start(), &mut datagram),
        Ok(Taken::New(number)) if number == u64::from(count)
    )
}

/// Sends the first record of the queue. If it is to be answered, has its reply heard, and takes the response.
fn send(
    rt: &impl Wait,
    alloc: Global,
    proxy: &Proxy,
    inlet: &mut Inlet,
    is_answered: bool,
    fates: &mut Fates,
) -> bool {
    let mut datagram = Datagram::new();
    if proxy.lanes() == 0 {
        return false;
    }
    let Action::Sent(..) = proxy.step(rt, 0, start(), [0; 16], &mut datagram) else {
        return false;
    };
    if !is_answered {
        return true;
    }
    let Some(reply) = reply_to(datagram.bytes()) else {
        return false;
    };
    if proxy.hear(rt, alloc, 0, start(), 0, reply.bytes()).is_err() {
        return false;
    }
    match inlet.take() {
        Some(response) => fates.find_answered(&response),
        None => false,
    }
}

/// Removes what is over from the front of the book.
fn cut(rt: &impl Wait, alloc: Global, proxy: &Proxy, fates: &mut Fates) {
    if proxy.lanes() == 0 {
        return;
    }
    if let Ok(volume) = proxy.turn(rt, alloc, 0, start()) {
        let count = volume.stamps.as_slice().len();
        fates.cut = fates.cut.saturating_add(count);
    }
}

/// Leads all requests through the lane. From the first one that may be left on, every third is not sent, and every fifth
/// is not answered.
fn live(
    rt: &impl Wait,
    alloc: Global,
    proxy: &Proxy,
    config: &Config,
    inlet: &mut Inlet,
    fates: &mut Fates,
) -> bool {
    for count in 0..REQUESTS {
        let may_be_left = count >= FIRST_LEFT;
        let is_sent = !may_be_left || !count.is_multiple_of(3);
        let is_answered = !may_be_left || !count.is_multiple_of(5);
        if !accept(rt, alloc, proxy, config, count)
            || is_sent && !send(rt, alloc, proxy, inlet, is_answered, fates)
        {
            return false;
        }
        cut(rt, alloc, proxy, fates);
    }
    true
}

fn find_outstanding(end: &LaneEnd, fates: &mut Fates) -> bool {
    for identifier in 0..=255 {
        let slot = Slot {
            port: 0,
            identifier,
        };
        if let Some(Entry::Sending(sending)) = end.outstanding.get(slot) {
            if !fates.find(sending.request().stamp().number) {
                return false;
            }
        }
    }
    true
}

/// Counts the responses that nobody took.
fn find_rest(end: &LaneEnd, fates: &mut Fates) -> bool {
    match &end.rest {
        Rest::Known(rest) => rest
            .as_slice()
            .iter()
            .all(|response| fates.find_answered(response)),
        Rest::Unknown => false,
    }
}

/// Counts what is left at the end, and returns whether each number was then found once.
fn end(alloc: Global, proxy: Proxy, inlets: Vec<Inlet>, fates: &mut Fates) -> bool {
    let report = match proxy.close(alloc, inlets) {
        Ok(report) => report,
        Err(fault) => {
            let _ = AllocError::from(fault);
            return false;
        }
    };
    let mut are_known = true;
    for end in report.ends.as_slice() {
        are_known = are_known && find_outstanding(end, fates) && find_rest(end, fates);
    }
    for record in report.queued.iter() {
        are_known = are_known && fates.find(record.stamp().number);
    }
    report.discard();
    are_known && fates.are_whole()
}

#[test]
fn each_request_has_one_fate(rt: HostRuntime) -> Result<(), Fail> {
    let config = with_one_home(rt.alloc(), KEYS)?;
    let (proxy, mut inlets) = open(rt.alloc(), &config)?;
    let mut fates = Fates::new();
    let is_led = match inlets.as_mut_slice().first_mut() {
        Some(inlet) => live(&rt, rt.alloc(), &proxy, &config, inlet, &mut fates),
        None => false,
    };
    let is_whole = end(rt.alloc(), proxy, inlets, &mut fates);
    drop(config);
    holds(&rt, is_led && is_whole);
    Ok(())
}
