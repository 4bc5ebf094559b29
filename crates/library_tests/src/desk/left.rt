//! What a ledger is told of the requests that are left at the end: each once, in its state and with what it has of its own.

use crate::comparing::holds;
use crate::configured::configured;
use crate::desk::making::{reply_to, request};
use crate::desk::setting::{CLIENT, TEXT, start};
use crate::desk::threads::close;
use rad_desk::{Inlet, Ledger, LeftRecord, Proxy, Wire, open, tell_left};
use rad_lane::{Action, Counts, LeftState, Outgoing, Taken};
use rad_packet::Datagram;
use rad_realms::{Config, Incoming, check_in};
use rad_tables::Moment;
use std::alloc::{AllocError, Global};
use std::sync::Wait;
use std::test::Fail;

/// How many milliseconds after its acceptance each request is told.
const AGE: u64 = 250;

/// The requests that are left, by their numbers in the first lane, in the order in which they are told. The first request
/// is answered, and its response is taken.
const LEFT: [(u16, LeftState, Option<u32>); 3] = [
    (1, LeftState::Untaken, None),
    (2, LeftState::Outstanding, Some(1)),
    (3, LeftState::Queued, Some(0)),
];

/// A ledger that compares what it is told with what is left.
#[derive(Drop)]
struct Comparer {
    /// How many requests were told, and how many lanes.
    told: usize,
    lanes: u16,
    is_right: bool,
}

impl Comparer {
    fn is_content(&self) -> bool {
        self.is_right && self.told == LEFT.len() && self.lanes == 2
    }
}

impl Ledger for Comparer {
    fn keep<W: Wire>(&mut self, _outgoing: &Outgoing, _wire: &W) {
        self.is_right = false;
    }

    fn send_again(&mut self, _lane: u16, _number: u64, _response: &[u8]) {
        self.is_right = false;
    }

    fn leave(&mut self, told: &LeftRecord<'_>) {
        self.is_right = self.is_right && self.lanes == 0 && is_next(told, self.told);
        self.told = self.told.saturating_add(1);
    }

    fn end_lane(&mut self, lane: u16, counts: &Counts) {
        let accepted = if lane == 0 { 4 } else { 0 };
        self.is_right = self.is_right && lane == self.lanes && counts.accepted == accepted;
        self.lanes = self.lanes.saturating_add(1);
    }

    fn leave_untold(&mut self) {
        self.is_right = false;
    }
}

fn is_next(told: &LeftRecord<'_>, place: usize) -> bool {
    let Some((count, state, sendings)) = LEFT.get(place) else {
        return false;
    };
    let Some(made) = request(*count) else {
        return false;
    };
    let packet = made.packet();
    told.lane == 0
        && told.number == u64::from(*count)
        && told.client == CLIENT.address
        && told.port == CLIENT.port
        && told.identifier == packet.identifier()
        && told.authenticator == packet.authenticator()
        && told.state == *state
        && told.sendings == *sendings
        && told.age == Some(AGE)
        && told.request == made.bytes()
}

/// Has four requests accepted, three of them sent, and two answered.
pub fn live(rt: &impl Wait, alloc: Global, proxy: &Proxy, config: &Config) -> Option<()> {
    let mut datagram = Datagram::new();
    for count in 0..4 {
        let made = request(count)?;
        let Ok(Incoming::Request(asked)) = check_in(
            config,
            CLIENT.address,
            CLIENT.port,
            made.bytes(),
        ) else {
            return None;
        };
        match proxy.accept(rt, alloc, &asked, start(), &mut datagram) {
            Ok(Taken::New(_)) => {}
            _ => return None,
        }
    }
    if proxy.lanes() == 0 {
        return None;
    }
    for count in 0..3 {
        let Action::Sent(..) = proxy.step(rt, 0, start(), [0; 16], &mut datagram) else {
            return None;
        };
        if count < 2 {
            let reply = reply_to(datagram.bytes())?;
            proxy.hear(rt, alloc, 0, start(), 0, reply.bytes()).ok()?;
        }
    }
    Some(())
}

/// Closes a proxy, again if memory was refused, and returns whether what is left is told.
fn tells(alloc: Global, proxy: Proxy, inlets: Vec<Inlet>) -> bool {
    let Some(later) = Moment::new(AGE) else {
        return false;
    };
    let mut ledger = Comparer {
        told: 0,
        lanes: 0,
        is_right: true,
    };
    match close(alloc, proxy, inlets) {
        Ok(report) => tell_left(report, later, &mut ledger),
        Err(fault) => {
            let _ = AllocError::from(fault);
            return false;
        }
    }
    ledger.is_content()
}

/// This test is run with each allocation refused in turn. A proxy that was not closed is closed when that is tried again,
/// and the ledger is told the same.
#[test]
fn each_request_that_is_left_is_told_again_after_a_refused_growth(
    rt: HostRuntime,
) -> Result<(), Fail> {
    let config = configured(rt.alloc(), TEXT)?;
    let (proxy, mut inlets) = open(rt.alloc(), &config)?;
    let is_led = match inlets.as_mut_slice().first_mut() {
        Some(inlet) => live(&rt, rt.alloc(), &proxy, &config).is_some() && inlet.take().is_some(),
        None => false,
    };
    let is_told = tells(rt.alloc(), proxy, inlets);
    drop(config);
    if !is_led {
        return Err(Fail::from("requests that are answered, sent and queued"));
    }
    holds(&rt, is_told);
    Ok(())
}
