//! That a ledger is given each response before it is sent: a wire and a ledger that compare their calls with one list.

use crate::comparing::holds;
use crate::configured::configured;
use crate::desk::left::live;
use crate::desk::setting::{TEXT, start};
use crate::desk::threads::close;
use rad_desk::{
    Call, Delivery, Gate, Go, Inlet, Ledger, LeftRecord, NothingRemembered, Outcomes, Proxy,
    Received, Wire, Worker, front_worker_with, open,
};
use rad_lane::Outgoing;
use rad_realms::Config;
use rad_tables::Moment;
use std::alloc::{AllocError, Global};
use std::cell::Cell;
use std::sync::Wait;
use std::test::Fail;

/// A call of the ledger or of the wire.
#[derive(Clone, Copy, PartialEq, Eq)]
enum Made {
    /// The response of this serial was handed over.
    Kept(u64),
    /// A datagram with this Identifier was sent.
    Sent(u8),
}

/// The calls of two turns, in order.
const IN_ORDER: [Made; 4] = [Made::Kept(0), Made::Sent(0), Made::Kept(1), Made::Sent(1)];

/// How many of the calls were made, or nothing once another one was made.
#[derive(Drop)]
struct Calls {
    place: Cell<Option<usize>>,
}

impl Calls {
    fn compare(&self, made: Made) {
        let Some(place) = self.place.get() else {
            return;
        };
        let is_next = match IN_ORDER.get(place) {
            Some(expected) => *expected == made,
            None => false,
        };
        self.place.set(if is_next { Some(place + 1) } else { None });
    }

    fn is_whole(&self) -> bool {
        self.place.get() == Some(IN_ORDER.len())
    }
}

/// A wire to which nothing comes.
#[derive(Drop)]
struct ListedWire<'a> {
    calls: &'a Calls,
}

impl Wire for ListedWire<'_> {
    fn now(&mut self) -> Moment {
        start()
    }

    fn random(&mut self) -> [u8; 16] {
        [0; 16]
    }

    fn receive(&mut self, _datagram: &mut [u8; 4096]) -> Received {
        Received::Nothing
    }

    fn send(&mut self, _socket: u16, _address: [u8; 4], _port: u16, octets: &[u8]) -> Delivery {
        if let Some(identifier) = octets.get(1) {
            self.calls.compare(Made::Sent(*identifier));
        }
        Delivery::Sent
    }
}

#[derive(Drop)]
struct ListedLedger<'a> {
    calls: &'a Calls,
}

impl Ledger for ListedLedger<'_> {
    fn keep<W: Wire>(&mut self, outgoing: &Outgoing, _wire: &W) {
        self.calls.compare(Made::Kept(outgoing.serial));
    }

    fn send_again(&mut self, _lane: u16, _number: u64, _response: &[u8]) {}

    fn leave(&mut self, _told: &LeftRecord<'_>) {}
}

/// A gate that lets every worker go on.
#[derive(Drop)]
struct Willing;

impl Gate for Willing {
    fn before(&self, _worker: Worker, _call: Call) -> Go {
        Go::On
    }

    fn after(&self, _worker: Worker, _call: Call) {}
}

/// Has the front take two responses in two turns, and returns whether the calls were made in order.
fn hands_over(
    rt: &impl Wait,
    alloc: Global,
    (config, proxy): (&Config, &Proxy),
    inlets: &mut [Inlet],
) -> bool {
    let calls = Calls {
        place: Cell::new(Some(0)),
    };
    let mut wire = ListedWire { calls: &calls };
    let mut ledger = ListedLedger { calls: &calls };
    front_worker_with(
        rt,
        alloc,
        proxy,
        config,
        &NothingRemembered,
        inlets,
        &mut wire,
        &mut ledger,
        &mut Outcomes::new(),
        &Willing,
        2,
    );
    calls.is_whole()
}

#[test]
fn a_response_is_handed_over_before_it_is_sent(rt: HostRuntime) -> Result<(), Fail> {
    let config = configured(rt.alloc(), TEXT)?;
    let (proxy, inlets) = open(rt.alloc(), &config)?;
    let mut inlets = inlets;
    let is_led = live(&rt, rt.alloc(), &proxy, &config).is_some();
    let is_right = hands_over(&rt, rt.alloc(), (&config, &proxy), inlets.as_mut_slice());
    match close(rt.alloc(), proxy, inlets) {
        Ok(report) => report.discard(),
        Err(fault) => {
            let _ = AllocError::from(fault);
        }
    }
    drop(config);
    if !is_led {
        return Err(Fail::from("requests that are answered, sent and queued"));
    }
    holds(&rt, is_right);
    Ok(())
}
