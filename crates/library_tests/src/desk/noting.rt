//! What a gate hears that has no more than `before`, `after` and `note`: each kind of note once, between the calls.

use crate::comparing::holds;
use crate::configured::with_one_home;
use crate::desk::threads::close;
use crate::homes::REPLY;
use crate::nas::{REQUEST, SECOND_REQUEST};
use rad_desk::{
    Call, Delivery, DeskFault, Gate, Go, Inlet, Note, Proxy, Received, Wire, Worker, front_worker,
    lane_worker, open,
};
use rad_lane::{HearFault, Refusal};
use rad_packet::ReadFault;
use rad_realms::{Config, Dropped, Endpoint};
use rad_tables::Moment;
use std::alloc::{AllocError, Global};
use std::cell::Cell;
use std::sync::Wait;
use std::test::Fail;

/// With these the book holds one request, which is over once it is answered.
const KEYS: &str = "book = 1\ntries = 1\nfirst_wait = 100\ndown_wait = 1000\nspan = 0";

const CLIENT: Endpoint = Endpoint {
    address: [10, 0, 0, 1],
    port: 40_000,
};

const HOME: Endpoint = Endpoint {
    address: [127, 0, 0, 1],
    port: 2813,
};

/// An endpoint that is neither a client's nor a home server's.
const STRANGER: Endpoint = Endpoint {
    address: [10, 0, 0, 9],
    port: 2813,
};

/// What a receive gives.
#[derive(Clone, Copy)]
enum Coming {
    Fault,
    Nothing,
    From(Endpoint, &'static [u8]),
}

const LANE: Worker = Worker::Lane(0);

/// The turns, in order: whose it is, the time in milliseconds, what comes, and what becomes of each send.
const TURNS: &[(Worker, u64, Coming, Delivery)] = &[
    (Worker::Front, 0, Coming::Fault, Delivery::Sent),
    (
        Worker::Front,
        0,
        Coming::From(STRANGER, &REQUEST),
        Delivery::Sent,
    ),
    (
        Worker::Front,
        0,
        Coming::From(CLIENT, &REQUEST),
        Delivery::Sent,
    ),
    (
        Worker::Front,
        0,
        Coming::From(CLIENT, &SECOND_REQUEST),
        Delivery::Sent,
    ),
    (LANE, 0, Coming::Nothing, Delivery::Fault),
    (LANE, 0, Coming::From(STRANGER, &REPLY), Delivery::Sent),
    (LANE, 0, Coming::From(HOME, &[5, 0]), Delivery::Sent),
    (LANE, 150, Coming::Nothing, Delivery::Sent),
    (LANE, 1200, Coming::Nothing, Delivery::Sent),
    (LANE, 1200, Coming::Nothing, Delivery::Sent),
    (LANE, 1200, Coming::From(HOME, &REPLY), Delivery::Sent),
    (Worker::Front, 1200, Coming::Nothing, Delivery::Sent),
];

/// The wire of one turn.
#[derive(Drop)]
struct TurnWire {
    moment: u64,
    coming: Coming,
    delivery: Delivery,
}

/// What the gate is asked or told.
#[derive(Clone, Copy, PartialEq, Eq)]
enum Told {
    Before(Call),
    After(Call),
    Noted(Note),
}

/// What the gate is asked and told in these turns, in order.
const TOLD: &[(Worker, Told)] = &[
    // The first receive fails.
    (Worker::Front, Told::Noted(Note::ReceiveFault)),
    (Worker::Front, Told::Before(Call::Take)),
    (Worker::Front, Told::After(Call::Take)),
    // A request of nobody.
    (
        Worker::Front,
        Told::Noted(Note::Dropped(Dropped::UnknownClient)),
    ),
    (Worker::Front, Told::Before(Call::Take)),
    (Worker::Front, Told::After(Call::Take)),
    // A request that is accepted, and another one for which the book has no room.
    (Worker::Front, Told::Before(Call::Accept)),
    (Worker::Front, Told::After(Call::Accept)),
    (Worker::Front, Told::Before(Call::Take)),
    (Worker::Front, Told::After(Call::Take)),
    (Worker::Front, Told::Before(Call::Accept)),
    (Worker::Front, Told::After(Call::Accept)),
    (Worker::Front, Told::Noted(Note::Refused(Refusal::BookFull))),
    (Worker::Front, Told::Before(Call::Take)),
    (Worker::Front, Told::After(Call::Take)),
    // It is sent, which fails.
    (LANE, Told::Before(Call::Step)),
    (LANE, Told::After(Call::Step)),
    (LANE, Told::Noted(Note::SendFault)),
    // A reply of nobody. The lane is idle, and nothing in its book is over.
    (LANE, Told::Noted(Note::NotHome)),
    (LANE, Told::Before(Call::Step)),
    (LANE, Told::After(Call::Step)),
    (LANE, Told::Before(Call::Turn)),
    (LANE, Told::After(Call::Turn)),
    // The home server sends what is no packet.
    (LANE, Told::Before(Call::Hear)),
    (LANE, Told::After(Call::Hear)),
    (
        LANE,
        Told::Noted(Note::Unheard(DeskFault::Lane(HearFault::Unread(ReadFault::Short)))),
    ),
    (LANE, Told::Before(Call::Step)),
    (LANE, Told::After(Call::Step)),
    (LANE, Told::Before(Call::Turn)),
    (LANE, Told::After(Call::Turn)),
    // The request is spent.
    (LANE, Told::Before(Call::Step)),
    (LANE, Told::After(Call::Step)),
    (LANE, Told::Noted(Note::WentDown)),
    // The home server was marked down long enough. The request is sent again, and answered.
    (LANE, Told::Before(Call::Step)),
    (LANE, Told::After(Call::Step)),
    (LANE, Told::Noted(Note::WentUp)),
    (LANE, Told::Before(Call::Step)),
    (LANE, Told::After(Call::Step)),
    (LANE, Told::Before(Call::Hear)),
    (LANE, Told::After(Call::Hear)),
    (LANE, Told::Before(Call::Step)),
    (LANE, Told::After(Call::Step)),
    (LANE, Told::Before(Call::Turn)),
    (LANE, Told::After(Call::Turn)),
    (LANE, Told::Noted(Note::Cut(1))),
    // The response is taken.
    (Worker::Front, Told::Before(Call::Take)),
    (Worker::Front, Told::After(Call::Take)),
    (Worker::Front, Told::Noted(Note::Took(0, 0))),
];

/// A gate that compares what it is asked and told with `TOLD`.
#[derive(Drop)]
struct Comparing {
    /// How much of it was right, or `None` if something was wrong.
    place: Cell<Option<usize>>,
}

impl Comparing {
    fn compare(&self, worker: Worker, told: Told) {
        let Some(place) = self.place.get() else {
            return;
        };
        let is_next = match TOLD.get(place) {
            Some((of, expected)) => *of == worker && *expected == told,
            None => false,
        };
        self.place.set(if is_next { Some(place + 1) } else { None });
    }

    fn is_whole(&self) -> bool {
        self.place.get() == Some(TOLD.len())
    }
}

impl Gate for Comparing {
    fn before(&self, worker: Worker, call: Call) -> Go {
        self.compare(worker, Told::Before(call));
        Go::On
    }

    fn after(&self, worker: Worker, call: Call) {
        self.compare(worker, Told::After(call));
    }

    fn note(&self, worker: Worker, note: Note) {
        self.compare(worker, Told::Noted(note));
    }
}

impl Wire for TurnWire {
    fn now(&mut self) -> Moment {
        Moment::new(self.moment).unwrap_or(Moment::new(0).unwrap())
    }

    fn random(&mut self) -> [u8; 16] {
        [0xa5; 16]
    }

    fn receive(&mut self, datagram: &mut [u8; 4096]) -> Received {
        match self.coming {
            Coming::Fault => Received::Fault,
            Coming::Nothing => Received::Nothing,
            Coming::From(from, octets) => {
                let count = octets.len().min(4096);
                datagram[..count].copy_from_slice(&octets[..count]);
                let Endpoint { address, port } = from;
                Received::Got {
                    address,
                    port,
                    socket: 0,
                    count,
                }
            }
        }
    }

    fn send(&mut self, _socket: u16, _address: [u8; 4], _port: u16, _octets: &[u8]) -> Delivery {
        self.delivery
    }
}

fn work(
    rt: &impl Wait,
    alloc: Global,
    (config, proxy): (&Config, &Proxy),
    inlets: &mut [Inlet],
    worker: Worker,
    wire: &mut TurnWire,
    gate: &Comparing,
) {
    match (worker, config.homes()) {
        (Worker::Front, _) => {
            front_worker(rt, alloc, proxy, config, inlets, wire, gate, 1);
        }
        (Worker::Lane(lane), [home]) if lane < proxy.lanes() => {
            lane_worker(rt, alloc, proxy, lane, home, wire, gate, 1);
        }
        _ => {}
    }
}

/// Calls the workers of all turns.
fn work_all(rt: &impl Wait, alloc: Global, config: &Config, gate: &Comparing) -> Result<(), Fail> {
    let (proxy, inlets) = open(alloc, config)?;
    let mut inlets = inlets;
    for (worker, moment, coming, delivery) in TURNS {
        let mut wire = TurnWire {
            moment: *moment,
            coming: *coming,
            delivery: *delivery,
        };
        let served = (config, &proxy);
        work(
            rt,
            alloc,
            served,
            inlets.as_mut_slice(),
            *worker,
            &mut wire,
            gate,
        );
    }
    match close(alloc, proxy, inlets) {
        Ok(report) => {
            report.discard();
            Ok(())
        }
        Err(fault) => Err(AllocError::from(fault).into()),
    }
}

#[test]
fn a_gate_hears_each_note_between_the_calls(rt: HostRuntime) -> Result<(), Fail> {
    let config = with_one_home(rt.alloc(), KEYS)?;
    let gate = Comparing {
        place: Cell::new(Some(0)),
    };
    let worked = work_all(&rt, rt.alloc(), &config, &gate);
    drop(config);
    worked?;
    holds(&rt, gate.is_whole());
    Ok(())
}
