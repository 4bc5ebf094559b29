//! The gate and the wire of a worker in the simulation. Both record their calls in one list.

use crate::chance::Chance;
use crate::clock::VirtualClock;
use crate::events::{Came, DownBy, Gone, Sign, TraceEvent, octets_of};
use rad_desk::{Call, Delivery, Gate, Go, Received, Spent, Wire, Worker, WorkerReport};
use rad_realms::Endpoint;
use rad_tables::Moment;
use spool_writer::OfferNotes;
use std::alloc::Global;
use std::cell::Cell;

/// The list of events.
#[derive(Drop)]
pub struct Trace {
    alloc: Global,
    events: Cell<Option<Vec<TraceEvent>>>,
}

impl Trace {
    /// Returns a list without events.
    pub fn new(alloc: Global) -> Trace {
        Trace {
            alloc,
            events: Cell::new(Some(Vec::new(alloc))),
        }
    }

    /// Returns all events in order, or `None` if memory was refused. The list forgets them.
    pub fn take(&self) -> Option<Vec<TraceEvent>> {
        self.events.replace(Some(Vec::new(self.alloc)))
    }

    /// Adds an event. If memory is refused, the list is lost.
    pub fn add(&self, event: TraceEvent) {
        let Some(mut events) = self.events.replace(None) else {
            return;
        };
        if events.push(event).is_ok() {
            self.events.set(Some(events));
        }
    }

    /// Returns a copy of octets. If memory is refused, returns `None`, and the list is lost.
    pub fn copy(&self, octets: &[u8]) -> Option<Vec<u8>> {
        match octets.to_vec(self.alloc) {
            Ok(copy) => Some(copy),
            Err(_) => {
                self.events.set(None);
                None
            }
        }
    }
}

/// What the workers have in common: the list of events, the clock, and what was decided about the next call of a worker.
#[derive(Drop)]
pub struct Stage {
    pub trace: Trace,
    pub clock: VirtualClock,
    call: Cell<NextCall>,
    /// What arrives, the next one last.
    arrivals: Cell<Option<Vec<Arrival>>>,
}

/// What is decided about a call of a worker but for what arrives.
#[derive(Clone, Copy)]
pub struct NextCall {
    /// How many milliseconds the worker's clock is behind.
    pub lag: u64,
    /// The source of the octets that are drawn, and of the choice of the sends that fail.
    pub chance: Chance,
    /// One send in `faults` fails; 0 for none.
    pub faults: u64,
}

impl Stage {
    /// Returns a stage on which nothing happened.
    pub fn new(alloc: Global) -> Stage {
        Stage {
            trace: Trace::new(alloc),
            clock: VirtualClock::new(),
            call: Cell::new(NextCall {
                lag: 0,
                chance: Chance::new(0),
                faults: 0,
            }),
            arrivals: Cell::new(None),
        }
    }

    /// Has the next call be this one, in which this arrives, the first one last.
    pub fn prepare(&self, call: NextCall, arrivals: Vec<Arrival>) {
        self.call.set(call);
        self.arrivals.set(Some(arrivals));
    }

    /// Takes what did not arrive in the last call.
    pub fn take_arrivals(&self) -> Option<Vec<Arrival>> {
        self.arrivals.replace(None)
    }

    fn arrive(&self) -> Came {
        let Some(mut arrivals) = self.arrivals.replace(None) else {
            return Came::Nothing;
        };
        let came = match arrivals.pop() {
            Some(Arrival { wait, came }) => {
                self.clock.pass(wait);
                came
            }
            None => Came::Nothing,
        };
        self.arrivals.set(Some(arrivals));
        came
    }

    /// Returns the moment of the worker's clock.
    fn moment(&self) -> u64 {
        self.clock.passed().saturating_sub(self.call.get().lag)
    }

    /// Draws octets.
    fn draw(&self) -> [u8; 16] {
        let mut call = self.call.get();
        let octets = call.chance.authenticator();
        self.call.set(call);
        octets
    }

    /// Returns whether the next send is handed over.
    fn hands_over(&self) -> bool {
        let mut call = self.call.get();
        let fails = call.chance.strikes(call.faults);
        self.call.set(call);
        !fails
    }
}

/// The gate of a worker, which it may stop.
#[derive(Drop)]
pub struct TraceGate<'a> {
    pub stage: &'a Stage,
    pub worker: Worker,
    /// How many more calls it lets the worker make before it stops the worker, or `None` for all.
    pub calls: Cell<Option<u32>>,
    /// What is noted for the requests that earlier runs left, if there is a spool.
    pub notes: Option<&'a OfferNotes>,
}

impl<'a> TraceGate<'a> {
    /// Records what the gate is asked or notified of, and in whose name, with octets.
    fn add(&self, worker: Worker, sign: Sign, octets: &[u8]) {
        let is_own = worker == self.worker;
        let sign = if is_own { sign } else { Sign::OfAnother };
        if let Some(copy) = self.stage.trace.copy(octets) {
            self.stage.trace.add(TraceEvent::Signed(sign, copy));
        }
    }

    /// Records that the home server is marked down, by this request.
    fn add_down(&self, spent: Option<&Spent>) {
        let down = match spent {
            Some(spent) => Some(self.down_by(spent)),
            None => None,
        };
        self.stage.trace.add(TraceEvent::WentDown(down));
    }

    fn down_by(&self, spent: &Spent) -> DownBy {
        let session = match &spent.session {
            Some(session) => self.stage.trace.copy(session.octets()),
            None => None,
        };
        DownBy {
            number: spent.number,
            client: spent.client,
            session,
            age: spent.age,
        }
    }

    /// Returns whether one more call is allowed.
    fn lets(&self) -> Go {
        match self.calls.get() {
            None => Go::On,
            Some(0) => Go::Stop,
            Some(more) => {
                self.calls.set(Some(more.saturating_sub(1)));
                Go::On
            }
        }
    }
}

impl<'a> Gate for TraceGate<'a> {
    fn before(&self, worker: Worker, call: Call) -> Go {
        let go = self.lets();
        self.add(worker, Sign::Before(call, go), &[]);
        go
    }

    fn after(&self, worker: Worker, call: Call) {
        self.add(worker, Sign::After(call), &[]);
    }

    fn report(&self, worker: Worker, report: &WorkerReport<'_>) {
        if let Some(notes) = self.notes {
            notes.see(worker, report);
        }
        match *report {
            WorkerReport::WentDown(spent) if worker == self.worker => self.add_down(spent),
            _ => self.add(worker, Sign::of(report), octets_of(report)),
        }
    }
}

/// The result of the next receive, and how many milliseconds the receive waits.
#[derive(Drop)]
pub struct Arrival {
    pub wait: u64,
    pub came: Came,
}

/// The wire of a worker. What arrives in a call of the worker is known beforehand.
#[derive(Drop)]
pub struct TraceWire<'a> {
    pub stage: &'a Stage,
}

impl<'a> Wire for TraceWire<'a> {
    fn now(&mut self) -> Moment {
        match Moment::new(self.stage.moment()) {
            Some(moment) => moment,
            None => Moment::new(0).unwrap(),
        }
    }

    fn random(&mut self) -> [u8; 16] {
        let octets = self.stage.draw();
        self.stage.trace.add(TraceEvent::Drew(octets));
        octets
    }

    fn receive(&mut self, datagram: &mut [u8; 4096]) -> Received {
        let mut came = self.stage.arrive();
        let received = match &mut came {
            Came::Datagram(mail) => {
                mail.octets.truncate(4096);
                let octets = mail.octets.as_slice();
                let count = octets.len().min(4096);
                datagram[..count].copy_from_slice(&octets[..count]);
                let Endpoint { address, port } = mail.from;
                Received::Got {
                    address,
                    port,
                    socket: mail.socket,
                    count,
                }
            }
            Came::Nothing => Received::Nothing,
            Came::Fault => Received::Fault,
        };
        let moment = self.stage.moment();
        self.stage.trace.add(TraceEvent::Received(moment, came));
        received
    }

    fn send(&mut self, socket: u16, address: [u8; 4], port: u16, octets: &[u8]) -> Delivery {
        let is_handed_over = self.stage.hands_over();
        if let Some(copy) = self.stage.trace.copy(octets) {
            self.stage.trace.add(TraceEvent::Went(Gone {
                socket,
                to: Endpoint { address, port },
                octets: copy,
                is_handed_over,
            }));
        }
        if is_handed_over {
            Delivery::Sent
        } else {
            Delivery::Fault
        }
    }
}
