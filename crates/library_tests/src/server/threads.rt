//! A test that each lane has a thread of its own, and the front another one. The gate holds each lane as it hears for the
//! first time, until the other lane is held too and the front takes after that. What is printed at the end shows that wires in
//! memory are served as sockets are.

ghost use Rattle.std.specs.Prelude.{Some};

use crate::comparing::holds;
use crate::configured::with_two_homes;
use crate::nas::SEVENTH;
use rad_desk::{Call, Delivery, Gate, Go, Received, Traffic, Wire, Worker};
use rad_realms::{Config, Endpoint};
use rad_server::{Notifiers, Wires, serve};
use rad_tables::Moment;
use std::alloc::Global;
use std::io::{self, Error, ErrorKind, Read};
use std::sync::Wait;
use std::sync::atomic::{AtomicBool, AtomicU64, Ordering};
use std::test::Fail;
use std::thread::{self, Threads};
use std::time::{Clock, Duration};

/// A request with Identifier 9 and the User-Name `bob@example.net` alone.
const NET_REQUEST: [u8; 37] = [
    0x04, 0x09, 0x00, 0x25, 0xe8, 0x4c, 0x47, 0xa8, 0x39, 0x5a, 0xa6, 0x75, 0xea, 0x28, 0x8b, 0x22,
    0xe2, 0x0a, 0xba, 0x37, 0x01, 0x11, 0x62, 0x6f, 0x62, 0x40, 0x65, 0x78, 0x61, 0x6d, 0x70, 0x6c,
    0x65, 0x2e, 0x6e, 0x65, 0x74,
];

/// The reply to `nas::SEVENTH` as lane 0 forwards it as its first request.
const SEVENTH_REPLY: [u8; 32] = [
    0x05, 0x00, 0x00, 0x20, 0xbf, 0xd5, 0x55, 0x35, 0xdb, 0xb6, 0x18, 0x3f, 0x74, 0xf8, 0x4c, 0x6b,
    0x3f, 0x45, 0xdf, 0x75, 0x21, 0x0c, 0x00, 0x00, 0x00, 0x00, 0x00, 0x00, 0x00, 0x00, 0x00, 0x00,
];

/// The reply to `NET_REQUEST` as lane 1 forwards it as its first request, under `home2-secret`.
const NET_REPLY: [u8; 32] = [
    0x05, 0x00, 0x00, 0x20, 0xd0, 0x8f, 0x3b, 0x01, 0x4e, 0x69, 0xe4, 0xba, 0xd1, 0xd6, 0xfe, 0xac,
    0xd5, 0x52, 0x02, 0x1d, 0x21, 0x0c, 0x00, 0x01, 0x00, 0x00, 0x00, 0x00, 0x00, 0x00, 0x00, 0x00,
];

/// What comes to the front, and what comes from each home server once it was sent a request.
const REQUESTS: &[&[u8]] = &[&SEVENTH, &NET_REQUEST];

const FIRST_REPLY: &[&[u8]] = &[&SEVENTH_REPLY];

const SECOND_REPLY: &[&[u8]] = &[&NET_REPLY];

/// How often a thread looks again at what the others did, a millisecond apart.
const LOOKS: u32 = 10_000;

fn pause(clock: &impl Clock) {
    thread::sleep(clock, Duration::from_millis(1));
}

/// A gate at which two lanes and the front meet.
#[derive(Drop)]
struct Crossing<'a, R> {
    clock: &'a R,
    is_first_held: AtomicBool,
    is_second_held: AtomicBool,
    has_front_taken: AtomicBool,
    has_failed: AtomicBool,
}

impl<'a, R> Crossing<'a, R> {
    fn new(clock: &'a R) -> Crossing<'a, R> {
        Crossing {
            clock,
            is_first_held: AtomicBool::new(false),
            is_second_held: AtomicBool::new(false),
            has_front_taken: AtomicBool::new(false),
            has_failed: AtomicBool::new(false),
        }
    }

    fn are_both_held(&self) -> bool {
        self.is_first_held.load(Ordering::SeqCst) && self.is_second_held.load(Ordering::SeqCst)
    }
}

impl<R: Clock> Crossing<'_, R> {
    /// Holds a lane until the front takes while both lanes are held. Fails if that takes too long.
    fn hold(&self, is_held: &AtomicBool) {
        is_held.store(true, Ordering::SeqCst);
        for _ in 0..LOOKS {
            if self.has_front_taken.load(Ordering::SeqCst) {
                return;
            }
            pause(self.clock);
        }
        self.has_failed.store(true, Ordering::SeqCst);
    }
}

impl<R: Clock> Gate for Crossing<'_, R> {
    fn before(&self, worker: Worker, call: Call) -> Go {
        match (worker, call) {
            (Worker::Lane(0), Call::Hear) => self.hold(&self.is_first_held),
            (Worker::Lane(_), Call::Hear) => self.hold(&self.is_second_held),
            (Worker::Front, Call::Take) if self.are_both_held() => {
                self.has_front_taken.store(true, Ordering::SeqCst);
            }
            _ => {}
        }
        Go::On
    }

    fn after(&self, _worker: Worker, _call: Call) {}
}

/// A wire in memory. It gives its datagrams in order, once it has sent `waits_for` datagrams.
#[derive(Drop)]
struct Scripted<'a, R> {
    clock: &'a R,
    from: Endpoint,
    gives: &'static [&'static [u8]],
    /// The place of the datagram that it gives next.
    next: usize,
    waits_for: u64,
    /// How many datagrams it sent.
    sent: &'a AtomicU64,
    traffic: Traffic,
}

impl<R: Clock> Wire for Scripted<'_, R> {
    ghost log = { λ w. Some w.traffic.passed };

    fn now(&mut self) -> Moment {
        let moment = Moment::new(0).unwrap();
        self.traffic.told(moment);
        moment
    }

    fn random(&mut self) -> [u8; 16] {
        let octets = [0x5a; 16];
        self.traffic.drew(&octets);
        octets
    }

    fn receive(&mut self, datagram: &mut [u8; 4096]) -> Received {
        pause(self.clock);
        if self.sent.load(Ordering::SeqCst) < self.waits_for {
            return Received::Nothing;
        }
        let Some(given) = self.gives.get(self.next) else {
            return Received::Nothing;
        };
        self.next = self.next.saturating_add(1);
        let count = given.len().min(4096);
        datagram[..count].copy_from_slice(&given[..count]);
        let Endpoint { address, port } = self.from;
        self.traffic.arrived(0, address, port, &datagram[..count]);
        Received::Got {
            address,
            port,
            socket: 0,
            count,
        }
    }

    fn send(&mut self, socket: u16, address: [u8; 4], port: u16, octets: &[u8]) -> Delivery {
        self.sent.fetch_add(1, Ordering::SeqCst);
        self.traffic
            .departed(socket, address, port, octets, Delivery::Sent);
        Delivery::Sent
    }
}

/// How many datagrams the front and each lane sent.
#[derive(Drop)]
struct Sent {
    front: AtomicU64,
    first: AtomicU64,
    second: AtomicU64,
}

impl Sent {
    fn new() -> Sent {
        Sent {
            front: AtomicU64::new(0),
            first: AtomicU64::new(0),
            second: AtomicU64::new(0),
        }
    }
}

fn wire<'a, R>(
    clock: &'a R,
    address: [u8; 4],
    port: u16,
    gives: &'static [&'static [u8]],
    waits_for: u64,
    sent: &'a AtomicU64,
) -> Scripted<'a, R> {
    Scripted {
        clock,
        from: Endpoint { address, port },
        gives,
        next: 0,
        waits_for,
        sent,
        traffic: Traffic::new(),
    }
}

/// The last commands, and what is printed for them and at the end.
const LAST_COMMANDS: &[u8] = b"state\nturn\n";

const LAST_LINES: &[u8] =
    b"\nlane 0 h1 up open accepted 1 queued 0 outstanding 0 answered 1 opening 0\n\
    lane 1 h2 up open accepted 1 queued 0 outstanding 0 answered 1 opening 0\n\
    unknown\nend: queued 0 outstanding 0 untaken 0\n";

/// A reader that gives the command `state` until the front sent two datagrams, and then the last commands. If that takes too
/// long, it fails.
#[derive(Drop)]
struct Asking<'a, R> {
    clock: &'a R,
    sent: &'a AtomicU64,
    looks: u32,
    last: &'static [u8],
}

impl<R: Clock> Read for Asking<'_, R> {
    fn read(&mut self, buf: &mut [u8]) -> io::Result<usize> {
        if self.sent.load(Ordering::SeqCst) >= 2 {
            return self.last.read(buf);
        }
        if self.looks == 0 {
            return Err(Error::from(ErrorKind::Other));
        }
        self.looks -= 1;
        pause(self.clock);
        b"state\n".as_slice().read(buf)
    }
}

/// Serves two lanes through a gate, and returns whether the end is clean.
fn ends_clean<R: Clock + Threads + Wait + Sync>(
    rt: &R,
    alloc: Global,
    config: &Config,
    crossing: &Crossing<'_, R>,
    sent: &Sent,
    printed: &mut Vec<u8>,
) -> Result<bool, Fail> {
    let first = wire(rt, [127, 0, 0, 1], 2813, FIRST_REPLY, 1, &sent.first);
    let second = wire(rt, [127, 0, 0, 1], 2814, SECOND_REPLY, 1, &sent.second);
    let front = wire(rt, [10, 0, 0, 1], 40000, REQUESTS, 0, &sent.front);
    let lanes = Vec::from_array(alloc, [first, second])?;
    let asking = Asking {
        clock: rt,
        sent: &sent.front,
        looks: LOOKS,
        last: LAST_COMMANDS,
    };
    let served = serve(
        rt,
        alloc,
        config,
        Wires { front, lanes },
        &Notifiers::none(alloc),
        crossing,
        asking,
        printed,
    );
    Ok(matches!(served, Ok(end) if end.is_clean()))
}

fn ends_in(text: &[u8], last: &[u8]) -> bool {
    text.get(text.len().saturating_sub(last.len())..) == Some(last)
}

/// Serves two lanes, and returns whether the end is clean and the last lines are printed.
fn are_served<R: Clock + Threads + Wait + Sync>(
    rt: &R,
    alloc: Global,
    config: &Config,
    crossing: &Crossing<'_, R>,
    sent: &Sent,
) -> Result<bool, Fail> {
    let mut printed = Vec::new(alloc);
    let is_clean = ends_clean(rt, alloc, config, crossing, sent, &mut printed);
    let is_right = ends_in(printed.as_slice(), LAST_LINES);
    drop(printed);
    Ok(is_clean? && is_right)
}

#[test]
fn lanes_have_threads_of_their_own(rt: HostRuntime) -> Result<(), Fail> {
    let config = with_two_homes(rt.alloc())?;
    let (crossing, sent) = (Crossing::new(&rt), Sent::new());
    let is_right = are_served(&rt, rt.alloc(), &config, &crossing, &sent);
    drop(config);
    holds(&rt, is_right?);
    holds(&rt, !crossing.has_failed.load(Ordering::SeqCst));
    holds(&rt, sent.front.load(Ordering::SeqCst) == 2);
    Ok(())
}
