//! Tests of what no contract says of a worker that ends by itself: the others end too, its end is reported, and neither
//! input nor a lane is waited for. An interrupted read ends nothing.

use crate::comparing::holds;
use crate::configured::configured;
use crate::nas::SEVENTH;
use crate::server::gates::Ending;
use rad_addresses::LocalAddresses;
use rad_console::EndLine;
use rad_desk::Worker;
use rad_realms::Config;
use rad_server::{Descriptors, PortSettings, ServeFault, run};
use std::alloc::Global;
use std::env::VarError;
use std::io::{self, Error, ErrorKind, Read};
use std::net::{Ipv4Addr, Net, SocketAddr, UdpSocket};
use std::os::fd::AsRawFd;
use std::os::unix::net::UnixStream;
use std::random::RandomSource;
use std::sync::Wait;
use std::test::Fail;
use std::thread::{self, Threads};
use std::time::{Clock, Duration};

/// A client and two home servers on this machine. A lane that holds a request is waited for longer than a test may take.
const TWO_HOMES: &str = r#"
listen = "127.0.0.1:1815"
linger = 600000
[[client]]
address = "127.0.0.1"
secret = "nas-secret"
[[home]]
name = "h1"
address = "127.0.0.1:2815"
secret = "home-secret"
[[home]]
name = "h2"
address = "127.0.0.1:2816"
secret = "home-secret"
[[realm]]
name = "example.org"
home = "h1"
"#;

/// The front's worker and those of the lanes.
const WORKERS: &[Worker] = &[Worker::Front, Worker::Lane(0), Worker::Lane(1)];

/// What is printed before a worker ends.
const LISTENING: &[u8] = b"listening 127.0.0.1:1815\n";

/// The most times that a reader looks whether a request is accepted, a millisecond apart.
const LOOKS: u32 = 10_000;

/// A machine without addresses and without settings. They are not read, since no configuration here listens at all
/// addresses, and the system has ports.
#[derive(Clone, Copy)]
struct NoAddresses;

impl LocalAddresses for NoAddresses {
    fn read(&self, alloc: Global) -> io::Result<Vec<[u8; 4]>> {
        Ok(Vec::new(alloc))
    }
}

impl PortSettings for NoAddresses {
    fn pinned(&self) -> Result<String, VarError> {
        Err(VarError::NotPresent)
    }

    fn setting(&self, _alloc: Global, _path: &str) -> io::Result<Vec<u8>> {
        Err(Error::from(ErrorKind::NotFound))
    }
}

/// A client that is the input: it sends a request, and ends once that is accepted. Then the gate's worker is to end. Each
/// read before that is interrupted.
#[derive(Drop)]
struct Client<'a, R> {
    clock: &'a R,
    socket: &'a UdpSocket,
    gate: &'a Ending,
    looks: u32,
}

impl<R: Clock> Read for Client<'_, R> {
    fn read(&mut self, _buf: &mut [u8]) -> io::Result<usize> {
        if self.gate.is_due_after_a_request() {
            return Ok(0);
        }
        if self.looks == 0 {
            return Err(Error::from(ErrorKind::Other));
        }
        self.looks -= 1;
        let listen = SocketAddr::from((Ipv4Addr::LOCALHOST, 1815));
        self.socket.send_to(&SEVENTH, listen)?;
        thread::sleep(self.clock, Duration::from_millis(1));
        Err(Error::from(ErrorKind::Interrupted))
    }
}

fn is_told(ran: Result<EndLine, ServeFault>, worker: Worker) -> bool {
    matches!(ran, Err(ServeFault::Ended(ended)) if ended == worker)
}

/// Serves with this input, and returns whether the worker's end is reported and nothing is printed but where it listens.
fn ends<R, I>(
    rt: &R,
    alloc: Global,
    config: &Config,
    gate: &Ending,
    worker: Worker,
    reader: I,
    input: Descriptors,
) -> bool
where
    R: Clock + Net + RandomSource + Threads + Wait + Sync,
    I: Read + Drop,
{
    let mut printed = Vec::new(alloc);
    let ran = run(
        rt,
        &NoAddresses,
        alloc,
        config,
        gate,
        reader,
        &mut printed,
        input,
    );
    let is_right = printed.as_slice() == LISTENING;
    drop(printed);
    is_told(ran, worker) && is_right
}

/// Serves with an input on which nothing comes, and has each worker end in turn. Returns whether the end of each is reported.
fn each_ends<R>(rt: &R, alloc: Global, config: &Config) -> Result<bool, Fail>
where
    R: Clock + Net + RandomSource + Threads + Wait + Sync,
{
    let (reader, _silent) = UnixStream::pair(rt)?;
    let input = Descriptors {
        input: Some(reader.as_raw_fd()),
        output: None,
    };
    let mut is_right = true;
    for worker in WORKERS {
        let gate = Ending::new(*worker, true);
        is_right &= ends(rt, alloc, config, &gate, *worker, &reader, input);
    }
    Ok(is_right)
}

#[test]
fn a_worker_that_ends_ends_the_wait_for_input(rt: HostRuntime) -> Result<(), Fail> {
    let config = configured(rt.alloc(), TWO_HOMES)?;
    let is_right = each_ends(&rt, rt.alloc(), &config);
    drop(config);
    holds(&rt, is_right?);
    Ok(())
}

/// Serves a client, and has the first lane end once it holds a request. Returns whether that end is reported.
fn first_lane_ends<R>(rt: &R, alloc: Global, config: &Config) -> Result<bool, Fail>
where
    R: Clock + Net + RandomSource + Threads + Wait + Sync,
{
    let socket = UdpSocket::bind(rt, SocketAddr::from((Ipv4Addr::LOCALHOST, 0)))?;
    let gate = Ending::new(Worker::Lane(0), false);
    let client = Client {
        clock: rt,
        socket: &socket,
        gate: &gate,
        looks: LOOKS,
    };
    let none = Descriptors::none();
    Ok(ends(rt, alloc, config, &gate, Worker::Lane(0), client, none))
}

#[test]
fn a_worker_that_ends_while_a_lane_is_waited_for_is_told(rt: HostRuntime) -> Result<(), Fail> {
    let config = configured(rt.alloc(), TWO_HOMES)?;
    let is_right = first_lane_ends(&rt, rt.alloc(), &config);
    drop(config);
    holds(&rt, is_right?);
    Ok(())
}
