//! Tests of what no run of the program shows for sure of the sockets: what is told of what the system dropped there, while
//! lines come and go in its table, and that a socket that is bound while others are read is not omitted.

use crate::comparing::holds;
use crate::configured::with_one_home;
use rad_desk::Worker;
use rad_metrics::{Draft, Numbers, SystemFiles};
use rad_realms::{Config, Endpoint};
use std::alloc::{AllocError, Global};
use std::sync::Wait;
use std::test::Fail;
use std::thread::{self, Threads};
use std::time::{Clock, Duration};

/// The sockets: that of the clients, and two of the lane.
const SOCKETS: [(Worker, usize, u16); 3] = [
    (Worker::Front, 0, 1813),
    (Worker::Lane(0), 0, 40000),
    (Worker::Lane(0), 1, 40001),
];

/// Tables of Linux, as they are read one after the other. The clients' socket is at 127.0.0.1:0715. Linux leaves out lines
/// of them, begins from 0 behind 2 ^ 32 - 1, and shows a number that falls.
const TABLES: &[&str] = &[
    "  sl  local_address rem_address   st tx_queue rx_queue tr tm->when retrnsmt   uid  timeout inode ref pointer drops\n\
       10: 0100007F:0715 00000000:0000 07 00000000:00000000 00:00000000 00000000     0        0 1 2 0 5480\n\
       11: 00000000:9C40 00000000:0000 07 00000000:00000000 00:00000000 00000000     0        0 2 2 0 7\n\
       12: 00000000:9C41 00000000:0000 07 00000000:00000000 00:00000000 00000000     0        0 3 2 0 0\n",
    "       12: 00000000:9C41 00000000:0000 07 00000000:00000000 00:00000000 00000000     0        0 3 2 0 2147483647\n",
    "",
    "       10: 0100007F:0715 00000000:0000 07 00000000:00000000 00:00000000 00000000     0        0 1 2 0 5479\n\
       11: 00000000:9C40 00000000:0000 07 00000000:00000000 00:00000000 00000000     0        0 2 2 0 8\n\
       12: 00000000:9C41 00000000:0000 07 00000000:00000000 00:00000000 00000000     0        0 3 2 0 4294967290\n",
    "       10: 0100007F:0715 00000000:0000 07 00000000:00000000 00:00000000 00000000     0        0 1 2 0 -1\n\
       12: 00000000:9C41 00000000:0000 07 00000000:00000000 00:00000000 00000000     0        0 3 2 0 4\n",
];

/// What is told of the sockets after each of these tables.
const DROPPED: &[[u64; 3]] = &[
    [5480, 7, 0],
    [5480, 7, 2_147_483_647],
    [5480, 7, 2_147_483_647],
    [5480, 8, 4_294_967_290],
    [5480, 8, 4_294_967_300],
];

/// How many sockets are bound while others are read, how many times those are read, and how often the table that is read has
/// its line.
const BOUND: usize = 100;

const READS: usize = 20;

const LINES: usize = 50;

/// A system whose table of sockets is this text, so many times.
#[derive(Clone, Copy)]
struct Table<'a>(&'a str, usize);

impl SystemFiles for Table<'_> {
    fn read(&self, path: &str, text: &mut Vec<u8>) {
        text.clear();
        if path != "/proc/self/net/udp" {
            return;
        }
        for _ in 0..self.1 {
            let _ = text.extend_from_slice(self.0.as_bytes());
        }
    }

    fn count_descriptors(&self) -> u64 {
        0
    }
}

fn values_of(alloc: Global, text: &str, metric: &str) -> Result<Vec<u64>, AllocError> {
    let mut values = Vec::new(alloc);
    for line in text.lines() {
        if line.starts_with(metric)
            && let Some((_, value)) = line.rsplit_once(' ')
        {
            values.push(value.parse::<u64>().unwrap_or(u64::MAX))?;
        }
    }
    Ok(values)
}

fn told<R: Clock + Wait>(
    rt: &R,
    alloc: Global,
    config: &Config,
    numbers: &Numbers<'_, R>,
    table: &Table<'_>,
    metric: &str,
) -> Result<Vec<u64>, Fail> {
    let mut draft = Draft::new(alloc);
    draft.read(rt, table, numbers)?;
    draft.write(config, numbers, None, None)?;
    let text = str::from_utf8(draft.text().as_slice()).unwrap_or("");
    Ok(values_of(alloc, text, metric)?)
}

/// Returns whether what is told after each table is right.
fn never_falls<R: Clock + Wait>(
    rt: &R,
    alloc: Global,
    config: &Config,
    numbers: &Numbers<'_, R>,
) -> Result<bool, Fail> {
    for (worker, place, port) in SOCKETS {
        let address = if worker == Worker::Front {
            [127, 0, 0, 1]
        } else {
            [0, 0, 0, 0]
        };
        numbers.bound(worker, place, Endpoint { address, port }, 4096);
    }
    let mut is_right = true;
    for (table, dropped) in TABLES.iter().zip(DROPPED) {
        let found = told(
            rt,
            alloc,
            config,
            numbers,
            &Table(table, 1),
            "rad_proxy_socket_drops_total{",
        )?;
        is_right &= found.as_slice() == dropped.as_slice();
    }
    Ok(is_right)
}

/// Binds sockets of the lane in one thread while another one reads those that are bound. Returns whether all are told in the
/// end.
fn omits_none<R: Clock + Wait + Threads + Sync>(
    rt: &R,
    alloc: Global,
    config: &Config,
    numbers: &Numbers<'_, R>,
) -> Result<bool, Fail> {
    let buffers = "rad_proxy_socket_buffer_bytes{";
    let ((), read) = thread::join(
        rt,
        || bind_all(rt, numbers),
        || read_often(rt, alloc, numbers),
    );
    read?;
    let found = told(rt, alloc, config, numbers, &Table("", 1), buffers)?;
    Ok(found.len() == BOUND)
}

/// Binds the sockets of the lane.
fn bind_all<R: Clock + Wait>(rt: &R, numbers: &Numbers<'_, R>) {
    for place in 0..BOUND {
        thread::sleep(rt, Duration::from_micros(20));
        let at = Endpoint {
            address: [0, 0, 0, 0],
            port: 40_000,
        };
        numbers.bound(Worker::Lane(0), place, at, 4096);
    }
}

fn read_often<R: Clock + Wait>(
    rt: &R,
    alloc: Global,
    numbers: &Numbers<'_, R>,
) -> Result<(), AllocError> {
    let mut draft = Draft::new(alloc);
    for _ in 0..READS {
        draft.read(rt, &Table(TABLES[1], LINES), numbers)?;
    }
    Ok(())
}

#[test]
fn what_a_socket_dropped_never_falls(rt: HostRuntime) -> Result<(), Fail> {
    let config = with_one_home(rt.alloc(), "")?;
    let numbers = Numbers::new(rt.alloc(), &rt, &config)?;
    let is_right = never_falls(&rt, rt.alloc(), &config, &numbers);
    drop(numbers);
    drop(config);
    holds(&rt, is_right?);
    Ok(())
}

#[test]
fn no_socket_is_omitted_while_others_are_read(rt: HostRuntime) -> Result<(), Fail> {
    let config = with_one_home(rt.alloc(), "")?;
    let numbers = Numbers::new(rt.alloc(), &rt, &config)?;
    let is_right = omits_none(&rt, rt.alloc(), &config, &numbers);
    drop(numbers);
    drop(config);
    holds(&rt, is_right?);
    Ok(())
}
