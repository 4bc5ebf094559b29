//! The sockets of the workers: the receive buffer that the system granted each, and how many datagrams it dropped
//! because that was full. The system reports that in /proc/self/net/udp, in a line for each socket. The second word is
//! the address and port that it is bound to, in hexadecimal, and the last one how many datagrams were dropped there.

ghost use Rattle.std.specs.Prelude.{◌≡◌, ◌≤◌};
ghost use Rattle.rad_metrics.specs.Metrics.{socket_value, dropped_so_far};

use crate::value::Value;
use rad_desk::Worker;
use rad_realms::Endpoint;
use std::alloc::{AllocError, Global};
use std::sync::{Mutex, Wait};

/// The file in which Linux lists the UDP sockets of this program's network alone.
pub(crate) const UDP_TABLE: &str = "/proc/self/net/udp";

/// A metric of a socket.
#[derive(Clone, Copy)]
pub enum SocketMetric {
    Buffer,
    Dropped,
}

impl SocketMetric {
    /// Returns the value of the metric for a socket.
    pub fn value(self, reading: &SocketReading) -> Value
        ensures { result ≡ socket_value self reading.now }
    {
        match self {
            SocketMetric::Buffer => Value::Count(u64::from(reading.buffer)),
            SocketMetric::Dropped => Value::Count(reading.dropped),
        }
    }
}

/// What is known of a socket.
#[derive(Clone, Copy)]
pub struct SocketReading {
    /// The worker that it belongs to.
    pub worker: Worker,
    /// The number of sockets of the same worker before it.
    pub place: usize,
    /// The address and port that it is bound to.
    pub at: Endpoint,
    /// The octets of datagrams not yet received that it may hold.
    pub buffer: u32,
    /// How many datagrams were dropped there because that was full.
    pub dropped: u64,
}

/// What is known of all sockets, in the order in which they were bound.
#[derive(Drop)]
pub(crate) struct SocketNumbers {
    sockets: Mutex<Vec<SocketReading>>,
}

impl SocketNumbers {
    /// Makes it without a socket.
    pub(crate) fn new(alloc: Global) -> SocketNumbers {
        SocketNumbers {
            sockets: Mutex::new(Vec::new(alloc)),
        }
    }

    /// Records that a worker's socket is bound to this address and port, after `place` others of the same worker, with this
    /// receive buffer. It waits while the sockets are being read. A socket is omitted if memory for it is refused.
    pub(crate) fn bound<S: Wait>(
        &self,
        rt: &S,
        worker: Worker,
        place: usize,
        at: Endpoint,
        buffer: u32,
    ) {
        let _ = self.sockets.lock(rt).push(SocketReading {
            worker,
            place,
            at,
            buffer,
            dropped: 0,
        });
    }

    /// Replaces `readings` with those of all sockets, with what a table of the system reports of each. What it does not
    /// report of a socket stays as it was.
    ///
    /// # Errors
    ///
    /// `AllocError` if memory is refused.
    pub(crate) fn read<S: Wait>(
        &self,
        rt: &S,
        table: &str,
        readings: &mut Vec<SocketReading>,
    ) -> Result<(), AllocError> {
        readings.clear();
        let mut sockets = self.sockets.lock(rt);
        for socket in sockets.iter_mut() {
            if let Some(shown) = dropped_at(table, socket.at) {
                socket.dropped = dropped_by(socket.dropped, shown);
            }
            readings.push(*socket)?;
        }
        Ok(())
    }
}

/// Returns how many datagrams were dropped so far at a socket, of which `before` are known, if the system shows this
/// number of them. The system counts up to 32 bits and then from 0 again. A number that falls otherwise changes nothing.
pub fn dropped_by(before: u64, shown: u32) -> u64
    ensures counted { result ≡ dropped_so_far before shown }
    ensures grows { before ≤ result }
{
    let more = (u64::from(shown) + (1 << 32) - before % (1 << 32)) % (1 << 32);
    match before.checked_add(more) {
        Some(sum) if more < 1 << 31 => sum,
        _ => before,
    }
}

/// Returns how many datagrams a table shows as dropped at the socket that is bound to `at`, if it has a line of that.
pub(crate) fn dropped_at(table: &str, at: Endpoint) -> Option<u32> {
    for line in table.lines() {
        let mut words = line.split_ascii_whitespace();
        let _ = words.next();
        if words.next().and_then(read_endpoint) == Some(at) {
            return words.last()?.parse::<u32>().ok();
        }
    }
    None
}

/// Reads an address and a port in hexadecimal. The address is written as the number that its octets make in this
/// machine's byte order.
fn read_endpoint(word: &str) -> Option<Endpoint> {
    let (address, port) = word.split_once(':')?;
    Some(Endpoint {
        address: u32::from_str_radix(address, 16).ok()?.to_ne_bytes(),
        port: u16::from_str_radix(port, 16).ok()?,
    })
}
