//! The sockets of the proxy: those for its clients, and for each lane one for each of its source ports.

use super::client_sockets::ClientSockets;
use super::endpoints::{endpoint_of, socket_address};
use super::raw_sockets::{granted, widen};
use super::socket_reports::SocketReports;
use super::source_ports::{PortSettings, SourcePorts};
use crate::faults::ServeFault;
use rad_addresses::LocalAddresses;
use rad_desk::Worker;
use rad_realms::{Config, Endpoint, Home};
use std::alloc::Global;
use std::io::{self, Error};
use std::net::{Net, SocketAddr, UdpSocket};
use std::random::RandomSource;

/// The octets of datagrams not yet received that a socket may hold, and of those not yet sent. The system may grant less.
pub(crate) const BUFFER: i32 = 1 << 20;

/// The address to which a lane's sockets are bound, and the port by which the system chooses one.
pub(crate) const ANY: Endpoint = Endpoint {
    address: [0, 0, 0, 0],
    port: 0,
};

/// The sockets of the proxy. All are non-blocking.
#[derive(Drop)]
pub(crate) struct BoundSockets {
    pub(crate) front: ClientSockets,
    /// The sockets of each lane, in the order of the lanes and of their source ports.
    pub(crate) lanes: Vec<Vec<UdpSocket>>,
}

impl BoundSockets {
    /// Binds the sockets of a configuration. If one can't be bound, the reason is reported to the gate.
    ///
    /// # Errors
    ///
    /// `Listen`, and after that `LaneSocket` of the first such lane, if a socket can't be bound; `LaneSocket` of the first
    /// lane if the environment names no ports for them; `Memory` if a growth is refused.
    pub(crate) fn bind<R, A, G>(
        rt: &R,
        machine: &A,
        alloc: Global,
        config: &Config,
        gate: &G,
    ) -> Result<BoundSockets, ServeFault>
    where
        R: Net + RandomSource,
        A: LocalAddresses + PortSettings,
        G: SocketReports,
    {
        let front = ClientSockets::bind(rt, machine, alloc, config.listen(), gate)?;
        let lanes = bind_lanes(rt, machine, alloc, config.homes(), gate)?;
        Ok(BoundSockets { front, lanes })
    }

    /// Reports to a gate each socket and the receive buffer that it was granted.
    pub(crate) fn tell<G: SocketReports>(&self, gate: &G) {
        tell_each(self.front.sockets.as_slice(), Worker::Front, gate);
        for (lane, sockets) in self.lanes.iter().enumerate() {
            let worker = Worker::Lane(u16::try_from(lane).unwrap_or(u16::MAX));
            tell_each(sockets.as_slice(), worker, gate);
        }
    }
}

/// Reports a worker's sockets. A socket is omitted if the system does not say where it is bound.
fn tell_each<G: SocketReports>(sockets: &[UdpSocket], worker: Worker, gate: &G) {
    for (place, socket) in sockets.iter().enumerate() {
        if let Ok(SocketAddr::V4(at)) = socket.local_addr() {
            gate.bound(worker, place, endpoint_of(at), granted(socket));
        }
    }
}

fn bind_lanes<R: Net + RandomSource, S: PortSettings, G: SocketReports>(
    rt: &R,
    settings: &S,
    alloc: Global,
    homes: &[Home],
    gate: &G,
) -> Result<Vec<Vec<UdpSocket>>, ServeFault> {
    let mut ports = match SourcePorts::new(rt, settings, alloc, homes) {
        Ok(ports) => ports,
        Err(Some(fault)) => {
            gate.ports_refused(&fault);
            return Err(ServeFault::LaneSocket(0));
        }
        Err(None) => return Err(ServeFault::Memory),
    };
    let mut lanes = Vec::with_capacity(alloc, homes.len())?;
    for (lane, home) in homes.iter().enumerate() {
        ports.start_lane();
        match bind_ports(&mut ports, alloc, home.limits().numbers().ports) {
            Ok(sockets) => lanes.push(sockets)?,
            Err(error) => return Err(fault_of_lane(lane, ports.tried(), &error, gate)),
        }
        if ports.was_refused() {
            gate.ports_tried(
                Worker::Lane(u16::try_from(lane).unwrap_or(u16::MAX)),
                ports.tried(),
            );
        }
    }
    Ok(lanes)
}

/// Reports to the gate that the sockets of a lane can't be set up, and returns the fault.
pub(crate) fn lane_fault<G: SocketReports>(lane: usize, error: &Error, gate: &G) -> ServeFault {
    fault_of_lane(lane, 0, error, gate)
}

/// Reports to the gate that the sockets of a lane can't be bound or set up, after so many ports were tried by number, and
/// returns the fault.
fn fault_of_lane<G: SocketReports>(lane: usize, tried: u32, error: &Error, gate: &G) -> ServeFault {
    gate.unbound(ANY, tried, error);
    ServeFault::LaneSocket(lane).or_memory(error)
}

/// Binds `count` sockets to source ports.
///
/// # Errors
///
/// The system's error, and `OutOfMemory` if memory is refused.
fn bind_ports<R: Net + RandomSource, S: PortSettings>(
    ports: &mut SourcePorts<'_, R, S>,
    alloc: Global,
    count: u32,
) -> io::Result<Vec<UdpSocket>> {
    let mut sockets = Vec::with_capacity(alloc, count as usize)?;
    for _ in 0..count {
        sockets.push(ports.bind()?)?;
    }
    Ok(sockets)
}

/// Binds a socket, which is non-blocking.
///
/// # Errors
///
/// The system's error.
pub(crate) fn bind<R: Net>(rt: &R, endpoint: Endpoint) -> io::Result<UdpSocket> {
    let socket = UdpSocket::bind(rt, socket_address(endpoint))?;
    socket.set_nonblocking(true)?;
    widen(&socket, BUFFER);
    Ok(socket)
}
