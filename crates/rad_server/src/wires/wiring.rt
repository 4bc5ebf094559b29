//! Making the wires over a configuration's sockets, and the notifiers of those that wait there.

use super::polling::{Links, PolledSockets};
use super::udp_wire::UdpWire;
use crate::console::Interruptible;
use crate::faults::ServeFault;
use crate::sending::Reports;
use crate::sockets::{
    AddressMonitor, Answering, BoundSockets, ClientSockets, SocketReports, fault_at, lane_fault,
};
use crate::waking::{Neighbours, Notifiers, RingLevel, RingRoom, Sleeper};
use rad_addresses::{KnownAddresses, Origins};
use rad_desk::{Gate, Worker};
use rad_realms::{Client, Config, Home};
use rand::rngs::StdRng;
use rand::{Rng, make_rng};
use std::alloc::{AllocError, Global};
use std::io::{self, Read};
use std::net::{Net, UdpSocket};
use std::os::fd::RawFd;
use std::random::RandomSource;
use std::time::{Clock, Instant};

/// The wires of the workers.
#[derive(Drop)]
pub struct Wires<W: Drop> {
    pub front: W,
    /// Those of the lanes, in order.
    pub lanes: Vec<W>,
}

/// The wires of the workers, and the notifiers of those that wait.
#[derive(Drop)]
pub struct NotifiedWires<'a, W: Drop> {
    pub wires: Wires<W>,
    /// The notifiers of the wires and of the reader, as far as these have any.
    pub notifiers: &'a Notifiers,
}

/// What the workers sleep over.
#[derive(Drop)]
pub(crate) struct Sleepers {
    front: Sleeper,
    /// Those of the lanes, in order.
    lanes: Vec<Sleeper>,
}

impl Sleepers {
    /// Returns the notifiers of the workers that sleep over these and of the reader, and the levels of the lanes' rings.
    ///
    /// # Errors
    ///
    /// `AllocError` if memory is refused.
    pub(crate) fn notifiers<I: Read + Drop>(
        &self,
        alloc: Global,
        homes: &[Home],
        reader: &Interruptible<I>,
    ) -> Result<Notifiers, AllocError> {
        let mut lanes = Vec::with_capacity(alloc, self.lanes.len())?;
        for sleeper in &self.lanes {
            lanes.push(sleeper.notifier()?)?;
        }
        let mut rings = Vec::with_capacity(alloc, homes.len())?;
        for home in homes {
            rings.push(RingLevel::new(alloc, home.limits().numbers().ring)?)?;
        }
        Ok(Notifiers {
            front: Some(self.front.notifier()?),
            lanes,
            reader: Some(reader.notifier()?),
            rings,
        })
    }
}

/// Makes the wires over a configuration's sockets. Their moments count from the same start. An address that this machine
/// gets later, and what the system refuses, is reported to the gate.
#[derive(Drop)]
pub(crate) struct WireMaker<'a, R, G, A> {
    rt: &'a R,
    addresses: &'a A,
    alloc: Global,
    start: Instant,
    gate: &'a G,
}

impl<'a, R: Clock + Net + RandomSource, G: Gate + SocketReports, A> WireMaker<'a, R, G, A> {
    /// Makes it with the start now.
    ///
    /// # Errors
    ///
    /// `Clock` if the clock fails.
    pub(crate) fn new(
        rt: &'a R,
        addresses: &'a A,
        alloc: Global,
        gate: &'a G,
    ) -> Result<WireMaker<'a, R, G, A>, ServeFault> {
        match Instant::now(rt) {
            Ok(start) => Ok(WireMaker {
                rt,
                addresses,
                alloc,
                start,
                gate,
            }),
            Err(_) => Err(ServeFault::Clock),
        }
    }

    /// Makes what the workers of a configuration sleep over.
    ///
    /// # Errors
    ///
    /// `Listen` or `LaneSocket` if the system refuses a poll, and `Memory` if a growth is refused.
    pub(crate) fn make_sleepers(&self, config: &Config) -> Result<Sleepers, ServeFault> {
        let listen = config.listen();
        let front = match Sleeper::new(self.rt, self.alloc) {
            Ok(sleeper) => sleeper,
            Err(error) => return Err(fault_at(listen, listen, &error, self.gate)),
        };
        let mut lanes = Vec::with_capacity(self.alloc, config.homes().len())?;
        for lane in 0..config.homes().len() {
            match Sleeper::new(self.rt, self.alloc) {
                Ok(sleeper) => lanes.push(sleeper)?,
                Err(error) => return Err(lane_fault(lane, &error, self.gate)),
            }
        }
        Ok(Sleepers { front, lanes })
    }

    /// Makes the wires over these sockets, whose workers have these notifiers.
    ///
    /// # Errors
    ///
    /// `Listen` or `LaneSocket` if the system refuses a wire, and `Memory` if a growth is refused.
    pub(crate) fn make_wires(
        &self,
        config: &Config,
        sockets: BoundSockets,
        sleepers: Sleepers,
        notifiers: &Notifiers,
    ) -> Result<Wires<UdpWire<'a, R, G, A>>, ServeFault> {
        let listen = config.listen();
        let BoundSockets { front, lanes } = sockets;
        let links = links_of(self.alloc, Worker::Front, sleepers.front, notifiers)?;
        let front = match self.make_front(front, links, config.clients()) {
            Ok(wire) => wire,
            Err(error) => return Err(fault_at(listen, listen, &error, self.gate)),
        };
        let mut wires = Vec::with_capacity(self.alloc, lanes.len())?;
        for (lane, (sockets, sleeper)) in lanes.into_iter().zip(sleepers.lanes).enumerate() {
            let worker = Worker::Lane(u16::try_from(lane).unwrap_or(u16::MAX));
            let links = links_of(self.alloc, worker, sleeper, notifiers)?;
            match self.make_lane(worker, sockets, links) {
                Ok(wire) => wires.push(wire)?,
                Err(error) => return Err(lane_fault(lane, &error, self.gate)),
            }
        }
        Ok(Wires {
            front,
            lanes: wires,
        })
    }

    /// Makes the wire of the front over these sockets, which these clients see as one.
    ///
    /// # Errors
    ///
    /// The system's error, and `OutOfMemory` if memory is refused.
    fn make_front(
        &self,
        sockets: ClientSockets,
        links: Links,
        clients: &[Client],
    ) -> io::Result<UdpWire<'a, R, G, A>> {
        let ClientSockets { sockets, known } = sockets;
        let mut random: StdRng = make_rng(self.rt)?;
        let answering = match known {
            Some(known) => Some(self.answer(clients, known, random.next_u64())?),
            None => None,
        };
        self.make(Worker::Front, random, sockets, links, answering)
    }

    /// Makes what answers each datagram from the front's socket that it came to.
    ///
    /// # Errors
    ///
    /// `AllocError` if memory is refused.
    fn answer(
        &self,
        clients: &[Client],
        known: KnownAddresses,
        random: u64,
    ) -> Result<Answering<'a, R, G, A>, AllocError> {
        let origins = Origins::new(self.alloc, clients, random)?;
        let monitor = AddressMonitor::new(self.rt, self.addresses, self.alloc, self.gate, known);
        Ok(Answering::new(origins, monitor))
    }

    /// Makes the wire of a lane over these sockets, each of which has a number of its own.
    ///
    /// # Errors
    ///
    /// The system's error, and `OutOfMemory` if memory is refused.
    fn make_lane(
        &self,
        worker: Worker,
        sockets: Vec<UdpSocket>,
        links: Links,
    ) -> io::Result<UdpWire<'a, R, G, A>> {
        self.make(worker, make_rng(self.rt)?, sockets, links, None)
    }

    /// Makes the wire of a worker over these sockets.
    ///
    /// # Errors
    ///
    /// The system's error, and `OutOfMemory` if memory is refused.
    fn make(
        &self,
        worker: Worker,
        random: StdRng,
        sockets: Vec<UdpSocket>,
        links: Links,
        answering: Option<Answering<'a, R, G, A>>,
    ) -> io::Result<UdpWire<'a, R, G, A>> {
        let gate = self.gate;
        let polled = PolledSockets::new(self.alloc, sockets, links, Reports { worker, gate })?;
        let (rt, start) = (self.rt, self.start);
        Ok(UdpWire::new(self.alloc, rt, start, random, polled, answering))
    }
}

/// Returns what a worker sleeps over, which is this, with its neighbours and its ring.
///
/// # Errors
///
/// `AllocError` if memory is refused.
fn links_of(
    alloc: Global,
    worker: Worker,
    sleeper: Sleeper,
    notifiers: &Notifiers,
) -> Result<Links, AllocError> {
    let neighbours = Neighbours::new(sleeper.notifier()?, notifiers.others_of(alloc, worker)?);
    let ring = match worker {
        Worker::Front => None,
        Worker::Lane(lane) => notifiers.share_ring(usize::from(lane))?.map(RingRoom::of),
    };
    Ok(Links {
        sleeper,
        neighbours,
        ring,
    })
}

/// Makes a reader that a notification interrupts.
///
/// # Errors
///
/// `Memory` if a growth is refused, and otherwise `InputWait`.
pub(crate) fn make_reader<I: Read + Drop>(
    net: &impl Net,
    alloc: Global,
    reader: I,
    descriptor: Option<RawFd>,
) -> Result<Interruptible<I>, ServeFault> {
    match Interruptible::new(net, alloc, reader, descriptor) {
        Ok(reader) => Ok(reader),
        Err(error) => Err(ServeFault::InputWait(error.raw_os_error()).or_memory(&error)),
    }
}
