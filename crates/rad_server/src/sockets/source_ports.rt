//! The ports that the lanes send from: those that the environment pins, or those that the system chooses. If the system has
//! none left, since others hold them all, random ports outside of its range are tried.

use super::bound_sockets::{ANY, bind};
use super::endpoints::socket_address;
use super::port_range::{
    PortRange, PortsFault, choose_port, is_kept, read_pinned, read_reserved, read_system_range,
};
use libc::EADDRINUSE;
use rad_realms::{Endpoint, Home};
use rand::rngs::StdRng;
use rand::{Rng, make_rng};
use std::alloc::Global;
use std::env::VarError;
use std::io::{self, Error, ErrorKind};
use std::net::{Net, UdpSocket};
use std::random::RandomSource;

/// The file in which Linux tells the range from which it chooses a port.
const RANGE: &str = "/proc/sys/net/ipv4/ip_local_port_range";

/// The file in which it lists the ports that it never chooses.
const RESERVED: &str = "/proc/sys/net/ipv4/ip_local_reserved_ports";

/// The most random ports that are tried for a socket.
const MOST_TRIED: u32 = 300;

/// The most that are drawn for it, with those that are left to others.
const MOST_DRAWN: u32 = 10_000;

/// What says which ports the lanes send from.
pub trait PortSettings {
    /// Returns the value of `RAD_PROXY_SOURCE_PORTS`.
    ///
    /// # Errors
    ///
    /// The reason why there is none.
    fn pinned(&self) -> Result<String, VarError>;

    /// Returns the text of the file of this path, a setting of Linux.
    ///
    /// # Errors
    ///
    /// The reason why it can't be read.
    fn setting(&self, alloc: Global, path: &str) -> io::Result<Vec<u8>>;
}

/// What the lanes' sockets are bound to.
#[derive(Drop)]
pub(crate) struct SourcePorts<'a, R, S> {
    rt: &'a R,
    settings: &'a S,
    alloc: Global,
    homes: &'a [Home],
    /// The ports that are left of the range to which the environment pins the lanes, if it does.
    pinned: Option<PortsLeft>,
    /// What is known of other ports, once the system has had none.
    others: Option<OtherPorts>,
    /// How many ports were tried by number, and how many times a port was refused, since the last call of `start_lane`.
    tried: u32,
    refused: u32,
}

/// The ports of a range that are not tried yet: from `next`, which may be 65536, to `last`.
#[derive(Clone, Copy)]
struct PortsLeft {
    next: u32,
    last: u16,
}

/// The ports outside of the system's range, of which some are left to others.
#[derive(Drop)]
struct OtherPorts {
    system: PortRange,
    kept: Vec<PortRange>,
    random: StdRng,
}

impl<'a, R: Net + RandomSource, S: PortSettings> SourcePorts<'a, R, S> {
    /// Reads to which ports the environment pins the sockets for these home servers.
    ///
    /// # Errors
    ///
    /// Why it says none; `None` if memory is refused.
    pub(crate) fn new(
        rt: &'a R,
        settings: &'a S,
        alloc: Global,
        homes: &'a [Home],
    ) -> Result<SourcePorts<'a, R, S>, Option<PortsFault>> {
        let pinned = match settings.pinned() {
            Ok(value) => match read_pinned(value.as_str(), needed(homes)) {
                Ok(pinned) => pinned,
                Err(fault) => return Err(Some(fault)),
            },
            Err(VarError::NotPresent) => None,
            Err(VarError::NotUnicode) => return Err(Some(PortsFault::NoText)),
            Err(VarError::OutOfMemory) => return Err(None),
        };
        let pinned = match pinned {
            Some(PortRange { first, last }) => Some(PortsLeft {
                next: u32::from(first),
                last,
            }),
            None => None,
        };
        Ok(SourcePorts {
            rt,
            settings,
            alloc,
            homes,
            pinned,
            others: None,
            tried: 0,
            refused: 0,
        })
    }

    /// Counts what is tried from now on.
    pub(crate) fn start_lane(&mut self) {
        self.tried = 0;
        self.refused = 0;
    }

    pub(crate) fn tried(&self) -> u32 {
        self.tried
    }

    pub(crate) fn was_refused(&self) -> bool {
        self.refused > 0
    }

    /// Binds a socket: to the next free port of the range, if the environment pins the ports; otherwise to one that the
    /// system chooses, or if it has none to a random one outside of its range.
    ///
    /// # Errors
    ///
    /// The system's error for the last port, and `OutOfMemory` if memory is refused.
    pub(crate) fn bind(&mut self) -> io::Result<UdpSocket> {
        if let Some(left) = self.pinned {
            return self.bind_pinned(left);
        }
        match bind(self.rt, ANY) {
            Err(error) if is_taken(&error) => self.bind_other(error),
            bound => bound,
        }
    }

    /// Binds a socket to the next free port of a range.
    fn bind_pinned(&mut self, left: PortsLeft) -> io::Result<UdpSocket> {
        let mut last = Error::from_raw_os_error(EADDRINUSE);
        for port in left.next..u32::from(left.last) + 1 {
            self.pinned = Some(PortsLeft {
                next: port + 1,
                last: left.last,
            });
            match self.try_port(port as u16) {
                Err(error) if is_taken(&error) => last = error,
                bound => return bound,
            }
        }
        Err(last)
    }

    /// Binds a socket to a random port outside of the system's range, for which it has this error.
    fn bind_other(&mut self, error: Error) -> io::Result<UdpSocket> {
        self.refused = self.refused.saturating_add(1);
        let most = self.tried.saturating_add(MOST_TRIED);
        let mut last = error;
        for _ in 0..MOST_DRAWN {
            if self.tried == most {
                break;
            }
            let Some(port) = self.draw()? else {
                continue;
            };
            match self.try_port(port) {
                Err(error) if is_taken(&error) => last = error,
                bound => return bound,
            }
        }
        Err(last)
    }

    /// Draws a port outside of the system's range. `None` if there is none, or it is left to others.
    fn draw(&mut self) -> io::Result<Option<u16>> {
        if self.others.is_none() {
            self.others = Some(self.find_others()?);
        }
        let Some(others) = &mut self.others else {
            return Ok(None);
        };
        let port = choose_port(others.system, others.random.next_u64());
        Ok(port.filter(|port| !is_kept(others.kept.as_slice(), *port)))
    }

    /// Reads which ports are outside of the system's range, and which of them are left to others: the reserved ones, and
    /// those of the home servers, since these may be started on this machine.
    fn find_others(&self) -> io::Result<OtherPorts> {
        let range = self.read_setting(RANGE)?;
        let reserved = self.read_setting(RESERVED)?;
        let mut kept = read_reserved(self.alloc, text_of(&reserved))?;
        for home in self.homes {
            kept.push(PortRange::single(home.port()))?;
        }
        Ok(OtherPorts {
            system: read_system_range(text_of(&range)),
            kept,
            random: make_rng(self.rt)?,
        })
    }

    /// Returns the text of a setting of Linux, which is empty if it can't be read.
    fn read_setting(&self, path: &str) -> io::Result<Vec<u8>> {
        match self.settings.setting(self.alloc, path) {
            Err(error) if error.kind() == ErrorKind::OutOfMemory => Err(error),
            Err(_) => Ok(Vec::new(self.alloc)),
            text => text,
        }
    }

    fn try_port(&mut self, port: u16) -> io::Result<UdpSocket> {
        self.tried = self.tried.saturating_add(1);
        let bound = bind(self.rt, Endpoint { port, ..ANY });
        if bound.is_err() {
            self.refused = self.refused.saturating_add(1);
        }
        bound
    }
}

/// Returns how many ports the lanes of these home servers need.
fn needed(homes: &[Home]) -> u32 {
    let mut needed = 0_u32;
    for home in homes {
        needed = needed.saturating_add(home.limits().numbers().ports);
    }
    needed
}

/// Returns whether another port may be had where one was refused for this reason: a socket has it, or it is for others.
fn is_taken(error: &Error) -> bool {
    matches!(
        error.kind(),
        ErrorKind::AddrInUse | ErrorKind::PermissionDenied
    )
}

/// Returns a text of the system, as far as it is one.
fn text_of(room: &Vec<u8>) -> &str {
    str::from_utf8(room.as_slice()).unwrap_or("")
}
