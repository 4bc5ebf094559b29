//! The sockets for the clients: one at `listen`, and if that is all addresses of this machine, one more for each
//! address.

use super::bound_sockets::{BUFFER, bind};
use super::raw_sockets::{bind_beside, set_shared, widen};
use super::socket_reports::SocketReports;
use crate::faults::ServeFault;
use rad_addresses::{KnownAddresses, LocalAddresses};
use rad_realms::Endpoint;
use std::alloc::Global;
use std::io::{Error, ErrorKind};
use std::net::{Net, UdpSocket};

/// All addresses of this machine.
const ALL: [u8; 4] = [0, 0, 0, 0];

/// The most addresses that have a socket of their own.
const MOST: usize = 256;

/// The sockets for the clients. All are non-blocking.
#[derive(Drop)]
pub(crate) struct ClientSockets {
    /// The socket at `listen`, followed by those of single addresses.
    pub(crate) sockets: Vec<UdpSocket>,
    /// The known addresses, if all addresses of this machine are served.
    pub(crate) known: Option<KnownAddresses>,
}

impl ClientSockets {
    /// Binds the sockets. It reports to the gate each address of this machine that has no socket of its own, and each
    /// socket that can't be bound.
    ///
    /// # Errors
    ///
    /// `Listen` if a socket can't be bound, and `Memory` if a growth is refused.
    pub(crate) fn bind<R: Net, A: LocalAddresses, G: SocketReports>(
        rt: &R,
        addresses: &A,
        alloc: Global,
        listen: Endpoint,
        gate: &G,
    ) -> Result<ClientSockets, ServeFault> {
        let first = match bind(rt, listen) {
            Ok(socket) => socket,
            Err(error) => return Err(fault_at(listen, listen, &error, gate)),
        };
        let mut sockets = Vec::new(alloc);
        sockets.push(first)?;
        if listen.address == ALL {
            match addresses.read(alloc) {
                Ok(local) => return bind_each(alloc, sockets, listen, local.as_slice(), gate),
                Err(error) => gate.addresses_unread(&error),
            }
        }
        Ok(ClientSockets {
            sockets,
            known: None,
        })
    }
}

/// Adds to these sockets, of which the first is at `listen`, one for each of these addresses. Sockets of the same user
/// may be bound beside them while it does so, and none afterwards.
fn bind_each<G: SocketReports>(
    alloc: Global,
    mut sockets: Vec<UdpSocket>,
    listen: Endpoint,
    addresses: &[[u8; 4]],
    gate: &G,
) -> Result<ClientSockets, ServeFault> {
    let mut known = KnownAddresses::new(alloc)?;
    share_each(&sockets, true, listen, gate)?;
    for address in addresses {
        if known.learn(*address) {
            bind_next(&mut sockets, listen, *address, gate)?;
        }
    }
    share_each(&sockets, false, listen, gate)?;
    Ok(ClientSockets {
        sockets,
        known: Some(known),
    })
}

/// Adds a socket for this address, unless [`MOST`] addresses have one or the machine no longer has the address.
fn bind_next<G: SocketReports>(
    sockets: &mut Vec<UdpSocket>,
    listen: Endpoint,
    address: [u8; 4],
    gate: &G,
) -> Result<(), ServeFault> {
    if sockets.len() > MOST {
        gate.address_unbound(address);
        return Ok(());
    }
    let at = Endpoint { address, ..listen };
    match bind_beside(at) {
        Ok(socket) => {
            widen(&socket, BUFFER);
            sockets.push(socket)?;
        }
        Err(error) if error.kind() == ErrorKind::AddrNotAvailable => gate.address_unbound(address),
        Err(error) => return Err(fault_at(listen, at, &error, gate)),
    }
    Ok(())
}

/// Sets whether other sockets of the same user may be bound beside these from now on.
fn share_each<G: SocketReports>(
    sockets: &[UdpSocket],
    is_shared: bool,
    listen: Endpoint,
    gate: &G,
) -> Result<(), ServeFault> {
    for socket in sockets {
        if let Err(error) = set_shared(socket, is_shared) {
            return Err(fault_at(listen, listen, &error, gate));
        }
    }
    Ok(())
}

/// Reports to the gate that a socket can't be bound or set up, and returns the fault.
pub(crate) fn fault_at<G: SocketReports>(
    listen: Endpoint,
    at: Endpoint,
    error: &Error,
    gate: &G,
) -> ServeFault {
    gate.unbound(at, 0, error);
    ServeFault::Listen(listen).or_memory(error)
}
