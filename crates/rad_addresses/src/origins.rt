//! To which of the front's sockets each client's last datagram came.

use rad_realms::{Client, Endpoint};
use std::alloc::{AllocError, Global};

/// The number of rows, each of which holds [`ROW`] ports of clients: 65,536 together.
const ROWS: usize = 1 << 13;

const ROW: usize = 8;

/// The number of bits by which a 64-bit product is shifted right to give a row's index.
const CUT: u32 = 51;

/// The socket to which the last datagram from `peer` came.
#[derive(Clone, Copy)]
struct PeerSocket {
    peer: Endpoint,
    socket: u16,
}

/// The content of a free place: no datagram comes from port 0 of this address.
const NOBODY: PeerSocket = PeerSocket {
    peer: Endpoint {
        address: [0, 0, 0, 0],
        port: 0,
    },
    socket: 0,
};

/// Ports of clients, the one with the most recent datagram first.
#[derive(Clone, Copy)]
struct Row([PeerSocket; ROW]);

impl Row {
    /// Returns the socket to which the last datagram from `peer` came, if the row holds it.
    fn find(&self, peer: Endpoint) -> Option<u16> {
        for place in &self.0 {
            if place.peer == peer {
                return Some(place.socket);
            }
        }
        None
    }

    /// Puts an origin first. Those before the place of the same peer's earlier origin move back by one. If there is
    /// none, all move back, and the last one is dropped.
    fn put(&mut self, origin: PeerSocket) {
        let mut moved = origin;
        for place in &mut self.0 {
            let old = *place;
            *place = moved;
            if old.peer == origin.peer {
                return;
            }
            moved = old;
        }
    }
}

/// To which of the front's sockets each client's last datagram came: by address and port for the most recent ones, and
/// by address for every client. It allocates nothing after it is made.
#[derive(Drop)]
pub struct Origins {
    /// The addresses of the clients, sorted.
    clients: Vec<[u8; 4]>,
    /// The socket to which the last datagram of each of these clients came, from any of its ports.
    sockets: Vec<u16>,
    rows: Vec<Row>,
    /// The factor that spreads the ports over the rows: an odd number that nobody can predict.
    factor: u64,
}

impl Origins {
    /// Makes the origins of these clients, none of which sent anything yet.
    ///
    /// # Errors
    ///
    /// `AllocError` if memory is refused.
    pub fn new(alloc: Global, clients: &[Client], random: u64) -> Result<Origins, AllocError> {
        let mut sockets = Vec::with_capacity(alloc, clients.len())?;
        sockets.resize(clients.len(), 0)?;
        Ok(Origins {
            clients: sorted_addresses(alloc, clients)?,
            sockets,
            rows: empty_rows(alloc)?,
            factor: random | 1,
        })
    }

    /// Notes that a datagram came from `peer` to a socket. For a sender that is not a client nothing is kept.
    pub fn note(&mut self, peer: Endpoint, socket: u16) {
        let Ok(place) = self.place_of(peer.address) else {
            return;
        };
        if let Some(last) = self.sockets.get_mut(place) {
            *last = socket;
        }
        let row = self.row_of(peer);
        if let Some(row) = self.rows.get_mut(row) {
            row.put(PeerSocket { peer, socket });
        }
    }

    /// Returns the socket to which the last datagram from `peer` came. If that is no longer kept, it returns the socket
    /// of the client's last datagram from any port, and for a sender that is not a client the first socket.
    pub fn socket_of(&self, peer: Endpoint) -> u16 {
        match self.find(peer) {
            Some(socket) => socket,
            None => self.socket_of_client(peer.address),
        }
    }

    /// Returns the socket to which the last datagram from `peer` came, if that is still kept.
    fn find(&self, peer: Endpoint) -> Option<u16> {
        self.rows.get(self.row_of(peer))?.find(peer)
    }

    fn socket_of_client(&self, address: [u8; 4]) -> u16 {
        match self.place_of(address) {
            Ok(place) => self.sockets.get(place).copied().unwrap_or(0),
            Err(_) => 0,
        }
    }

    /// Returns the index of a client, if the address is a client's.
    fn place_of(&self, address: [u8; 4]) -> Result<usize, usize> {
        self.clients.as_slice().binary_search(&address)
    }

    fn row_of(&self, peer: Endpoint) -> usize {
        let [a, b, c, d] = peer.address;
        let [e, f] = peer.port.to_be_bytes();
        let number = u64::from_be_bytes([0, 0, a, b, c, d, e, f]);
        (number.wrapping_mul(self.factor) >> CUT) as usize
    }
}

fn sorted_addresses(alloc: Global, clients: &[Client]) -> Result<Vec<[u8; 4]>, AllocError> {
    let mut addresses = Vec::with_capacity(alloc, clients.len())?;
    for client in clients {
        addresses.push(client.address())?;
    }
    addresses.as_mut_slice().sort_unstable();
    Ok(addresses)
}

fn empty_rows(alloc: Global) -> Result<Vec<Row>, AllocError> {
    let mut rows = Vec::with_capacity(alloc, ROWS)?;
    for _ in 0..ROWS {
        rows.push(Row([NOBODY; ROW]))?;
    }
    Ok(rows)
}
