//! What each client has in the buffer, and how much of the buffer it may take.

ghost use Rattle.std.specs.Prelude.{◌↔◌, IsTrue};
ghost use Rattle.ledger_writer.specs.Shares.{IsBeyond};

use crate::parcel::{ParcelHead, ParcelKind};
use rad_realms::Client;
use std::alloc::{AllocError, Global};
use std::collections::BTreeMap;
use std::sync::atomic::{AtomicU64, Ordering};

/// How much of the buffer something takes.
#[derive(Clone, Copy)]
pub(crate) struct Taking {
    /// The octets of its packets.
    pub(crate) octets: u64,
    /// The places of its heads.
    pub(crate) places: u64,
}

/// What takes nothing.
pub(crate) const NOTHING: Taking = Taking {
    octets: 0,
    places: 0,
};

/// What the writer passed of each client, which it shares with the front. No call of it waits.
#[derive(Drop)]
pub(crate) struct ClientShares {
    /// The row of each client's address.
    rows: BTreeMap<[u8; 4], usize>,
    passed: Vec<Passed>,
}

/// How much of the buffer the entries of a client took that the writer passed.
#[derive(Drop)]
struct Passed {
    octets: AtomicU64,
    places: AtomicU64,
}

impl ClientShares {
    /// Makes the rows of these clients. Nothing is passed yet.
    pub(crate) fn new(alloc: Global, clients: &[Client]) -> Result<ClientShares, AllocError> {
        let mut rows = BTreeMap::new(alloc);
        let mut passed = Vec::with_capacity(alloc, clients.len())?;
        for (row, client) in clients.iter().enumerate() {
            rows.insert(client.address(), row)?;
            passed.push(Passed {
                octets: AtomicU64::new(0),
                places: AtomicU64::new(0),
            })?;
        }
        Ok(ClientShares { rows, passed })
    }

    /// Returns the row of a client's address.
    pub(crate) fn row(&self, address: [u8; 4]) -> Option<usize> {
        self.rows.get(&address).copied()
    }

    /// Counts an entry as passed: it no longer takes anything of the buffer. What is no response counts for nobody.
    pub(crate) fn pass(&self, head: &ParcelHead, octets: usize) {
        let ParcelKind::Response { .. } = head.its else {
            return;
        };
        if let Some(passed) = self.row(head.client).and_then(|row| self.passed.get(row)) {
            passed.octets.fetch_add(octets as u64, Ordering::SeqCst);
            passed.places.fetch_add(1, Ordering::SeqCst);
        }
    }

    /// Returns how much of the buffer the entries of the client in a row take, which took so much until now.
    pub(crate) fn held(&self, row: usize, put: Taking) -> Taking {
        match self.passed.get(row) {
            Some(passed) => Taking {
                octets: put
                    .octets
                    .saturating_sub(passed.octets.load(Ordering::SeqCst)),
                places: put
                    .places
                    .saturating_sub(passed.places.load(Ordering::SeqCst)),
            },
            None => NOTHING,
        }
    }
}

/// Returns whether an entry that takes `more` of a room of the buffer, of which so much is free, is beyond the share of its
/// client, which is one of so many and holds so much.
pub(crate) fn is_beyond(room: u64, clients: u64, free: u64, held: u64, more: u64) -> bool
    ensures { IsTrue result ↔ IsBeyond room clients free held more }
{
    let left = free.saturating_sub(more);
    if clients < 2 || left >= room / 2 {
        return false;
    }
    let least = room / 4 / (clients - 1);
    let largest = least.max(left.saturating_sub(room / 4));
    held > largest || more > largest - held
}
