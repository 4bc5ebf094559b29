//! Growing the heap of a thread in large pieces.

use std::alloc::{AllocError, Global};

/// The octets of a piece. The C library frees a block of less than 64 KB without giving memory back to the system.
const OCTETS: usize = 60_000;

/// The number of datagrams from one piece to the next.
const DATAGRAMS: u32 = 128;

/// Grows the heap of the thread that calls it in large pieces.
///
/// The C library grows the heap of a thread by the pages that an allocation needs, with a system call each time. What
/// is kept of a request takes about a tenth of a page. So a larger piece is allocated now and then, and freed at once.
/// The heap has grown by then, and the next allocations fit in.
#[derive(Drop)]
pub(crate) struct HeapRoom {
    alloc: Global,
    /// The number of datagrams since the last piece.
    datagrams: u32,
}

impl HeapRoom {
    /// Makes it. It has allocated nothing yet.
    pub(crate) fn new(alloc: Global) -> HeapRoom {
        HeapRoom {
            alloc,
            datagrams: 0,
        }
    }

    /// Counts a datagram, and allocates a piece at every [`DATAGRAMS`]th one. If that is refused, the heap grows as it
    /// would without it.
    pub(crate) fn count_datagram(&mut self) {
        self.datagrams = self.datagrams.saturating_add(1);
        if self.datagrams >= DATAGRAMS {
            self.datagrams = 0;
            let piece: Result<Vec<u8>, AllocError> = Vec::with_capacity(self.alloc, OCTETS);
            drop(piece);
        }
    }
}
