//! Looking for addresses that this machine gets after the start.

use super::socket_reports::SocketReports;
use crate::serving::has_passed;
use rad_addresses::{KnownAddresses, LocalAddresses};
use std::alloc::Global;
use std::time::{Clock, Duration, Instant};

/// The least time between two reads of the machine's addresses, in seconds.
const LOOK: u64 = 10;

/// Reports to the gate each address that this machine gets after the start.
///
/// A datagram that is sent to such an address arrives at the socket that is bound to all addresses. So the machine's
/// addresses are read anew only after a datagram arrived there, when the front has nothing else to receive, and at most
/// once in ten seconds.
#[derive(Drop)]
pub(crate) struct AddressMonitor<'a, R, G, A> {
    clock: &'a R,
    addresses: &'a A,
    alloc: Global,
    gate: &'a G,
    known: KnownAddresses,
    /// Whether a datagram came to the socket of all addresses since the last read.
    has_come: bool,
    /// The time of the last read, if there was one.
    looked: Option<Instant>,
}

impl<'a, R, G, A> AddressMonitor<'a, R, G, A> {
    /// Makes a monitor that knows these addresses, before any datagram came.
    pub(crate) fn new(
        clock: &'a R,
        addresses: &'a A,
        alloc: Global,
        gate: &'a G,
        known: KnownAddresses,
    ) -> AddressMonitor<'a, R, G, A> {
        AddressMonitor {
            clock,
            addresses,
            alloc,
            gate,
            known,
            has_come: false,
            looked: None,
        }
    }

    pub(crate) fn set_come(&mut self) {
        self.has_come = true;
    }
}

impl<R: Clock, G: SocketReports, A: LocalAddresses> AddressMonitor<'_, R, G, A> {
    /// Looks for new addresses, if that is due. The clock is read only if a datagram came to the socket of all
    /// addresses.
    pub(crate) fn look_if_due(&mut self) {
        if self.has_come && self.is_due() {
            self.has_come = false;
            self.look();
        }
    }

    /// Returns whether the last read is at least [`LOOK`] seconds ago. If there was none, or the clock fails, it is.
    fn is_due(&self) -> bool {
        match self.looked {
            Some(last) => has_passed(self.clock, last, Duration::from_secs(LOOK)),
            None => true,
        }
    }

    /// Reads the machine's addresses, and reports each new one to the gate.
    fn look(&mut self) {
        self.looked = Instant::now(self.clock).ok();
        let Ok(addresses) = self.addresses.read(self.alloc) else {
            return;
        };
        for address in &addresses {
            if self.known.learn(*address) {
                self.gate.address_unbound(*address);
            }
        }
    }
}
