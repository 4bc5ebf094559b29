//! The addresses of this machine that the service knows.

use std::alloc::{AllocError, Global};

/// The most addresses that are known. None beyond them is reported.
const MOST: usize = 512;

/// Addresses of this machine, each once.
#[derive(Drop)]
pub struct KnownAddresses(Vec<[u8; 4]>);

impl KnownAddresses {
    /// Makes it without a known address.
    ///
    /// # Errors
    ///
    /// `AllocError` if memory is refused.
    pub fn new(alloc: Global) -> Result<KnownAddresses, AllocError> {
        Ok(KnownAddresses(Vec::with_capacity(alloc, MOST)?))
    }

    /// Adds an address, and returns whether it was new. If [`MOST`] addresses are known, or memory is refused, it adds
    /// none and returns `false`.
    pub fn learn(&mut self, address: [u8; 4]) -> bool {
        if self.0.len() >= MOST || self.0.as_slice().contains(&address) {
            return false;
        }
        self.0.push(address).is_ok()
    }
}
