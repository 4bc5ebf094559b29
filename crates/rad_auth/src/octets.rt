//! Octets on the heap, and octets that are copied into a buffer.

ghost use Rattle.std.specs.Prelude.{◌≡◌, ◌≤◌, ◌++◌, length, drop};

use std::alloc::{AllocError, Global};
use std::marker::Model;

/// Octets on the heap, such as those of a packet.
#[derive(Drop)]
pub struct Octets {
    /// The octets. No contract speaks of the vector's capacity.
    octets: Vec<u8>,
}

impl Model for Octets {
    ghost use Rattle.std.specs.Prelude.{List, ℕ};

    ghost Value = { List ℕ };

    ghost view = { λ o. o.octets.items };
}

impl Octets {
    ghost use Rattle.std.specs.Prelude.{◌≡◌, IfOk};

    /// Takes the octets of a vector. It allocates nothing.
    pub(crate) fn from_vec(octets: Vec<u8>) -> Octets
        ensures { result ≡ octets.items }
    {
        Octets { octets }
    }

    /// Copies octets.
    ///
    /// # Errors
    ///
    /// If memory is refused.
    pub fn copy_of(alloc: Global, octets: &[u8]) -> Result<Octets, AllocError>
        ensures { IfOk result (λ copy. copy ≡ octets.now) }
    {
        Ok(Octets {
            octets: Vec::from_slice(alloc, octets)?,
        })
    }

    /// Returns the octets.
    pub fn as_slice(&self) -> &[u8]
        ensures { result.now ≡ self.now }
    {
        self.octets.as_slice()
    }
}

/// Copies octets to the front of a buffer.
pub(crate) fn put(buffer: &mut [u8], octets: &[u8])
    requires { length octets.now ≤ length buffer.old }
    ensures { buffer.new ≡ octets.now ++ drop (length octets.now) buffer.old }
{
    buffer[..octets.len()].copy_from_slice(octets);
}
