//! A buffer that is allocated before its octets are known.

use crate::octets::Octets;
use std::alloc::{AllocError, Global};
use std::marker::Model;

/// A buffer that is allocated in advance, so that filling it allocates nothing.
#[derive(Drop)]
pub struct Buffer {
    /// The octets, in a vector with spare capacity.
    octets: Vec<u8>,
}

impl Model for Buffer {
    ghost use Rattle.std.specs.Prelude.{vec_capacity};
    ghost use Rattle.rad_auth.specs.Buffer.{Filled};

    ghost Value = { Filled };

    ghost view = { λ b. record { octets = b.octets.items; room = vec_capacity b.octets } };
}

impl Buffer {
    ghost use Rattle.std.specs.Prelude.{◌≡◌, ◌≤◌, [], length, IfOk};

    /// Makes an empty buffer with room for at least `room` octets.
    ///
    /// # Errors
    ///
    /// If memory is refused.
    pub fn with_room(alloc: Global, room: usize) -> Result<Buffer, AllocError>
        ensures empty { IfOk result (λ buffer. buffer.octets ≡ []) }
        ensures room { IfOk result (λ buffer. room ≤ buffer.room) }
    {
        Ok(Buffer {
            octets: Vec::with_capacity(alloc, room)?,
        })
    }

    /// Replaces the octets. It allocates nothing.
    pub fn fill(&mut self, octets: &[u8])
        requires { length octets.now ≤ self.old.room }
        ensures filled { self.new.octets ≡ octets.now }
        ensures room { self.old.room ≤ self.new.room }
    {
        self.octets.clear();
        self.octets.extend_from_slice(octets).unwrap();
    }

    /// Returns the octets.
    pub fn as_slice(&self) -> &[u8]
        ensures { result.now ≡ self.now.octets }
    {
        self.octets.as_slice()
    }

    /// Turns the buffer into its octets. It allocates nothing.
    pub fn into_octets(self) -> Octets
        ensures { result ≡ self.octets }
    {
        let Buffer { octets } = self;
        Octets::from_vec(octets)
    }
}
