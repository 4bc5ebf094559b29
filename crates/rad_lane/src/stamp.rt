use block_queue::Share;
use rad_tables::Moment;
use std::alloc::AllocError;

/// The origin and time of a request that a lane accepted: its number, its client, its Identifier and Authenticator,
/// and the moment of its acceptance.
#[derive(Clone, Copy, Debug, PartialEq, Eq)]
pub struct Stamp {
    /// The request's position in the order of acceptance, counted from 0.
    pub number: u64,
    /// The client's IPv4 address.
    pub client: [u8; 4],
    /// The UDP port that the client sent it from.
    pub port: u16,
    /// The request's Identifier.
    pub identifier: u8,
    /// The request's Authenticator.
    pub authenticator: [u8; 16],
    /// When it was accepted.
    pub moment: Moment,
}

impl Share for Stamp {
    fn share(&self) -> Result<Stamp, AllocError> {
        Ok(*self)
    }
}
