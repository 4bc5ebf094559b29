//! The entries of a spool, less their texts.

use rad_tables::Key;

/// The address and port of the proxy that a request came to.
#[derive(Clone, Copy, PartialEq, Eq)]
pub struct LocalAddress {
    /// The IPv4 address.
    pub address: [u8; 4],
    /// The UDP port.
    pub port: u16,
}

/// A segment was begun. It is the first entry of each segment.
#[derive(Clone, Copy, PartialEq, Eq)]
pub struct Begun {
    /// The version of the format.
    pub version: u16,
    /// The run that wrote the segment.
    pub run: u64,
    /// The segment's number among those of its folder.
    pub number: u64,
}

/// A request came in. The entry's text is the request's octets.
#[derive(Clone, Copy, PartialEq, Eq)]
pub struct Came {
    /// The request's key.
    pub key: Key,
    /// Where it came in.
    pub ours: LocalAddress,
    /// Its place among the requests of all runs.
    pub arrival: u64,
    /// The run that accepted it first.
    pub run: u64,
    /// The lane that accepted it first.
    pub lane: u16,
    /// The record number that this lane gave it.
    pub number: u64,
    /// When it came in, in milliseconds since 1970.
    pub moment: u64,
}

/// A request was answered. The entry's text is the response's octets.
#[derive(Clone, Copy, PartialEq, Eq)]
pub struct Answered {
    /// The request's key.
    pub key: Key,
    /// The run that answered it.
    pub run: u64,
    /// The lane that answered it.
    pub lane: u16,
    /// The response's serial among those of the lane.
    pub serial: u64,
    /// When it was answered, in milliseconds since 1970.
    pub moment: u64,
}

/// An operator gave a request up. The entry's text is the reason.
#[derive(Clone, Copy, PartialEq, Eq)]
pub struct GivenUp {
    /// The request's key.
    pub key: Key,
    /// When it was given up, in milliseconds since 1970.
    pub moment: u64,
}

/// An entry, less its text.
#[derive(Clone, Copy, PartialEq, Eq)]
pub enum Head {
    /// A segment was begun.
    Begun(Begun),
    /// A request came in.
    Came(Came),
    /// A request was answered.
    Answered(Answered),
    /// A request was given up.
    GivenUp(GivenUp),
}
