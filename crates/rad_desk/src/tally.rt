//! A worker's tally.

/// What a worker did. A count that has reached the greatest number stays there.
#[derive(Clone, Copy, Debug, PartialEq, Eq)]
pub struct Tally {
    /// How many turns it began.
    pub turns: u64,
    /// How many datagrams it received.
    pub received: u64,
    /// How many datagrams were handed over.
    pub sent: u64,
    /// How many receives and sends failed.
    pub faults: u64,
}
