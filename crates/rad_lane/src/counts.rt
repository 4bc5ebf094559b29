/// The counts of a lane, for monitoring.
#[derive(Clone, Copy, Debug, PartialEq, Eq)]
pub struct Counts {
    /// The number of the first request that the book still holds.
    pub opening: u64,
    /// How many requests were accepted, those of removed volumes included.
    pub accepted: u64,
    /// How many requests were answered, those of removed volumes included.
    pub answered: u64,
    /// How many requests are queued.
    pub queued: usize,
    /// How many requests are outstanding.
    pub outstanding: usize,
    /// Whether the home server is marked up.
    pub up: bool,
    /// Whether the lane is drained.
    pub draining: bool,
}
