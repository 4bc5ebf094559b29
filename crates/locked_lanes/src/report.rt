//! The report of the lanes at the end.

use crate::desk::RecordQueue;
use rad_lane::{Answered, Counts, Entry, Held, Outgoing, Series, Stamp};
use rad_tables::Slots;

/// What is left of all lanes.
#[derive(Drop)]
pub struct Report {
    /// What is left of each lane, in the order of the lanes.
    pub ends: Series<LaneEnd>,
    /// The records that were never sent: those of the first lane in order, then those of the second, and so on.
    pub queued: RecordQueue,
}

impl Report {
    /// Drops what is left.
    pub fn discard(self) {}
}

/// What is left of a lane, except its queue.
#[derive(Drop)]
pub struct LaneEnd {
    /// The lane's number.
    pub lane: u16,
    /// The lane's counts.
    pub counts: Counts,
    /// The stamps of the requests that the book still held, in order of acceptance.
    pub accepted: Held<Stamp>,
    /// The answers that the book still held, in order of answering.
    pub answered: Held<Answered>,
    /// What was outstanding, under its pairs, without a probe.
    pub outstanding: Slots<Entry>,
    /// The responses that nobody took.
    pub rest: Rest,
}

/// The responses that a lane's ring still held at the end.
#[derive(Drop)]
pub enum Rest {
    /// These responses, in order of answering. Together with those that the inlet took, they are as many as the answers
    /// given. Each agrees with the answer of its serial, if that answer is still kept.
    Known(Series<Outgoing>),
    /// The responses are not known: the inlet was missing or of another lane, or what it took and what the ring still
    /// held are not what the lane had answered.
    Unknown,
}
