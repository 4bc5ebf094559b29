//! The segments that a spool has.

use spool_files::{Head, MOST_OCTETS, is_to_write_again};

/// What is known of a segment.
#[derive(Clone, Copy, PartialEq, Eq)]
pub(crate) struct SegmentState {
    /// Its number.
    pub(crate) number: u64,
    /// How many octets its file has.
    pub(crate) octets: u64,
    /// How many requests are open that stand in it.
    pub(crate) open: u64,
    /// The moment of its newest entry, in milliseconds since 1970; 0 if it has none.
    pub(crate) newest: u64,
    /// Whether an entry about a request is in it.
    pub(crate) has_entries: bool,
    /// Whether something is wrong with it.
    pub(crate) is_damaged: bool,
}

impl SegmentState {
    /// Returns that of a segment that was just made.
    pub(crate) fn made(number: u64) -> SegmentState {
        SegmentState {
            number,
            octets: 0,
            open: 0,
            newest: 0,
            has_entries: false,
            is_damaged: false,
        }
    }

    /// Notes an entry of this moment.
    pub(crate) fn see(&mut self, moment: u64) {
        self.has_entries = true;
        self.newest = self.newest.max(moment);
    }

    /// Returns whether its newest entry is no older than the span.
    pub(crate) fn is_within(&self, now: u64, span: u64) -> bool {
        now.saturating_sub(self.newest) <= span
    }
}

/// Returns the moment of an entry, in milliseconds since 1970, if it has one.
pub(crate) fn moment_of(head: &Head) -> Option<u64> {
    match head {
        Head::Begun(_) => None,
        Head::Came(came) => Some(came.moment),
        Head::Answered(answered) => Some(answered.moment),
        Head::GivenUp(given_up) => Some(given_up.moment),
    }
}

/// Returns the segment of a number, if it is there.
pub(crate) fn find_mut(segments: &mut [SegmentState], number: u64) -> Option<&mut SegmentState> {
    let place = segments
        .iter()
        .position(|segment| segment.number == number)?;
    segments.get_mut(place)
}

/// Returns how many octets segments have.
pub(crate) fn total(segments: &[SegmentState]) -> u64 {
    let mut octets = 0_u64;
    for segment in segments {
        octets = octets.saturating_add(segment.octets);
    }
    octets
}

/// Returns how many octets a segment takes before the next one is begun, about, in a spool of at most so many.
///
/// Of a small spool no segment has more than an eighth, so that the oldest can go before the spool is full.
pub(crate) fn most_of_a_segment(limit: u64) -> u64 {
    (limit / 8).min(MOST_OCTETS as u64)
}

/// Returns whether what is open in the oldest segment has to be written once more, where all that is open has so many octets, and
/// a segment takes this many at most.
pub(crate) fn is_over(
    segments: &[SegmentState],
    now: u64,
    span: u64,
    open: u64,
    most: u64,
) -> bool {
    let mut within = 0_u64;
    for segment in segments {
        if segment.is_within(now, span) {
            within = within.saturating_add(segment.octets);
        }
    }
    is_to_write_again(most, total(segments), open, within)
}
