//! Which requests are open in the spool.

use rad_tables::Key;
use std::alloc::{AllocError, Global};
use std::collections::BTreeMap;

/// In place of a segment's number: a batch that could not be appended may be on disk all the same.
pub(crate) const MAY_BE: u64 = u64::MAX;

/// Returns whether a batch of this segment that is on disk has a request.
fn is_synced(segment: u64) -> bool {
    segment != 0 && segment != MAY_BE
}

/// Where a request stands that is open.
#[derive(Clone, Copy, PartialEq, Eq)]
pub(crate) struct Place {
    /// Its place among the requests of all runs.
    pub(crate) arrival: u64,
    /// When it came in, in milliseconds since 1970.
    pub(crate) moment: u64,
    /// The number of the segment of which a batch that is on disk has it; 0 if it is in none; [`MAY_BE`] if one may have it.
    pub(crate) segment: u64,
    /// How many octets it has.
    pub(crate) octets: u64,
}

/// The requests that are open, by their keys.
#[derive(Drop)]
pub(crate) struct OpenTable {
    places: BTreeMap<Key, Place>,
    /// When each came in of those that are noted, by its place among the requests of all runs.
    moments: BTreeMap<u64, u64>,
    /// How many octets they have.
    octets: u64,
    /// How many of them are in no batch that is on disk.
    unsynced: u64,
}

impl OpenTable {
    /// Makes the table of none.
    pub(crate) fn new(alloc: Global) -> OpenTable {
        OpenTable {
            places: BTreeMap::new(alloc),
            moments: BTreeMap::new(alloc),
            octets: 0,
            unsynced: 0,
        }
    }

    /// Returns where a request stands, if it is open.
    pub(crate) fn find(&self, key: &Key) -> Option<Place> {
        self.places.get(key).copied()
    }

    /// Returns how many are open.
    pub(crate) fn len(&self) -> usize {
        self.places.len()
    }

    /// Returns how many octets they have.
    pub(crate) fn octets(&self) -> u64 {
        self.octets
    }

    /// Returns how many are in no batch that is on disk.
    pub(crate) fn unsynced(&self) -> u64 {
        self.unsynced
    }

    /// Returns when the first of those that are noted came in, in milliseconds since 1970.
    pub(crate) fn oldest(&self) -> Option<u64> {
        let (_, moment) = self.moments.first_key_value()?;
        Some(*moment)
    }

    /// Adds a request that is not open.
    ///
    /// # Errors
    ///
    /// If memory is refused. The table has as many as before.
    pub(crate) fn open(&mut self, key: Key, place: Place) -> Result<(), AllocError> {
        self.places.insert(key, place)?;
        self.octets = self.octets.saturating_add(place.octets);
        if !is_synced(place.segment) {
            self.unsynced = self.unsynced.saturating_add(1);
        }
        Ok(())
    }

    /// Notes when an open request came in. Most are answered before they are written, so it is noted then.
    ///
    /// # Errors
    ///
    /// If memory is refused.
    pub(crate) fn note(&mut self, arrival: u64, moment: u64) -> Result<(), AllocError> {
        self.moments.insert(arrival, moment)?;
        Ok(())
    }

    /// Takes a request away, and returns where it stood, if it was open.
    pub(crate) fn close(&mut self, key: &Key) -> Option<Place> {
        let place = self.places.remove(key)?;
        self.moments.remove(&place.arrival);
        self.octets = self.octets.saturating_sub(place.octets);
        if !is_synced(place.segment) {
            self.unsynced = self.unsynced.saturating_sub(1);
        }
        Some(place)
    }

    /// Notes in which segment a request stands now, and returns in which it stood, if it is open.
    pub(crate) fn move_to(&mut self, key: &Key, segment: u64) -> Option<u64> {
        let place = self.places.get_mut(key)?;
        let before = place.segment;
        place.segment = segment;
        if !is_synced(before) && is_synced(segment) {
            self.unsynced = self.unsynced.saturating_sub(1);
        }
        Some(before)
    }
}
