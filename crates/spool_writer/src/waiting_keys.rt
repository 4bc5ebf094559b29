//! Which requests wait to come in, and which were taken since, by their keys.

ghost use Rattle.std.specs.Prelude.{◌≡◌, OnOk, OnErr, option_map};
ghost use Rattle.std.specs.FinMap as map;
ghost use Rattle.spool_writer.specs.Earlier.{name_of_came};

use rad_desk::Earlier;
use rad_realms::Config;
use rad_tables::{Duplicates, Key};
use spool_files::Came;
use std::alloc::{AllocError, Global};
use std::collections::VecDeque;

/// A request that waits.
#[derive(Drop)]
pub(crate) struct WaitingRequest {
    pub(crate) key: Key,
    /// The index of the socket to which it came; 0 if that was in an earlier run.
    pub(crate) socket: u16,
    pub(crate) octets: Vec<u8>,
    /// How it came in, if that was in an earlier run.
    pub(crate) came: Option<Came>,
}

impl WaitingRequest {
    /// Returns what names its first acceptance, if that was in an earlier run.
    pub(crate) fn accepted_first(&self) -> Option<Earlier>
        ensures { result ≡ option_map name_of_came self.now.came }
    {
        let Came {
            run,
            lane,
            number,
            ..
        } = self.came?;
        Some(Earlier { run, lane, number })
    }
}

/// The number that stands for a request that waits. One that was taken has a greater one.
pub(crate) const WAITS: u64 = 0;

/// The number that stands for a request that an earlier run answered.
const ANSWERED: u64 = u64::MAX;

/// The keys of the requests that wait, and of those that were taken by their lanes since, or answered by an earlier run: a repeat
/// of one of these gets its answer, and must not wait until its span is over.
#[derive(Drop)]
pub(crate) struct WaitingKeys {
    alloc: Global,
    /// By each key `WAITS`, or the place of the request among those that were taken.
    pub(crate) numbers: Duplicates,
    /// How many requests wait.
    count: u64,
    /// How many were taken.
    taken: u64,
    lanes: Vec<LaneKeys>,
}

/// Those of a lane.
#[derive(Drop)]
struct LaneKeys {
    /// How many requests wait that came in this run, and how many may.
    newer: u32,
    most: u32,
    /// The last that were taken, with their places. The book has no others.
    taken: VecDeque<(Key, u64)>,
    /// How many requests the book may have.
    book: usize,
}

impl WaitingKeys {
    /// Makes the keys of none, for the lanes of a configuration.
    ///
    /// # Errors
    ///
    /// `AllocError` if memory is refused.
    pub(crate) fn new(alloc: Global, config: &Config) -> Result<WaitingKeys, AllocError> {
        let mut lanes = Vec::with_capacity(alloc, config.homes().len())?;
        for home in config.homes() {
            let numbers = home.limits().numbers();
            lanes.push(LaneKeys {
                newer: 0,
                most: numbers.queue,
                taken: VecDeque::new(alloc),
                book: numbers.book as usize,
            })?;
        }
        Ok(WaitingKeys {
            alloc,
            numbers: Duplicates::new(alloc),
            count: 0,
            taken: WAITS,
            lanes,
        })
    }

    /// Returns how many requests wait.
    pub(crate) fn count(&self) -> u64 {
        self.count
    }

    /// Returns whether one more request of this run may wait for a lane.
    pub(crate) fn has_room(&self, lane: usize) -> bool {
        match self.lanes.get(lane) {
            Some(keys) => keys.newer < keys.most,
            None => false,
        }
    }

    /// Adds a request that waits and that an earlier run left.
    ///
    /// # Errors
    ///
    /// `AllocError` if memory is refused. Nothing has changed then.
    pub(crate) fn add(&mut self, key: &Key) -> Result<(), AllocError>
        ensures ok { OnOk result (self.new.numbers ≡ map.insert self.old.numbers key.now 0) }
        ensures err { OnErr result (self.new.numbers ≡ self.old.numbers) }
    {
        self.numbers.insert(*key, WAITS)?;
        self.count = self.count.saturating_add(1);
        Ok(())
    }

    /// Adds a request that an earlier run answered: a repeat of it has its answer, and does not wait.
    ///
    /// # Errors
    ///
    /// `AllocError` if memory is refused. Nothing has changed then.
    pub(crate) fn add_answered(&mut self, key: &Key) -> Result<(), AllocError> {
        self.numbers.insert(*key, ANSWERED)
    }

    /// Adds a request of a lane that waits and came in this run.
    ///
    /// # Errors
    ///
    /// `AllocError` if memory is refused. Nothing has changed then.
    pub(crate) fn add_newer(&mut self, lane: usize, key: &Key) -> Result<(), AllocError>
        ensures ok { OnOk result (self.new.numbers ≡ map.insert self.old.numbers key.now 0) }
        ensures err { OnErr result (self.new.numbers ≡ self.old.numbers) }
    {
        self.add(key)?;
        if let Some(keys) = self.lanes.get_mut(lane) {
            keys.newer = keys.newer.saturating_add(1);
        }
        Ok(())
    }

    /// Removes a request of a lane that came in this run and did not get to wait.
    pub(crate) fn remove_newer(&mut self, lane: usize, key: &Key)
        ensures { self.new.numbers ≡ map.remove self.old.numbers key.now }
    {
        self.numbers.remove(key);
        self.count_newer(lane);
        self.count = self.count.saturating_sub(1);
    }

    /// Removes a request that waited for a lane, and remembers that the lane has it, if that is so.
    pub(crate) fn leave(&mut self, lane: usize, request: &WaitingRequest, is_taken: bool) {
        if request.came.is_none() {
            self.count_newer(lane);
        }
        self.count = self.count.saturating_sub(1);
        if !is_taken || self.remember(lane, request.key).is_err() {
            self.numbers.remove(&request.key);
        }
    }

    fn count_newer(&mut self, lane: usize)
        ensures { self.new.numbers ≡ self.old.numbers }
    {
        if let Some(keys) = self.lanes.get_mut(lane) {
            keys.newer = keys.newer.saturating_sub(1);
        }
    }

    /// Remembers that a lane has a request, and forgets the one that its book has no more.
    fn remember(&mut self, lane: usize, key: Key) -> Result<(), AllocError> {
        let Some(keys) = self.lanes.get_mut(lane) else {
            return Err(AllocError);
        };
        self.taken = self.taken.saturating_add(1);
        keys.taken.push_back((key, self.taken))?;
        self.numbers.insert(key, self.taken)?;
        if keys.taken.len() > keys.book
            && let Some((oldest, place)) = keys.taken.pop_front()
            && self.numbers.find(&oldest) == Some(place)
        {
            self.numbers.remove(&oldest);
        }
        Ok(())
    }

    /// Forgets all, once none waits.
    pub(crate) fn clear(&mut self) {
        self.numbers = Duplicates::new(self.alloc);
        for place in 0..self.lanes.len() {
            if let Some(keys) = self.lanes.get_mut(place) {
                keys.taken = VecDeque::new(self.alloc);
            }
        }
    }
}
