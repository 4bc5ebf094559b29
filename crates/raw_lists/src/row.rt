//! A row: consecutive items in a region of their own, whose first items can be moved out one by one.
ghost use Rattle.std.specs.Prelude.{◌≡◌, ◌+◌, ◌-◌, ◌<◌, ◌≤◌, [], ◌∷◌, ◌++◌, IfOk, length, slice_set};

use crate::region::Region;
use std::alloc::{AllocError, Global};
use std::marker::Model;

/// Consecutive items, in the places from `start` on. No item is moved to another place.
pub(crate) struct Row<T> {
    start: usize,
    count: usize,
    places: usize,
    region: Region<T, Global>,
    alloc: Global,
}

impl<T> Model for Row<T> {
    ghost use Rattle.std.specs.Prelude.{◌+◌, ◌-◌};
    ghost use Rattle.raw_lists.specs.Places.{values, IsRow};
    ghost use Rattle.raw_lists.specs.Queue.{Slid};

    ghost Value = { Slid T };

    ghost view = { λ r. record {
      before = r.start;
      items = values r.region.places;
      room = r.places - (r.start + r.count);
    } };

    ghost invariant = { λ r. IsRow r.places r.start r.count r.region.places };
}

impl<T> Row<T> {
    /// Makes a row of `places` places without items. An error means that memory was refused, or that there are too
    /// many places or too large values for a layout.
    pub(crate) fn with_places(alloc: Global, places: usize) -> Result<Row<T>, AllocError>
        requires { 1 ≤ places }
        ensures { IfOk result (λ row. row ≡ record { before = 0; items = []; room = places }) }
    {
        Ok(Row {
            start: 0,
            count: 0,
            places,
            region: Region::with_places(&alloc, places)?,
            alloc,
        })
    }

    /// Releases the memory of a row without items.
    fn free(self)
        requires { self.items ≡ [] }
    {
        let Row {
            start: _,
            count: _,
            places,
            region,
            alloc,
        } = self;
        region.release(&alloc, places);
    }

    /// Returns the number of places after the last item.
    #[inline]
    pub(crate) fn room(&self) -> usize
        ensures { result ≡ self.now.room }
    {
        self.places - (self.start + self.count)
    }

    #[inline]
    pub(crate) fn len(&self) -> usize
        ensures { result ≡ length self.now.items }
    {
        self.count
    }

    /// Returns the items.
    #[inline]
    pub(crate) fn as_slice(&self) -> &[T]
        ensures { result.now ≡ self.now.items }
    {
        self.region.values(self.start, self.count)
    }

    /// Adds an item at the end.
    #[inline]
    pub(crate) fn push(&mut self, item: T)
        requires { 1 ≤ self.old.room }
        ensures { self.new ≡ record {
          before = self.old.before;
          items = self.old.items ++ item ∷ [];
          room = self.old.room - 1;
        } }
    {
        self.region.write(self.start + self.count, item);
        self.count += 1;
    }

    /// Removes and returns the first item.
    #[inline]
    pub(crate) fn pop(&mut self) -> T
        requires { 0 < length self.old.items }
        ensures items { self.old.items ≡ result ∷ self.new.items }
        ensures before { self.new.before ≡ self.old.before + 1 }
        ensures room { self.new.room ≡ self.old.room }
    {
        let first = self.start;
        self.start += 1;
        self.count -= 1;
        self.region.read(first)
    }

    /// Adds an item before the first one, into a place that is free there.
    #[inline]
    pub(crate) fn push_front(&mut self, item: T)
        requires { 1 ≤ self.old.before }
        ensures { self.new ≡ record {
          before = self.old.before - 1;
          items = item ∷ self.old.items;
          room = self.old.room;
        } }
    {
        self.start -= 1;
        self.count += 1;
        self.region.write(self.start, item);
    }

    /// Replaces the item at an index, and returns the old one.
    #[inline]
    pub(crate) fn replace(&mut self, place: usize, item: T) -> T
        requires { place < length self.old.items }
        ensures items { self.new.items ≡ slice_set self.old.items place item }
        ensures room { self.new.room ≡ self.old.room }
    {
        let at = self.start + place;
        let other = self.region.read(at);
        self.region.write(at, item);
        other
    }
}

impl<T: Drop> Drop for Row<T> {
    fn drop(mut self) {
        for _ in 0..self.len() {
            drop(self.pop());
        }
        self.free();
    }
}
