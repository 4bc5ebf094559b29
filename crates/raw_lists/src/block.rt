//! A block: a short queue in a region of 32 places.
ghost use Rattle.std.specs.Prelude.{◌≡◌, ◌+◌, ◌-◌, ◌<◌, ◌≤◌, ◌⊎◌, [], ◌∷◌, ◌++◌, Some, IfOk, IsSome, length, option_copied, slice_get};
ghost use Rattle.raw_lists.specs.Queue.{oldest};
ghost use Rattle.raw_lists.specs.Blocks.{has_none, IsPopped};

use crate::region::{PLACES, Region};
use std::alloc::{AllocError, Global};
use std::marker::Model;

/// A short queue. Its items are in consecutive places from `start` on.
pub struct Block<T> {
    start: usize,
    count: usize,
    region: Region<T, Global>,
    alloc: Global,
}

impl<T> Model for Block<T> {
    ghost use Rattle.std.specs.Prelude.{◌+◌, ◌-◌};
    ghost use Rattle.raw_lists.specs.Places.{values, IsBlock};
    ghost use Rattle.raw_lists.specs.Queue.{Queue};

    ghost Value = { Queue T };

    ghost view = { λ b. record {
      items = values b.region.places;
      room = 32 - (b.start + b.count);
    } };

    ghost invariant = { λ b. IsBlock b.start b.count b.region.places };
}

impl<T> Block<T> {
    /// Makes a block without items. An error means that memory was refused, or that 32 values have no layout.
    pub(crate) fn new(alloc: Global) -> Result<Block<T>, AllocError>
        ensures { IfOk result (λ block. block ≡ record { items = []; room = 32 }) }
    {
        Ok(Block {
            start: 0,
            count: 0,
            region: Region::new(&alloc)?,
            alloc,
        })
    }

    /// Releases the memory of a block without items.
    pub(crate) fn free(self)
        requires { self.items ≡ [] }
    {
        let Block {
            start: _,
            count: _,
            region,
            alloc,
        } = self;
        region.free(&alloc);
    }

    /// Makes a block without items begin at the first place again.
    #[inline]
    pub(crate) fn clear(&mut self)
        requires { self.old.items ≡ [] }
        ensures { self.new ≡ record { items = []; room = 32 } }
    {
        self.start = 0;
    }

    /// Returns the number of places after the last item.
    #[inline]
    pub(crate) fn room(&self) -> usize
        ensures room { result ≡ self.now.room }
        ensures most { result ≤ 32 }
    {
        PLACES - (self.start + self.count)
    }

    #[inline]
    pub(crate) fn len(&self) -> usize
        ensures { result ≡ length self.now.items }
    {
        self.count
    }

    /// Adds an item at the end.
    #[inline]
    pub(crate) fn push(&mut self, item: T)
        requires { 1 ≤ self.old.room }
        ensures { self.new ≡ record {
          items = self.old.items ++ item ∷ [];
          room = self.old.room - 1;
        } }
    {
        self.region.write(self.start + self.count, item);
        self.count += 1;
    }

    /// Removes and returns the first item. If no item is left, the next one is pushed to the first place again.
    #[inline]
    pub(crate) fn pop(&mut self) -> T
        requires { 0 < length self.old.items }
        ensures { IsPopped self.old result self.new }
    {
        let first = self.start;
        self.count -= 1;
        let next = start_after(first, self.count);
        self.start = next;
        self.region.read(first)
    }

    /// Returns the first item, if there is one.
    #[inline]
    pub fn first(&self) -> Option<&T>
        ensures { option_copied result ≡ oldest self.now.items }
    {
        if self.count == 0 {
            return None;
        }
        Some(self.get(0))
    }

    #[inline]
    pub(crate) fn is_empty(&self) -> bool
        ensures { result ≡ has_none self.now.items }
    {
        match self.first() {
            Some(_) => false,
            None => true,
        }
    }

    /// Returns the item at an index, if there is one.
    #[inline]
    pub fn at(&self, index: usize) -> Option<&T>
        ensures item { option_copied result ≡ slice_get self.now.items index }
        ensures within { IsSome result → index < 32 }
    {
        if index < self.count {
            return Some(self.get(index));
        }
        None
    }

    #[inline]
    fn get(&self, index: usize) -> &T
        requires { index < length self.now.items }
        ensures { slice_get self.now.items index ≡ Some result.now }
    {
        self.region.get(self.start + index)
    }
}

/// Returns the place of the first item after a pop from place `first`, if `left` items are left.
#[inline]
fn start_after(first: usize, left: usize) -> usize
    requires { first < 32 }
    ensures { ((result ≡ 0) × (left ≡ 0)) ⊎ ((result ≡ first + 1) × (1 ≤ left)) }
{
    if left == 0 {
        return 0;
    }
    first + 1
}

impl<T: Drop> Drop for Block<T> {
    fn drop(mut self) {
        for _ in 0..self.len() {
            drop(self.pop());
        }
        self.free();
    }
}
