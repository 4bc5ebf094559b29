//! A list in one slice that grows a few items at a time.
ghost use Rattle.std.specs.Prelude.{◌≡◌, ◌<◌, ◌≤◌, [], ◌∷◌, ◌++◌, OnOk, OnErr, IfOk, length, drop as drop_list, slice_get, slice_set, option_copied};
ghost use Rattle.raw_lists.specs.Sliding.{below, since};

use crate::numbered::Numbered;
use crate::removed::{Removed, Spent};
use crate::row::Row;
use crate::rows::{
    copy_to, drop_of_each, follow_set, has_all, places_for, push_to, room_of, set_in, slice_of,
    spend, take_below, take_next,
};
use crate::sharing::Share;
use std::alloc::{AllocError, Global};
use std::marker::Model;
use std::mem;

/// The most items that a call that makes room copies into the next row, and the most that it drops of the spent row.
const STEP: usize = 16;

/// A list of items whose room is made before it is needed. The items are in one row, whose first items can be moved
/// out one by one.
///
/// Before the row is full, a larger one is made, and each call that makes room copies a few items into it. Once the
/// larger row has all items, it replaces the first one, whose items are dropped a few at a time. So no call moves
/// more than a few items, unless memory was refused again and again until the row was full.
#[derive(Drop)]
pub struct SlidingList<T> {
    /// The row with the items. It is absent until room is first made.
    row: Option<Row<T>>,
    /// The row that will replace it. It holds a prefix of the items.
    next: Option<Row<T>>,
    /// The row that was replaced, until its items are dropped.
    spent: Option<Row<T>>,
    alloc: Global,
}

impl<T> Model for SlidingList<T> {
    ghost use Rattle.raw_lists.specs.Queue.{Queue};
    ghost use Rattle.raw_lists.specs.Sliding.{items_in, room_in, IsFront};

    ghost Value = { Queue T };

    ghost view = { λ l. record { items = items_in l.row; room = room_in l.row } };

    ghost invariant = { λ l. IsFront (items_in l.next) (items_in l.row) };
}

impl<T> SlidingList<T> {
    /// Makes an empty list. It takes no memory; what the list needs later is allocated with `alloc`.
    pub fn new(alloc: Global) -> SlidingList<T>
        ensures { result.items ≡ [] }
    {
        SlidingList {
            row: None,
            next: None,
            spent: None,
            alloc,
        }
    }

    /// Returns the items.
    pub fn as_slice(&self) -> &[T]
        ensures { result.now ≡ self.now.items }
    {
        slice_of(&self.row)
    }

    /// Returns the item at an index, if there is one.
    pub fn get(&self, place: usize) -> Option<&T>
        ensures { option_copied result ≡ slice_get self.now.items place }
    {
        self.as_slice().get(place)
    }

    /// Adds an item at the end. It takes no memory.
    pub fn push(&mut self, item: T)
        requires { 1 ≤ self.old.room }
        ensures { self.new.items ≡ self.old.items ++ item ∷ [] }
    {
        push_to(&mut self.row, item);
    }
}

impl<T: Share + Drop> SlidingList<T> {
    /// Makes room for one more item, if there is none, and continues the copying into the next row.
    ///
    /// # Errors
    ///
    /// If memory is refused. The items are unchanged.
    pub fn reserve_one(&mut self) -> Result<(), AllocError>
        ensures items { self.new.items ≡ self.old.items }
        ensures ok { OnOk result (1 ≤ self.new.room) }
    {
        spend(&mut self.spent, STEP);
        self.begin();
        self.copy(STEP);
        self.exchange();
        if room_of(&self.row) > 0 {
            return Ok(());
        }
        self.move_all()
    }

    /// Makes the next row if the row has little room left. If memory for it is refused, a later call makes it.
    fn begin(&mut self)
        ensures { self.new ≡ self.old }
    {
        let count = self.as_slice().len();
        if room_of(&self.row) > count / 8 || self.next.is_some() || self.spent.is_some() {
            return;
        }
        match self.make_next() {
            Ok(()) | Err(AllocError) => {}
        }
    }

    /// Makes a next row without items.
    fn make_next(&mut self) -> Result<(), AllocError>
        ensures { self.new ≡ self.old }
    {
        let count = self.as_slice().len();
        self.next = Some(Row::with_places(self.alloc, places_for(count))?);
        Ok(())
    }

    /// Copies at most `most` more items into the next row.
    fn copy(&mut self, most: usize)
        ensures { self.new ≡ self.old }
    {
        copy_to(slice_of(&self.row), &mut self.next, most);
    }

    /// Replaces the row by the next row, if that has all items.
    fn exchange(&mut self)
        ensures { self.new.items ≡ self.old.items }
    {
        let count = self.as_slice().len();
        if has_all(&self.next, count) {
            take_next(&mut self.row, &mut self.next, &mut self.spent);
        }
    }

    /// Moves all items into a larger row at once, after memory was refused until the row was full.
    fn move_all(&mut self) -> Result<(), AllocError>
        ensures items { self.new.items ≡ self.old.items }
        ensures ok { OnOk result (1 ≤ self.new.room) }
    {
        self.make_next()?;
        let count = self.as_slice().len();
        self.copy(count);
        self.exchange();
        if room_of(&self.row) == 0 {
            return Err(AllocError);
        }
        Ok(())
    }

    /// Replaces the item at an index.
    pub fn set(&mut self, place: usize, item: T)
        requires { place < length self.old.items }
        ensures { self.new.items ≡ slice_set self.old.items place item }
    {
        follow_set(&mut self.next, place, &item);
        set_in(&mut self.row, place, item);
    }

    /// Drops the first `count` items.
    pub fn drop_front(&mut self, count: usize)
        requires { count ≤ length self.old.items }
        ensures { self.new.items ≡ drop_list count self.old.items }
    {
        drop_of_each(&mut self.row, &mut self.next, &mut self.spent, count, STEP);
    }
}

impl<T: Numbered + Drop> SlidingList<T> {
    /// Moves out the items whose number is below `number`, all of which are among the first `end`. The others stay, in
    /// order. It drops no item: the copies of what it moves out, and the spent row, are returned with it.
    ///
    /// # Errors
    ///
    /// If memory is refused. The items are unchanged.
    pub fn take_below(&mut self, number: u64, end: usize) -> Result<Removed<T>, AllocError>
        requires { below T.number_of number (drop_list end self.old.items) ≡ [] }
        ensures items { IfOk result (λ removed. removed.items.items ≡ below T.number_of number self.old.items) }
        ensures ok { OnOk result (self.new.items ≡ since T.number_of number self.old.items) }
        ensures err { OnErr result (self.new.items ≡ self.old.items) }
    {
        let mut items = Vec::with_capacity(self.alloc, end)?;
        let mut kept = Vec::with_capacity(self.alloc, end)?;
        let mut copies = Vec::with_capacity(self.alloc, end.min(slice_of(&self.next).len()))?;
        take_below(&mut self.row, number, end, &mut items, &mut kept);
        take_below(&mut self.next, number, end, &mut copies, &mut kept);
        let spent = Spent::new(copies, mem::replace(&mut self.spent, None));
        Ok(Removed { items, spent })
    }
}
