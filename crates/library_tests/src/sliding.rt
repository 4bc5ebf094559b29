//! A test of what no contract says of sliding lists: that an item is dropped when its turn comes, that no call copies more
//! than a few, and that a list that gives up its first items drops none.

use super::comparing::holds;
use block_queue::{Numbered, Share, SlidingList};
use std::alloc::{AllocError, Global};
use std::process::Abort;
use std::sync::atomic::{AtomicU64, Ordering};
use std::test::Fail;

/// The most items that a call may copy.
const FEW: u64 = 16;

/// How many items are pushed, and how many are dropped in front after each.
const SLIDES: &[(usize, usize)] = &[(300, 0), (600, 1), (200, 2), (500, 0), (1, 590), (200, 1)];

/// The number of items of a list that were made, and the number that were dropped.
#[derive(Clone, Copy)]
struct Counts<'a> {
    made: &'a AtomicU64,
    dropped: &'a AtomicU64,
}

/// An item that counts how many of it are made and dropped.
struct Counted<'a> {
    number: u64,
    counts: Counts<'a>,
}

impl<'a> Counted<'a> {
    fn new(number: u64, counts: Counts<'a>) -> Counted<'a> {
        counts.made.fetch_add(1, Ordering::SeqCst);
        Counted { number, counts }
    }
}

impl Drop for Counted<'_> {
    fn drop(self) {
        let Counted { number: _, counts } = self;
        counts.dropped.fetch_add(1, Ordering::SeqCst);
    }
}

impl Share for Counted<'_> {
    fn share(&self) -> Result<Self, AllocError> {
        self.counts.made.fetch_add(1, Ordering::SeqCst);
        Ok(Counted {
            number: self.number,
            counts: self.counts,
        })
    }
}

impl Numbered for Counted<'_> {
    ghost number_of = { λ c. c.number };

    fn number(&self) -> u64 {
        self.number
    }
}

/// A list with the numbers from `first` up to `end`.
#[derive(Drop)]
struct Slid<'a> {
    list: SlidingList<Counted<'a>>,
    counts: Counts<'a>,
    first: u64,
    end: u64,
}

impl<'a> Slid<'a> {
    fn new(alloc: Global, counts: Counts<'a>) -> Slid<'a> {
        Slid {
            list: SlidingList::new(alloc),
            counts,
            first: 0,
            end: 0,
        }
    }

    /// Pushes the next number, and checks that few other items are copied.
    fn push(&mut self, rt: &impl Abort) -> Result<(), AllocError> {
        let before = self.counts.made.load(Ordering::SeqCst);
        self.list.reserve_one()?;
        self.list.push(Counted::new(self.end, self.counts));
        self.end = self.end.wrapping_add(1);
        let made = self.counts.made.load(Ordering::SeqCst).wrapping_sub(before);
        holds(rt, made <= FEW.wrapping_add(1));
        Ok(())
    }

    /// Drops the first `count` items, or all if there are fewer.
    fn cut(&mut self, count: usize) {
        let count = count.min(self.list.as_slice().len());
        self.list.drop_front(count);
        self.first = self.first.wrapping_add(count as u64);
    }

    /// Moves the first `count` items out, or all if there are fewer, and checks that none is dropped meanwhile.
    fn take(&mut self, rt: &impl Abort, count: usize) -> Result<(), AllocError> {
        let end = self.list.as_slice().len();
        let number = self.first.wrapping_add(count.min(end) as u64);
        let before = self.counts.dropped.load(Ordering::SeqCst);
        let removed = self.list.take_below(number, end)?;
        holds(rt, self.counts.dropped.load(Ordering::SeqCst) == before);
        holds(rt, removed.items.len() == count.min(end));
        self.first = number;
        Ok(())
    }

    /// Replaces an item by an equal one.
    fn renew(&mut self, place: usize) {
        if place < self.list.as_slice().len() {
            let item = Counted::new(self.first.wrapping_add(place as u64), self.counts);
            self.list.set(place, item);
        }
    }

    /// Slides through rows of several lengths, with cuts of several lengths.
    fn slide(&mut self, rt: &impl Abort) -> Result<(), AllocError> {
        for (pushes, cut) in SLIDES {
            self.play(rt, *pushes, *cut)?;
        }
        Ok(())
    }

    /// Returns whether the list has its numbers, in order.
    fn is_right(&self) -> bool {
        let mut number = self.first;
        for item in self.list.as_slice() {
            if item.number != number {
                return false;
            }
            number = number.wrapping_add(1);
        }
        number == self.end
    }

    /// Pushes `pushes` items, and after each drops the first `cut` items, or moves them out.
    fn play(&mut self, rt: &impl Abort, pushes: usize, cut: usize) -> Result<(), AllocError> {
        for turn in 0..pushes {
            self.push(rt)?;
            self.renew(turn % 90);
            if turn % 2 == 0 {
                self.cut(cut);
            } else {
                self.take(rt, cut)?;
            }
            holds(rt, self.is_right());
        }
        Ok(())
    }

    fn end(self) {}
}

#[test]
fn a_list_slides_through_its_rows(rt: HostRuntime) -> Result<(), Fail> {
    let made = AtomicU64::new(0);
    let dropped = AtomicU64::new(0);
    let counts = Counts {
        made: &made,
        dropped: &dropped,
    };
    let mut slid = Slid::new(rt.alloc(), counts);
    let slides = slid.slide(&rt);
    slid.end();
    let all = made.load(Ordering::SeqCst);
    holds(&rt, all == dropped.load(Ordering::SeqCst));
    Ok(slides?)
}
