//! A queue of numbers. The tests of queues make its calls by the functions here, so that each call is proved once.

use super::comparing::holds;
use block_queue::{BlockQueue, Fifo};
use std::alloc::Global;
use std::process::Abort;

/// More items than the queues of these tests have.
const LONGEST: usize = 1_000_000;

/// A queue, and the numbers that it has: from `first` up to `end`.
#[derive(Drop)]
pub struct Numbers {
    queue: BlockQueue<u64>,
    pub first: u64,
    pub end: u64,
}

/// Requires of a value that it may be moved to another thread.
fn moved<S: Send>(value: S) -> S {
    value
}

impl Numbers {
    /// An empty queue, whose next number is this one.
    pub fn from(alloc: Global, first: u64) -> Numbers {
        Numbers {
            queue: moved(BlockQueue::new(alloc)),
            first,
            end: first,
        }
    }

    /// Makes room. Returns whether memory was granted for it.
    pub fn make_room(&mut self) -> bool {
        self.queue.reserve_one().is_ok()
    }

    /// Makes room for the next number and pushes it. Returns whether it has room.
    fn push_once(&mut self) -> bool {
        if !self.make_room() || self.queue.spare() == 0 {
            return false;
        }
        self.queue.push_back(self.end);
        self.end = self.end.wrapping_add(1);
        true
    }

    /// Pushes the next `count` numbers. A push that is refused memory is tried again.
    pub fn push(&mut self, rt: &impl Abort, count: u64) {
        for _ in 0..count {
            let is_pushed = self.push_once() || self.push_once();
            holds(rt, is_pushed);
        }
    }

    /// Pops as many numbers, or all that there are. The queue has to give them in order.
    pub fn pop(&mut self, rt: &impl Abort, count: u64) {
        for _ in 0..count {
            let wanted = self.next();
            holds(rt, self.queue.front().copied() == wanted);
            holds(rt, self.pop_with_room() == wanted);
        }
    }

    /// Returns the first number, and counts it as popped.
    fn next(&mut self) -> Option<u64> {
        if self.first == self.end {
            return None;
        }
        let next = self.first;
        self.first = next.wrapping_add(1);
        Some(next)
    }

    /// Pops an item. Returns none if the room shrank.
    fn pop_with_room(&mut self) -> Option<u64> {
        let room = self.queue.spare();
        let popped = self.queue.pop_front();
        if self.queue.spare() < room {
            return None;
        }
        popped
    }

    /// Appends another queue, which begins with the next number.
    pub fn append(&mut self, other: Numbers) {
        let Numbers {
            queue,
            first: _,
            end,
        } = other;
        if self.queue.len() < LONGEST && queue.len() < LONGEST {
            self.queue.append(queue);
            self.end = end;
        }
    }

    /// Returns whether the queue has its numbers, in order, and no others.
    pub fn is_right(&self) -> bool {
        let mut number = self.first;
        for item in self.queue.iter() {
            if *item != number {
                return false;
            }
            number = number.wrapping_add(1);
        }
        number == self.end && self.has_count(number.wrapping_sub(self.first))
    }

    /// Returns whether the queue tells this number of items.
    fn has_count(&self, count: u64) -> bool {
        self.queue.len() as u64 == count && self.queue.is_empty() == (count == 0)
    }
}
