use crate::Fifo;
use std::alloc::{AllocError, Global};
use std::collections::VecDeque;
use std::marker::Model;

/// A queue in one piece of memory, which is moved when it grows.
#[derive(Drop)]
pub struct PlainQueue<T> {
    waiting: VecDeque<T>,
}

impl<T> Model for PlainQueue<T> {
    ghost use Rattle.std.specs.Prelude.{◌-◌};
    ghost use Rattle.std.specs.VecDeque.{deque_len, deque_capacity};
    ghost use Rattle.raw_lists.specs.Queue.{Queue};

    ghost Value = { Queue T };

    ghost view = { λ q. record { items = q.waiting.items; room = deque_capacity q.waiting - deque_len q.waiting } };
}

impl<T> Fifo<T> for PlainQueue<T> {
    ghost items = { λ q. q.items };

    ghost room = { λ q. q.room };

    fn new(alloc: Global) -> Self {
        PlainQueue {
            waiting: VecDeque::new(alloc),
        }
    }

    fn reserve_one(&mut self) -> Result<(), AllocError> {
        self.waiting.reserve(1)
    }

    fn spare(&self) -> usize {
        self.waiting.capacity() - self.waiting.len()
    }

    fn push_back(&mut self, item: T) {
        self.waiting.push_back_reserved(item);
    }

    fn pop_front(&mut self) -> Option<T> {
        self.waiting.pop_front()
    }

    fn front(&self) -> Option<&T> {
        self.waiting.front()
    }

    fn len(&self) -> usize {
        self.waiting.len()
    }

    fn is_empty(&self) -> bool {
        self.waiting.is_empty()
    }
}
