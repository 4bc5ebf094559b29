//! Waiting until the workers have begun.

use std::sync::{Condvar, Mutex, Wait};

/// Counts the workers that have begun, each in its thread.
#[derive(Drop)]
pub(crate) struct Beginnings {
    count: Mutex<usize>,
    more: Condvar,
}

impl Beginnings {
    /// Makes a count of 0.
    pub(crate) fn new() -> Beginnings {
        Beginnings {
            count: Mutex::new(0),
            more: Condvar::new(),
        }
    }

    pub(crate) fn add<R: Wait>(&self, rt: &R) {
        let mut count = self.count.lock(rt);
        *count = count.saturating_add(1);
        drop(count);
        self.more.notify_all();
    }

    pub(crate) fn wait_for<R: Wait>(&self, rt: &R, all: usize) {
        let count = self.count.lock(rt);
        drop(self.more.wait_while(rt, count, |count| *count < all));
    }
}
