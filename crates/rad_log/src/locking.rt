//! Locks that a thread tries for a while, and does not wait for.

use std::hint::spin_loop;
use std::sync::{Mutex, MutexGuard, RwLock, RwLockReadGuard};

/// How many times a thread tries a lock. Each holder keeps it only for some steps, or about as long as copying a line takes.
const TRIES: u32 = 2000;

/// Locks a value, if that succeeds soon.
pub fn lock_soon<T>(value: &Mutex<T>) -> Option<MutexGuard<'_, T>> {
    for _ in 0..TRIES {
        let locked = value.try_lock();
        if locked.is_some() {
            return locked;
        }
        spin_loop();
    }
    None
}

/// Locks a value for reading beside others that read it, if that succeeds soon.
pub fn read_soon<T>(value: &RwLock<T>) -> Option<RwLockReadGuard<'_, T>> {
    for _ in 0..TRIES {
        let locked = value.try_read();
        if locked.is_some() {
            return locked;
        }
        spin_loop();
    }
    None
}
