//! Log lines on their way from the threads that log to the one thread that writes them.

use crate::line_buffer::LineBuffer;
use crate::line_writer::{LineWriter, line_in};
use crate::locking::lock_soon;
use crate::writer_state::WriterState;
use std::alloc::{AllocError, Global};
use std::fmt::Display;
use std::sync::atomic::{AtomicU64, Ordering};
use std::sync::{Mutex, OnceLock, Wait};
use std::time::{Clock, Duration, Instant};
use std::{mem, thread};

/// The most octets of lines that may wait.
const ROOM: usize = 65_536;

/// The most octets of a line, with its line end.
const LONGEST: usize = 4096;

/// How many octets are to be free where a line waited for room. Others may log meanwhile.
const ENOUGH: usize = 4 * LONGEST;

/// How many milliseconds pass between two looks whether there is room.
const LOOK: u64 = 1;

/// For how many milliseconds from the first on lines wait for room.
const PATIENCE: u64 = 5000;

/// For how many milliseconds from then on the end waits for the thread that writes the lines.
const LAST: u64 = 10_000;

/// Lines that wait, in the order in which they came. Until there is a thread that writes them, the thread that logs a
/// line also writes it.
#[derive(Drop)]
pub struct LineQueue {
    room: Mutex<LineBuffer>,
    /// How many lines did not get into the buffer, since they were too long or others held the buffer for too long.
    missed: AtomicU64,
    outlet: Mutex<Outlet>,
    /// The state of the thread that writes the lines, once there is one.
    state: WriterState,
    /// When a line waited for room first.
    waited: OnceLock<Instant>,
}

/// What writes to standard error, and the lines for it. The thread that writes holds its lock.
#[derive(Drop)]
struct Outlet {
    writer: LineWriter,
    /// The lines that are being written.
    batch: LineBuffer,
}

impl LineQueue {
    /// Makes an empty queue. It takes no more memory later.
    ///
    /// # Errors
    ///
    /// `AllocError` if memory is refused.
    pub fn new(alloc: Global) -> Result<LineQueue, AllocError> {
        let room = LineBuffer::new(alloc, ROOM)?;
        let batch = LineBuffer::new(alloc, ROOM)?;
        let outlet = Outlet {
            writer: LineWriter::new(),
            batch,
        };
        Ok(LineQueue {
            room: Mutex::new(room),
            missed: AtomicU64::new(0),
            outlet: Mutex::new(outlet),
            state: WriterState::new(),
            waited: OnceLock::new(),
        })
    }

    /// Adds a line, or counts it as dropped if it is too long or finds no room.
    pub fn put<D: Display>(&self, line: &D) {
        let mut room = [0; LONGEST];
        self.put_text(line_in(&mut room, line));
        if self.state.is_started() {
            self.state.notify();
        } else {
            self.write_now();
        }
    }

    /// Adds the text of a line, or counts a line as dropped if it has no text or others hold the buffer for too long.
    fn put_text(&self, text: Option<&[u8]>) {
        if let Some(text) = text {
            if let Some(mut room) = lock_soon(&self.room) {
                room.put(text);
                return;
            }
        }
        self.missed.fetch_add(1, Ordering::SeqCst);
    }

    /// Writes the lines that wait, if standard error accepts them at once.
    fn write_now(&self) {
        if let Some(mut outlet) = self.outlet.try_lock() {
            if let Some(mut room) = lock_soon(&self.room) {
                outlet.take(&mut room);
            }
            self.write_taken(&mut outlet, false);
        }
    }

    /// Makes all further lines wait for a thread, which calls `write_all`.
    pub fn leave_to_thread(&self) {
        self.state.start();
    }

    /// Writes the lines as they come until the queue is ended. The thread does nothing else.
    pub fn write_all<R: Wait>(&self, rt: &R) {
        for _ in rt.forever() {
            let is_last = self.state.begin_round();
            self.write_batch(rt);
            if is_last {
                self.state.finish();
                return;
            }
            self.state.sleep(rt);
        }
    }

    fn write_batch<R: Wait>(&self, rt: &R) {
        let mut outlet = self.outlet.lock(rt);
        outlet.take(&mut self.room.lock(rt));
        self.write_taken(&mut outlet, true);
    }

    /// Writes the lines that were taken, and how many were dropped after them.
    fn write_taken(&self, outlet: &mut Outlet, is_patient: bool) {
        let missed = self.missed.swap(0, Ordering::SeqCst);
        let Outlet { writer, batch } = outlet;
        batch.drop_more(missed);
        writer.write(batch, is_patient);
    }

    /// Waits until there is room for a line, if there is a thread that writes the lines: at most until five seconds after the
    /// first call. If the clock can't be read, it does not wait.
    pub fn wait_for_room<R: Clock + Wait>(&self, rt: &R) {
        if !self.state.is_started() {
            return;
        }
        let since = self.waited_since(rt);
        for _ in rt.forever() {
            if self.has_room() || is_over(rt, since) {
                return;
            }
            thread::sleep(rt, Duration::from_millis(LOOK));
        }
    }

    /// Returns when a line waited for room first: now, if none did before.
    fn waited_since<R: Clock>(&self, rt: &R) -> Option<Instant> {
        if self.waited.get().is_none()
            && let Ok(now) = Instant::now(rt)
        {
            let _ = self.waited.try_set(now);
        }
        self.waited.get().copied()
    }

    /// Returns whether there is room for a line, and for some of others.
    fn has_room(&self) -> bool {
        match lock_soon(&self.room) {
            Some(room) => room.has_room(ENOUGH),
            None => false,
        }
    }

    /// Makes the thread, if there is one, write what waits and end, and waits for it at most until `longest` after
    /// `start`. If lines waited for room, it waits until ten seconds after the first did, if that is later.
    pub fn end<R: Clock + Wait>(&self, rt: &R, start: Option<Instant>, longest: Duration) {
        self.state.end();
        self.state.wait(rt, start, longest);
        if let Some(since) = self.waited.get() {
            self.state
                .wait(rt, Some(*since), Duration::from_millis(LAST));
        }
    }
}

/// Returns whether lines wait no more for room, the first of which waited from this moment on.
fn is_over<R: Clock>(rt: &R, since: Option<Instant>) -> bool {
    match since {
        Some(since) => match since.elapsed(rt) {
            Ok(passed) => passed >= Duration::from_millis(PATIENCE),
            Err(_) => true,
        },
        None => true,
    }
}

impl Outlet {
    /// Takes the lines of a buffer, which is empty then.
    fn take(&mut self, room: &mut LineBuffer) {
        self.batch.clear();
        mem::swap(&mut self.batch, room);
    }
}
