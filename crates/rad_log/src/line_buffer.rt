//! A buffer of fixed size for log lines that wait to be written.

ghost use Rattle.std.specs.Prelude.{◌≡◌, ◌+◌, ◌<◌, ◌≤◌, [], ◌++◌, ◌↔◌, IsTrue, IfOk, length, vec_capacity};

use std::alloc::{AllocError, Global};

/// Lines, each with its line end, in a buffer whose size never changes. A line that finds no room is dropped and
/// counted, and so is each line after it until the buffer is cleared.
#[derive(Drop)]
pub struct LineBuffer {
    text: Vec<u8>,
    /// The most octets of text.
    size: usize,
    dropped: u64,
    ghost has_memory: { size ≤ vec_capacity text },
}

impl LineBuffer {
    /// Makes an empty buffer for `size` octets. It takes no more memory later.
    ///
    /// # Errors
    ///
    /// `AllocError` if memory is refused.
    pub fn new(alloc: Global, size: usize) -> Result<LineBuffer, AllocError>
        ensures { IfOk result (λ room. (room.text.items ≡ []) × (room.size ≡ size) × (room.dropped ≡ 0)) }
    {
        let mut text = Vec::new(alloc);
        text.reserve(size)?;
        Ok(LineBuffer {
            text,
            size,
            dropped: 0,
        })
    }

    /// Adds a line with its line end, or counts it as dropped.
    pub fn put(&mut self, line: &[u8])
        ensures size { self.new.size ≡ self.old.size }
        ensures added { self.old.dropped ≡ 0 → length self.old.text.items + length line.now ≤ self.old.size → (self.new.text.items ≡ self.old.text.items ++ line.now) × (self.new.dropped ≡ 0) }
        ensures full { self.old.size < length self.old.text.items + length line.now → (self.new.text.items ≡ self.old.text.items) × (0 < self.new.dropped) }
        ensures after { 0 < self.old.dropped → (self.new.text.items ≡ self.old.text.items) × (0 < self.new.dropped) }
    {
        if self.has_room(line.len()) && self.text.extend_from_slice(line).is_ok() {
            return;
        }
        self.drop_more(1);
    }

    /// Counts `count` more lines as dropped.
    pub fn drop_more(&mut self, count: u64)
        ensures text { self.new.text.items ≡ self.old.text.items }
        ensures size { self.new.size ≡ self.old.size }
        ensures most { self.old.dropped ≤ self.new.dropped }
        ensures some { 0 < count → 0 < self.new.dropped }
    {
        self.dropped = self.dropped.saturating_add(count);
    }

    /// Returns the lines.
    pub fn lines(&self) -> &[u8]
        ensures { result.now ≡ self.now.text.items }
    {
        self.text.as_slice()
    }

    /// Returns how many lines were dropped after these.
    pub fn dropped(&self) -> u64
        ensures { result ≡ self.now.dropped }
    {
        self.dropped
    }

    /// Removes all lines, and counts none as dropped.
    pub fn clear(&mut self)
        ensures text { self.new.text.items ≡ [] }
        ensures dropped { self.new.dropped ≡ 0 }
        ensures size { self.new.size ≡ self.old.size }
    {
        self.text.clear();
        self.dropped = 0;
    }

    /// Returns whether `count` octets fit after the lines and no line was dropped.
    pub(crate) fn has_room(&self, count: usize) -> bool
        ensures { IsTrue result ↔ ((self.now.dropped ≡ 0) × (length self.now.text.items + count ≤ self.now.size)) }
    {
        self.dropped == 0 && self.text.len() <= self.size && count <= self.size - self.text.len()
    }
}
