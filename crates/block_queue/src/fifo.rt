ghost use Rattle.std.specs.Prelude.{◌≡◌, ◌≤◌, ◌+◌, ◌↔◌, [], ◌∷◌, ◌++◌, List, ℕ, IsTrue, IsOk, OnOk, length};
ghost use Rattle.std.specs.Option.{option_copied};
ghost use Rattle.raw_lists.specs.Queue.{oldest, TakesOldest};

use std::alloc::{AllocError, Global};

/// A queue whose room is made before an item is pushed.
///
/// The cost of each call is independent of the length of the queue, except for a [`Fifo::reserve_one`] that has to
/// make room: it may move the items once.
pub trait Fifo<T> {
    /// The items, the oldest first.
    ghost items: { Self → List T };

    /// How many items can be pushed before room has to be made.
    ghost room: { Self → ℕ };

    /// Makes an empty queue. It takes no memory; what the queue needs later is allocated with `alloc`.
    fn new(alloc: Global) -> Self
        ensures { items result ≡ [] };

    /// Makes room for one more item, if there is none.
    ///
    /// Memory is allocated only if [`Fifo::spare`] is 0. An error means that memory was refused, or that the queue
    /// cannot be given more room.
    fn reserve_one(&mut self) -> Result<(), AllocError>
        ensures items { items self.new ≡ items self.old }
        ensures room { room self.old ≤ room self.new }
        ensures ok { OnOk result (1 ≤ room self.new) }
        ensures had_room { 1 ≤ room self.old → IsOk result };

    /// Returns how many items can be pushed before room has to be made.
    fn spare(&self) -> usize
        ensures { result ≡ room self.now };

    /// Adds an item at the end. It takes no memory.
    fn push_back(&mut self, item: T)
        requires { 1 ≤ room self.old }
        ensures items { items self.new ≡ items self.old ++ item ∷ [] }
        ensures room { room self.old ≤ room self.new + 1 };

    /// Removes and returns the oldest item, if there is one. The room does not shrink.
    fn pop_front(&mut self) -> Option<T>
        ensures items { TakesOldest (items self.old) result (items self.new) }
        ensures room { room self.old ≤ room self.new };

    /// Returns the oldest item, if there is one.
    fn front(&self) -> Option<&T>
        ensures { option_copied result ≡ oldest (items self.now) };

    /// Returns the number of items.
    fn len(&self) -> usize
        ensures { result ≡ length (items self.now) };

    fn is_empty(&self) -> bool
        ensures { IsTrue result ↔ (items self.now ≡ []) };
}
