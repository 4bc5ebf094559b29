//! Queues whose room is made before it is needed.
//!
//! A caller first asks for room, which may be refused, and then pushes an item, which cannot fail. [`Fifo`] is the
//! contract: a queue is the list of its items, with the number of items that it has room for. [`PlainQueue`]
//! implements it over a collection of std. [`BlockQueue`] implements it with a chain of blocks in raw memory, whose
//! items are not moved when the queue grows. [`SlidingList`] is a list in one slice, with room that is made in the
//! same way.
//!
//! The blocks and the list are in `raw_lists`, with the definitions that the contracts cite: `Queue.antt` of its
//! `specs` has the items and the room of a queue.
#![tactic(auto)]

mod block_queue;
mod fifo;
mod iter;
mod plain_queue;

pub use block_queue::BlockQueue;
pub use fifo::Fifo;
pub use iter::Iter;
pub use plain_queue::PlainQueue;
pub use raw_lists::{Numbered, Removed, Share, SlidingList, Spent};
