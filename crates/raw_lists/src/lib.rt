//! What the queues of `block_queue` are made of: blocks of a queue, and a list in one slice, both in raw memory.
//!
//! [`HeldBlocks`] are the blocks of one queue: the linked ones, and a spare one. [`Block`] is a short queue, and
//! [`BlockIter`] iterates over blocks. [`SlidingList`] is a list in one slice, with room that is made before it is
//! needed. It moves a few items at each push, and [`Share`] is the trait of its items.
//!
//! The definitions that the contracts cite are in `specs`: `Queue` has the items and the room of a queue, and `Blocks`
//! the blocks that hold them.
#![tactic(auto)]

mod back;
mod block;
mod block_iter;
mod chain;
mod detached_block;
mod front;
mod held_blocks;
mod linked_blocks;
mod nodes;
mod numbered;
mod region;
mod removed;
mod row;
mod rows;
mod sharing;
mod sliding_list;

pub use block::Block;
pub use block_iter::BlockIter;
pub use held_blocks::HeldBlocks;
pub use numbered::Numbered;
pub use removed::{Removed, Spent};
pub use sharing::Share;
pub use sliding_list::SlidingList;
