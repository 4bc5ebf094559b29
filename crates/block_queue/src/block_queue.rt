ghost use Rattle.std.specs.Prelude.{◌≡◌, ◌+◌, ◌^◌, ◌<◌, ◌≤◌, ◌++◌, OnOk, length};
ghost use Rattle.std.specs.Map.Iter.{ShowsInOrder, deref};
ghost use Rattle.raw_lists.specs.Blocks.{linked_of, IsJoined};

use crate::Fifo;
use crate::iter::Iter;
use core::mem::replace_with;
use raw_lists::{BlockIter, HeldBlocks};
use std::alloc::{AllocError, Global};
use std::marker::Model;

/// The most items that a queue may hold and still be given room.
const MOST: usize = 0x8000_0000_0000_0000;

/// A queue in a chain of blocks. Its items are not moved when it grows.
///
/// At most one block is empty: the last one; or the first one, if the last pop emptied it; or a spare one that is
/// kept for later.
#[derive(Drop)]
pub struct BlockQueue<T> {
    blocks: Option<HeldBlocks<T>>,
    count: usize,
    alloc: Global,
}

impl<T> Model for BlockQueue<T> {
    ghost use Rattle.raw_lists.specs.Queue.{Queue};
    ghost use Rattle.raw_lists.specs.Blocks.{items_of, room_of, linked_of, IsQueue};

    ghost Value = { Queue T };

    ghost view = { λ q. record { items = items_of (linked_of q.blocks); room = room_of (linked_of q.blocks) } };

    ghost invariant = { λ q. IsQueue q.count (linked_of q.blocks) };
}

impl<T> Fifo<T> for BlockQueue<T> {
    ghost items = { λ q. q.items };

    ghost room = { λ q. q.room };

    fn new(alloc: Global) -> Self {
        BlockQueue {
            blocks: None,
            count: 0,
            alloc,
        }
    }

    #[inline]
    fn reserve_one(&mut self) -> Result<(), AllocError> {
        if self.spare() > 0 {
            return Ok(());
        }
        if self.count >= MOST {
            return Err(AllocError);
        }
        self.add_block()
    }

    #[inline]
    fn spare(&self) -> usize {
        match &self.blocks {
            Some(blocks) => blocks.room(),
            None => 0,
        }
    }

    #[inline]
    fn push_back(&mut self, item: T) {
        match &mut self.blocks {
            Some(blocks) => blocks.push(item),
            None => unreachable!(),
        }
        self.count += 1;
    }

    #[inline]
    fn pop_front(&mut self) -> Option<T> {
        if self.count == 0 {
            return None;
        }
        self.count -= 1;
        match &mut self.blocks {
            Some(blocks) => Some(blocks.pop()),
            None => unreachable!(),
        }
    }

    #[inline]
    fn front(&self) -> Option<&T> {
        match &self.blocks {
            Some(blocks) => blocks.first_item(),
            None => None,
        }
    }

    #[inline]
    fn len(&self) -> usize {
        self.count
    }

    #[inline]
    fn is_empty(&self) -> bool {
        self.count == 0
    }
}

impl<T> BlockQueue<T> {
    /// Iterates over the items, the oldest first.
    pub fn iter(&self) -> Iter<'_, T>
        ensures rest { result ≡ self.now.items }
        ensures runs { ShowsInOrder (deref {X = T}) }
    {
        match &self.blocks {
            Some(blocks) => Iter::new(blocks.walk()),
            None => Iter::new(BlockIter::none()),
        }
    }

    /// Adds an empty block to make room. An error means that memory was refused, or that a block has no layout.
    #[inline(never)]
    fn add_block(&mut self) -> Result<(), AllocError>
        requires full { self.old.room ≡ 0 }
        requires few { length self.old.items < 2 ^ 63 }
        ensures items { self.new.items ≡ self.old.items }
        ensures ok { OnOk result (1 ≤ self.new.room) }
    {
        match &mut self.blocks {
            Some(blocks) => blocks.add_block(self.alloc),
            None => {
                let blocks = HeldBlocks::new(self.alloc)?;
                match self.blocks.replace(blocks) {
                    Some(_) => unreachable!(),
                    None => Ok(()),
                }
            }
        }
    }

    /// Moves the items of another queue to the end of this one. It takes no memory, and may release one block.
    pub fn append(&mut self, other: BlockQueue<T>)
        requires { length self.old.items + length other.items < 2 ^ 63 }
        ensures { self.new.items ≡ self.old.items ++ other.items }
    {
        let BlockQueue {
            blocks,
            count,
            alloc: _,
        } = other;
        if count == 0 {
            replace_with(&mut self.blocks, blocks, prepended);
        } else {
            replace_with(&mut self.blocks, blocks, appended);
        }
        self.count += count;
    }
}

/// Joins the blocks of two queues, the others last.
fn appended<T>(
    blocks: Option<HeldBlocks<T>>,
    others: Option<HeldBlocks<T>>,
) -> (Option<HeldBlocks<T>>, ())
    ensures { IsJoined (linked_of blocks) (linked_of others) (linked_of result.0) }
{
    match (blocks, others) {
        (Some(blocks), Some(others)) => (Some(blocks.append(others)), ()),
        (Some(blocks), None) => (Some(blocks.with_emptied_detached()), ()),
        (None, Some(others)) => (Some(others.with_emptied_detached()), ()),
        (None, None) => (None, ()),
    }
}

/// Joins the blocks of two queues, the others first.
fn prepended<T>(
    blocks: Option<HeldBlocks<T>>,
    others: Option<HeldBlocks<T>>,
) -> (Option<HeldBlocks<T>>, ())
    ensures { IsJoined (linked_of others) (linked_of blocks) (linked_of result.0) }
{
    appended(others, blocks)
}
