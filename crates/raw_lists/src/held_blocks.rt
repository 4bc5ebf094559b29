//! The blocks that a queue holds.
ghost use Rattle.std.specs.Prelude.{◌≡◌, ◌^◌, ◌+◌, ◌<◌, ◌≤◌, [], ◌∷◌, IfOk, length, option_copied};
ghost use Rattle.raw_lists.specs.Queue.{oldest};
ghost use Rattle.raw_lists.specs.Blocks.{items_of, room_of, pushed, IsChain};

mod detaching;
mod growing;
mod popping;

use crate::block_iter::BlockIter;
use crate::detached_block::EmptyBlock;
use crate::linked_blocks::LinkedBlocks;
use std::alloc::{AllocError, Global};
use std::marker::Model;

/// The blocks of a queue for which room was made: the linked ones, and a spare one, if there is one.
///
/// At most one of them is empty: the last one; or the first one, if the last pop emptied it; or the spare one. The
/// next pop, append or new block unlinks an emptied first block, which then becomes the spare one.
#[derive(Drop)]
pub struct HeldBlocks<T> {
    linked: LinkedBlocks<T>,
    spare: Option<EmptyBlock<T>>,
}

impl<T> Model for HeldBlocks<T> {
    ghost use Rattle.std.specs.Prelude.{is_some};
    ghost use Rattle.raw_lists.specs.Blocks.{Held, HasAtMostOneEmpty};

    ghost Value = { Held T };

    ghost view = { λ h. record { linked = h.linked; has_spare = is_some h.spare } };

    ghost invariant = { λ h. HasAtMostOneEmpty h.linked (is_some h.spare) };
}

impl<T> HeldBlocks<T> {
    /// Makes one block without items. An error means that memory was refused, or that a block has no layout.
    pub fn new(alloc: Global) -> Result<HeldBlocks<T>, AllocError>
        ensures { IfOk result (λ held. held.linked ≡ record { items = []; room = 32 } ∷ []) }
    {
        let first = EmptyBlock::new(alloc)?.cleared();
        Ok(HeldBlocks {
            linked: LinkedBlocks::one(first),
            spare: None,
        })
    }

    /// Returns the number of places after the items of the last block.
    #[inline]
    pub fn room(&self) -> usize
        ensures { result ≡ room_of self.now.linked }
    {
        self.linked.room()
    }

    /// Adds an item to the last block.
    #[inline]
    pub fn push(&mut self, item: T)
        requires { 1 ≤ room_of self.old.linked }
        ensures { self.new.linked ≡ pushed self.old.linked item }
    {
        self.linked.push(item);
    }

    /// Returns the oldest item, if there is one.
    #[inline]
    pub fn first_item(&self) -> Option<&T>
        requires { length (items_of self.now.linked) + room_of self.now.linked + 1 < 2 ^ 64 }
        ensures { option_copied result ≡ oldest (items_of self.now.linked) }
    {
        let mut blocks = self.walk();
        match blocks.next() {
            Some(block) => block.first(),
            None => None,
        }
    }

    /// Iterates over the blocks, the first one first. A first block that was emptied is skipped.
    pub fn walk(&self) -> BlockIter<'_, T>
        requires { length (items_of self.now.linked) + room_of self.now.linked + 1 < 2 ^ 64 }
        ensures shape { IsChain result }
        ensures items { items_of result ≡ items_of self.now.linked }
    {
        let emptied = self.linked.begins_emptied();
        if emptied {
            self.linked.walk().after_first()
        } else {
            self.linked.walk()
        }
    }
}
