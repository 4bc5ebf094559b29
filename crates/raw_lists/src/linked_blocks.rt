//! Linked blocks: the first and the last one as fields, and those between them in a chain.
ghost use Rattle.std.specs.Prelude.{◌≡◌, ◌^◌, ◌<◌, ◌≤◌, true, false, length};
ghost use Rattle.raw_lists.specs.Blocks.{room_of, first_count, pushed, ends_empty as has_empty_end, AllHaveItems, IsChain, BeginsEmptied, IsLine, EndsWith, IsFirstPopped};

mod joining;
mod moving_items;

use crate::back::Back;
use crate::block::Block;
use crate::block_iter::BlockIter;
use crate::detached_block::DetachedBlock;
use std::marker::Model;

/// One or more linked blocks.
#[derive(Drop)]
pub(crate) struct LinkedBlocks<T> {
    first: DetachedBlock<T>,
    back: Option<Back<T>>,
}

impl<T> Model for LinkedBlocks<T> {
    ghost use Rattle.std.specs.Prelude.{List, ◌∷◌};
    ghost use Rattle.raw_lists.specs.Queue.{Queue};
    ghost use Rattle.raw_lists.specs.Chain.{joined};

    ghost Value = { List (Queue T) };

    ghost view = { λ b. b.first.block ∷ joined b.back };
}

impl<T> LinkedBlocks<T> {
    #[inline]
    fn last(&self) -> &Block<T>
        ensures { EndsWith self.now result.now }
    {
        match &self.back {
            Some(back) => &back.last.block,
            None => &self.first.block,
        }
    }

    /// Returns the number of items of the first block.
    #[inline]
    pub(crate) fn first_len(&self) -> usize
        ensures { result ≡ first_count self.now }
    {
        self.first.block.len()
    }

    /// Returns the number of places after the items of the last block.
    #[inline]
    pub(crate) fn room(&self) -> usize
        ensures { result ≡ room_of self.now }
    {
        self.last().room()
    }

    /// Returns whether the last block has no item.
    pub(crate) fn ends_empty(&self) -> bool
        requires { IsChain self.now }
        ensures is { result ≡ has_empty_end self.now }
        ensures no { result ≡ false → AllHaveItems self.now }
    {
        self.last().is_empty()
    }

    /// Returns whether the first block has no item and other blocks follow it.
    pub(crate) fn begins_emptied(&self) -> bool
        requires { IsLine self.now }
        ensures yes { result ≡ true → BeginsEmptied self.now }
        ensures no { result ≡ false → IsChain self.now }
    {
        match &self.back {
            Some(back) => {
                let _ = &back.last;
                self.first.block.is_empty()
            }
            None => false,
        }
    }

    /// Adds an item to the last block.
    #[inline]
    pub(crate) fn push(&mut self, item: T)
        requires { 1 ≤ room_of self.old }
        ensures { self.new ≡ pushed self.old item }
    {
        match &mut self.back {
            Some(back) => back.last.block.push(item),
            None => self.first.block.push(item),
        }
    }

    /// Removes and returns the first item of the first block.
    #[inline]
    pub(crate) fn pop(&mut self) -> T
        requires { 0 < first_count self.old }
        ensures { IsFirstPopped self.old result self.new }
    {
        self.first.block.pop()
    }

    /// Iterates over the blocks, the first one first.
    pub(crate) fn walk(&self) -> BlockIter<'_, T>
        requires { length self.now < 2 ^ 64 }
        ensures { result ≡ self.now }
    {
        match &self.back {
            Some(back) => BlockIter {
                first: Some(&self.first.block),
                middle: match &back.middle {
                    Some(chain) => Some(chain.steps()),
                    None => None,
                },
                last: Some(&back.last.block),
            },
            None => BlockIter {
                first: None,
                middle: None,
                last: Some(&self.first.block),
            },
        }
    }
}
