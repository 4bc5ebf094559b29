//! Blocks that are linked to no other block.
ghost use Rattle.std.specs.Prelude.{◌≡◌, [], IfOk};

use crate::block::Block;
use crate::chain::Allocation;
use std::alloc::{AllocError, Global};

/// A block, with the memory for its node once it is linked.
#[derive(Drop)]
pub(crate) struct DetachedBlock<T> {
    pub(crate) block: Block<T>,
    pub(crate) link: Allocation<Block<T>>,
}

impl<T> DetachedBlock<T> {
    /// Makes this block, which has no items, an empty one.
    pub(crate) fn into_empty(self) -> EmptyBlock<T>
        requires { self.block.items ≡ [] }
        ensures { result.detached ≡ self }
    {
        EmptyBlock { detached: self }
    }
}

/// A detached block without items.
#[derive(Drop)]
pub(crate) struct EmptyBlock<T> {
    detached: DetachedBlock<T>,
    ghost empty: { detached.block.items ≡ [] },
}

impl<T> EmptyBlock<T> {
    /// Allocates an empty block. An error means that memory was refused, or that a block has no layout.
    pub(crate) fn new(alloc: Global) -> Result<EmptyBlock<T>, AllocError>
        ensures { IfOk result (λ empty. empty.detached.block ≡ record { items = []; room = 32 }) }
    {
        let block = Block::new(alloc)?;
        match Allocation::new(alloc) {
            Ok(link) => Ok(DetachedBlock { block, link }.into_empty()),
            Err(refused) => {
                block.free();
                Err(refused)
            }
        }
    }

    /// Releases the memory.
    pub(crate) fn free(self) {
        let EmptyBlock { detached } = self;
        let DetachedBlock { block, link } = detached;
        block.free();
        link.free();
    }

    /// Returns the block, which begins at its first place again.
    pub(crate) fn cleared(self) -> DetachedBlock<T>
        ensures { result.block ≡ record { items = []; room = 32 } }
    {
        let EmptyBlock { mut detached } = self;
        detached.block.clear();
        detached
    }
}

/// Returns one of the two blocks, if there is any. If there are two, the other one is freed.
pub(crate) fn free_surplus<T>(
    block: Option<EmptyBlock<T>>,
    other: Option<EmptyBlock<T>>,
) -> Option<EmptyBlock<T>> {
    match (block, other) {
        (Some(block), Some(other)) => {
            other.free();
            Some(block)
        }
        (Some(block), None) => Some(block),
        (None, other) => other,
    }
}
