//! Adding blocks.
ghost use Rattle.std.specs.Prelude.{◌≡◌, OnOk, OnErr};
ghost use Rattle.raw_lists.specs.Blocks.{room_of, IsChain, IsSettled, IsJoined, IsGrown};

use crate::detached_block::{EmptyBlock, free_surplus};
use crate::held_blocks::HeldBlocks;
use crate::linked_blocks::LinkedBlocks;
use core::mem::replace_with;
use std::alloc::{AllocError, Global};

impl<T> HeldBlocks<T> {
    /// Links an empty block after the others: the spare one, if there is one. An error means that memory was refused,
    /// or that a block has no layout.
    #[inline(never)]
    pub fn add_block(&mut self, alloc: Global) -> Result<(), AllocError>
        requires { room_of self.old.linked ≡ 0 }
        ensures ok { OnOk result (IsGrown self.old.linked self.new.linked) }
        ensures refused { OnErr result (IsSettled self.old.linked self.new.linked) }
    {
        self.detach_emptied();
        let empty = match self.spare.take() {
            Some(empty) => empty,
            None => EmptyBlock::new(alloc)?,
        };
        replace_with(&mut self.linked, empty.cleared(), LinkedBlocks::add);
        Ok(())
    }

    /// Links the blocks of another queue after these. If the last of these has no item, it is unlinked. Of the empty
    /// blocks one is kept. It takes no memory.
    pub fn append(self, others: HeldBlocks<T>) -> HeldBlocks<T>
        ensures { IsJoined self.linked others.linked result.linked }
    {
        let HeldBlocks { linked, spare } = self.with_emptied_detached();
        let HeldBlocks {
            linked: next,
            spare: other,
        } = others.with_emptied_detached();
        let (front, between) = linked.without_empty_last();
        HeldBlocks::with_spare(
            next.prepend(front),
            free_surplus(free_surplus(spare, between), other),
        )
    }

    fn with_spare(linked: LinkedBlocks<T>, spare: Option<EmptyBlock<T>>) -> HeldBlocks<T>
        requires { IsChain linked }
        ensures { result.linked ≡ linked }
    {
        let empty = linked.ends_empty();
        if empty {
            match spare {
                Some(spare) => spare.free(),
                None => {}
            }
            return HeldBlocks {
                linked,
                spare: None,
            };
        }
        HeldBlocks { linked, spare }
    }
}
