//! Making an emptied first block the spare one.
ghost use Rattle.raw_lists.specs.Blocks.{BeginsEmptied, IsSettled};

use crate::held_blocks::HeldBlocks;
use crate::linked_blocks::LinkedBlocks;
use core::mem::replace_with;

impl<T> HeldBlocks<T> {
    /// Unlinks the first block if it was emptied, and keeps it as the spare one.
    pub(super) fn detach_emptied(&mut self)
        ensures { IsSettled self.old.linked self.new.linked }
    {
        let emptied = self.linked.begins_emptied();
        if emptied {
            self.detach_first();
        }
    }

    /// Returns these blocks, of which the first one is unlinked if it was emptied.
    pub fn with_emptied_detached(mut self) -> HeldBlocks<T>
        ensures { IsSettled self.linked result.linked }
    {
        self.detach_emptied();
        self
    }

    /// Does what [`HeldBlocks::detach_emptied`] does if the first block was emptied.
    #[inline(never)]
    fn detach_first(&mut self)
        requires { BeginsEmptied self.old.linked }
        ensures { IsSettled self.old.linked self.new.linked }
    {
        let first = replace_with(&mut self.linked, (), LinkedBlocks::split_first);
        match self.spare.replace(first.into_empty()) {
            Some(other) => other.free(),
            None => {}
        }
    }
}
