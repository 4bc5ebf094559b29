//! Removing an item.
ghost use Rattle.std.specs.Prelude.{◌≡◌, ◌<◌, ◌≤◌, ◌⊎◌, true, [], ◌∷◌, length};
ghost use Rattle.raw_lists.specs.Blocks.{items_of, room_of, first_count, IsReady};

use crate::held_blocks::HeldBlocks;
use crate::linked_blocks::LinkedBlocks;
use core::mem::replace_with;

impl<T> HeldBlocks<T> {
    /// Removes and returns the oldest item. The pop is the last thing that it does, so the item is copied once. A
    /// block that is emptied by it stays the first one.
    #[inline]
    pub fn pop(&mut self) -> T
        requires { 0 < length (items_of self.old.linked) }
        ensures items { items_of self.old.linked ≡ result ∷ items_of self.new.linked }
        ensures room { (room_of self.new.linked ≡ room_of self.old.linked) ⊎ ((items_of self.new.linked ≡ []) × (room_of self.new.linked ≡ 32)) }
    {
        self.prepare_pop();
        self.linked.pop()
    }

    /// Prepares a pop, so that it does not leave two blocks without items.
    #[inline]
    fn prepare_pop(&mut self)
        requires { 0 < length (items_of self.old.linked) }
        ensures ready { IsReady self.old.linked self.new.linked }
        ensures spare { self.new.has_spare ≡ true → 2 ≤ first_count self.new.linked }
    {
        let count = self.linked.first_len();
        if count < 2 {
            self.prepare_pop_at_border();
        }
    }

    /// Does what [`HeldBlocks::prepare_pop`] does if the first block has one item or none.
    #[inline(never)]
    fn prepare_pop_at_border(&mut self)
        requires { 0 < length (items_of self.old.linked) }
        ensures ready { IsReady self.old.linked self.new.linked }
        ensures spare { self.new.has_spare ≡ true → 2 ≤ first_count self.new.linked }
    {
        self.detach_emptied();
        let left = self.linked.first_len();
        if left < 2 {
            match self.spare.take() {
                Some(empty) => empty.free(),
                None => {}
            }
            let empty = self.linked.ends_empty();
            if empty {
                replace_with(&mut self.linked, (), LinkedBlocks::merge_first_block);
            }
        }
    }
}
