//! Merging the first block, so that the pop of its only item does not leave two blocks without items.
ghost use Rattle.std.specs.Prelude.{◌≡◌, ◌<◌, ◌≤◌, true, drop as without, length};
ghost use Rattle.raw_lists.specs.Blocks.{first_count, ends_empty as has_empty_end, IsChain, IsSettled, IsReady};

use crate::front::Front;
use crate::linked_blocks::LinkedBlocks;

impl<T> LinkedBlocks<T> {
    /// Moves the first block's only item and the next item, if there is one, into one block, if the last block has no
    /// item. So the pop of the first item does not leave a second block without items. The second parameter and the
    /// form of the result are what `replace_with` needs.
    pub(crate) fn merge_first_block(self, _nothing: ()) -> (LinkedBlocks<T>, ())
        requires chained { IsChain self }
        requires one { first_count self ≡ 1 }
        requires empty { has_empty_end self ≡ true }
        ensures { IsReady self result.0 }
    {
        let (mut rest, mut first) = self.split_first(());
        let oldest = first.block.pop();
        let left = rest.first_len();
        if left == 0 {
            first.into_empty().free();
            rest.push(oldest);
            return (rest, ());
        }
        let next = rest.pop();
        first.block.push(oldest);
        first.block.push(next);
        let others = rest.free_emptied_first();
        (others.prepend(Some(Front::one(first))), ())
    }

    /// Frees the first block if it has no item.
    fn free_emptied_first(self) -> LinkedBlocks<T>
        requires chained { IsChain (without 1 self) }
        requires followed { 2 ≤ length self }
        ensures blocks { IsSettled self result }
        ensures some { 0 < length result }
    {
        let left = self.first_len();
        if left > 0 {
            return self;
        }
        let (rest, first) = self.split_first(());
        first.into_empty().free();
        rest
    }
}
