//! Joining and splitting linked blocks.
ghost use Rattle.std.specs.Prelude.{◌≡◌, ◌<◌, ◌≤◌, [], ◌∷◌, ◌++◌, length};
ghost use Rattle.raw_lists.specs.Blocks.{items_of, AllHaveItems, IsChain};
ghost use Rattle.raw_lists.specs.Chain.{joined};

use crate::back::Back;
use crate::chain::Parted;
use crate::detached_block::{DetachedBlock, EmptyBlock};
use crate::front::Front;
use crate::linked_blocks::LinkedBlocks;

impl<T> LinkedBlocks<T> {
    pub(crate) fn one(first: DetachedBlock<T>) -> LinkedBlocks<T>
        ensures { result ≡ first.block ∷ [] }
    {
        LinkedBlocks { first, back: None }
    }

    fn from_front(front: Option<Front<T>>, last: DetachedBlock<T>) -> LinkedBlocks<T>
        ensures { result ≡ joined front ++ last.block ∷ [] }
    {
        match front {
            Some(front) => {
                let Front { first, middle } = front;
                LinkedBlocks {
                    first,
                    back: Some(Back { middle, last }),
                }
            }
            None => LinkedBlocks::one(last),
        }
    }

    /// Makes linked blocks of those after a first one that was removed.
    fn from_back(back: Back<T>) -> LinkedBlocks<T>
        ensures { result ≡ back }
    {
        let Back { middle, last } = back;
        match middle {
            Some(chain) => {
                let Parted {
                    elem: block,
                    allocation: link,
                    rest,
                } = chain.split();
                LinkedBlocks {
                    first: DetachedBlock { block, link },
                    back: Some(Back { middle: rest, last }),
                }
            }
            None => LinkedBlocks::one(last),
        }
    }

    fn split_last(self) -> (Option<Front<T>>, DetachedBlock<T>)
        ensures { self ≡ joined result.0 ++ result.1.block ∷ [] }
    {
        let LinkedBlocks { first, back } = self;
        match back {
            Some(back) => {
                let Back { middle, last } = back;
                (Some(Front { first, middle }), last)
            }
            None => (None, first),
        }
    }

    /// Removes the first block, after which there are others. The second parameter is what `replace_with` needs.
    pub(crate) fn split_first(self, _nothing: ()) -> (LinkedBlocks<T>, DetachedBlock<T>)
        requires { 2 ≤ length self }
        ensures { self ≡ result.1.block ∷ result.0 }
    {
        let LinkedBlocks { first, back } = self;
        match back {
            Some(back) => (LinkedBlocks::from_back(back), first),
            None => unreachable!(),
        }
    }

    /// Removes the last block if it has no item. The blocks that are left have items.
    pub(crate) fn without_empty_last(self) -> (Option<Front<T>>, Option<EmptyBlock<T>>)
        requires { IsChain self }
        ensures items { items_of (joined result.0) ≡ items_of self }
        ensures shape { AllHaveItems (joined result.0) }
    {
        let (front, last) = self.split_last();
        if last.block.is_empty() {
            return (front, Some(last.into_empty()));
        }
        match front {
            Some(front) => (Some(front.add(last)), None),
            None => (Some(Front::one(last)), None),
        }
    }

    /// Links a block after these. The form of the result is what `replace_with` needs.
    pub(crate) fn add(self, block: DetachedBlock<T>) -> (LinkedBlocks<T>, ())
        ensures { result.0 ≡ self ++ block.block ∷ [] }
    {
        let (front, last) = self.split_last();
        let front = match front {
            Some(front) => front.add(last),
            None => Front::one(last),
        };
        (LinkedBlocks::from_front(Some(front), block), ())
    }

    /// Links other blocks, if there are any, before these.
    pub(crate) fn prepend(self, others: Option<Front<T>>) -> LinkedBlocks<T>
        ensures blocks { result ≡ joined others ++ self }
        ensures some { 0 < length self }
    {
        let (front, last) = self.split_last();
        match (others, front) {
            (Some(others), Some(front)) => LinkedBlocks::from_front(Some(others.join(front)), last),
            (Some(others), None) => LinkedBlocks::from_front(Some(others), last),
            (None, front) => LinkedBlocks::from_front(front, last),
        }
    }
}
