ghost use Rattle.std.specs.Prelude.{◌≡◌, ◌<◌, IsSome, length, option_copied, slice_get};
ghost use Rattle.std.specs.Iterator.{at_most};
ghost use Rattle.std.specs.Map.Iter.{TakesFirst, deref};
ghost use Rattle.raw_lists.specs.Blocks.{items_of, left_in, IsChain};

use raw_lists::{Block, BlockIter};
use std::marker::Model;

/// The items of a queue, the oldest first.
#[derive(Drop)]
pub struct Iter<'a, T> {
    blocks: BlockIter<'a, T>,
    block: Option<&'a Block<T>>,
    next: usize,
}

impl<'a, T> Model for Iter<'a, T> {
    ghost use Rattle.std.specs.Prelude.{List, ◌++◌};
    ghost use Rattle.raw_lists.specs.Blocks.{items_of, left_in, IsChain};

    ghost Value = { List T };

    ghost view = { λ i. left_in i.block i.next ++ items_of i.blocks };

    ghost invariant = { λ i. IsChain i.blocks };
}

impl<'a, T> Iter<'a, T> {
    pub(crate) fn new(blocks: BlockIter<'a, T>) -> Iter<'a, T>
        requires { IsChain blocks }
        ensures { result ≡ items_of blocks.entry }
    {
        Iter {
            blocks,
            block: None,
            next: 0,
        }
    }
}

impl<'a, T> Iterator for Iter<'a, T> {
    type Item = &'a T;

    ghost next_gives = { TakesFirst deref };

    ghost remaining = { λ items. at_most (length items) };

    fn next(&mut self) -> Option<&'a T> {
        if let Some(item) = item_at(self.block, self.next) {
            self.next += 1;
            return Some(item);
        }
        let block = self.blocks.next()?;
        self.block = Some(block);
        self.next = 1;
        block.first()
    }
}

fn item_at<'a, T>(block: Option<&'a Block<T>>, index: usize) -> Option<&'a T>
    ensures item { option_copied result ≡ slice_get (left_in block.entry 0) index }
    ensures within { IsSome result → index < 32 }
{
    match block {
        Some(block) => block.at(index),
        None => None,
    }
}
