//! Iterating over blocks.
ghost use Rattle.std.specs.Prelude.{◌≡◌, [], drop as without};
ghost use Rattle.std.specs.Map.Iter.{TakesFirst, deref};

use crate::block::Block;
use crate::chain::Steps;
use std::marker::Model;

/// The blocks of a queue from some block on.
#[derive(Drop)]
pub struct BlockIter<'a, T> {
    pub(crate) first: Option<&'a Block<T>>,
    pub(crate) middle: Option<Steps<'a, Block<T>>>,
    pub(crate) last: Option<&'a Block<T>>,
}

impl<'a, T> Model for BlockIter<'a, T> {
    ghost use Rattle.std.specs.Prelude.{List, ◌++◌};
    ghost use Rattle.raw_lists.specs.Queue.{Queue};
    ghost use Rattle.raw_lists.specs.Chain.{joined, shown};

    ghost Value = { List (Queue T) };

    ghost view = { λ r. shown r.first ++ (joined r.middle ++ shown r.last) };
}

impl<'a, T> BlockIter<'a, T> {
    /// Makes an iterator over no blocks.
    pub fn none() -> BlockIter<'a, T>
        ensures { result ≡ [] }
    {
        BlockIter {
            first: None,
            middle: None,
            last: None,
        }
    }

    /// Returns the next block, if there is one.
    pub fn next(&mut self) -> Option<&'a Block<T>>
        ensures { TakesFirst deref self.old result self.new }
    {
        if let Some(block) = self.first {
            self.first = None;
            return Some(block);
        }
        if let Some(steps) = &mut self.middle {
            if let Some(block) = steps.next() {
                return Some(block);
            }
        }
        let block = self.last;
        self.last = None;
        block
    }

    /// Returns these blocks without the first one.
    pub(crate) fn after_first(mut self) -> BlockIter<'a, T>
        ensures { result ≡ without 1 self.entry }
    {
        let _ = self.next();
        self
    }
}
