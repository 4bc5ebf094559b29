//! The blocks of a queue without the last one.
ghost use Rattle.std.specs.Prelude.{◌≡◌, [], ◌∷◌, ◌++◌};

use crate::block::Block;
use crate::chain::Chain;
use crate::detached_block::DetachedBlock;
use std::marker::Model;

/// The blocks before the last one.
#[derive(Drop)]
pub(crate) struct Front<T> {
    pub(crate) first: DetachedBlock<T>,
    pub(crate) middle: Option<Chain<Block<T>>>,
}

impl<T> Model for Front<T> {
    ghost use Rattle.std.specs.Prelude.{List, ◌∷◌};
    ghost use Rattle.raw_lists.specs.Queue.{Queue};
    ghost use Rattle.raw_lists.specs.Chain.{joined};

    ghost Value = { List (Queue T) };

    ghost view = { λ f. f.first.block ∷ joined f.middle };
}

impl<T> Front<T> {
    pub(crate) fn one(first: DetachedBlock<T>) -> Front<T>
        ensures { result ≡ first.block ∷ [] }
    {
        Front {
            first,
            middle: None,
        }
    }

    /// Adds a block at the end.
    pub(crate) fn add(self, added: DetachedBlock<T>) -> Front<T>
        ensures { result ≡ self ++ added.block ∷ [] }
    {
        let Front { first, middle } = self;
        let DetachedBlock { block, link } = added;
        let one = Chain::one(link, block);
        match middle {
            Some(chain) => Front {
                first,
                middle: Some(chain.join(one)),
            },
            None => Front {
                first,
                middle: Some(one),
            },
        }
    }

    /// Joins these blocks and the others, these first.
    pub(crate) fn join(self, others: Front<T>) -> Front<T>
        ensures { result ≡ self ++ others }
    {
        let Front {
            first: next,
            middle: more,
        } = others;
        let Front { first, middle } = self.add(next);
        match (middle, more) {
            (Some(chain), Some(rest)) => Front {
                first,
                middle: Some(chain.join(rest)),
            },
            (Some(chain), None) => Front {
                first,
                middle: Some(chain),
            },
            (None, rest) => Front {
                first,
                middle: rest,
            },
        }
    }
}
