//! The blocks of a queue without the first one.
use crate::block::Block;
use crate::chain::Chain;
use crate::detached_block::DetachedBlock;
use std::marker::Model;

/// The blocks after the first one.
#[derive(Drop)]
pub(crate) struct Back<T> {
    pub(crate) middle: Option<Chain<Block<T>>>,
    pub(crate) last: DetachedBlock<T>,
}

impl<T> Model for Back<T> {
    ghost use Rattle.std.specs.Prelude.{List, [], ◌∷◌, ◌++◌};
    ghost use Rattle.raw_lists.specs.Queue.{Queue};
    ghost use Rattle.raw_lists.specs.Chain.{joined};

    ghost Value = { List (Queue T) };

    ghost view = { λ b. joined b.middle ++ b.last.block ∷ [] };
}
