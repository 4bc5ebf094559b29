//! A chain: elements in nodes, each with a link to the next node. The places of both ends are known.
ghost use Rattle.std.specs.Prelude.{◌≡◌, ◌^◌, ◌<◌, [], ◌∷◌, ◌++◌, None, Some, length};
ghost use Rattle.std.specs.Map.Iter.{TakesFirst, deref};
ghost use Rattle.raw_lists.specs.Chain.{joined};

use crate::nodes::{NodePlace, Nodes};
use crate::region::Region;
use std::alloc::{AllocError, Global};
use std::marker::Model;

/// An element, and the place of the next node.
pub(crate) struct Node<E> {
    next: Option<NodePlace>,
    elem: E,
}

/// The memory of a node that is not linked: not yet, or not any more.
pub(crate) struct Allocation<E> {
    node: Region<Node<E>, Global>,
    alloc: Global,
    ghost empty: { node.places ≡ None ∷ [] },
}

impl<E> Allocation<E> {
    /// Allocates the memory of a node. An error means that memory was refused, or that a node has no layout.
    pub(crate) fn new(alloc: Global) -> Result<Allocation<E>, AllocError> {
        Ok(Allocation {
            node: Region::single(&alloc)?,
            alloc,
        })
    }

    /// Moves an element into the memory, as a node without a link.
    fn fill(self, elem: E) -> (Region<Node<E>, Global>, Global)
        ensures { result.0.places ≡ Some (record { next = None; elem = elem }) ∷ [] }
    {
        let Allocation { mut node, alloc } = self;
        node.write(0, Node { next: None, elem });
        (node, alloc)
    }

    /// Releases the memory.
    pub(crate) fn free(self) {
        let Allocation { node, alloc } = self;
        node.free_single(&alloc);
    }
}

impl<E> Drop for Allocation<E> {
    fn drop(self) {
        self.free();
    }
}

/// A chain of one or more elements.
pub(crate) struct Chain<E> {
    head: NodePlace,
    tail: NodePlace,
    nodes: Nodes<Node<E>, Global>,
    alloc: Global,
}

impl<E> Model for Chain<E> {
    ghost use Rattle.std.specs.Prelude.{List};
    ghost use Rattle.raw_lists.specs.Chain.{elems, IsLinked};

    ghost Value = { List E };

    ghost view = { λ c. elems c.nodes.cells };

    ghost invariant = { λ c. IsLinked c.head c.tail c.nodes.cells };
}

/// The first element of a chain, the memory of its node, and the chain of the other elements.
pub(crate) struct Parted<E> {
    pub(crate) elem: E,
    pub(crate) allocation: Allocation<E>,
    pub(crate) rest: Option<Chain<E>>,
}

impl<E> Chain<E> {
    /// Makes a chain of one element.
    pub(crate) fn one(allocation: Allocation<E>, elem: E) -> Chain<E>
        ensures { result ≡ elem ∷ [] }
    {
        let (node, alloc) = allocation.fill(elem);
        let (nodes, place) = Nodes::one(node);
        Chain {
            head: place,
            tail: place,
            nodes,
            alloc,
        }
    }

    /// Joins two chains, these elements first.
    pub(crate) fn join(self, others: Chain<E>) -> Chain<E>
        ensures { result ≡ self ++ others }
    {
        let Chain {
            head,
            tail,
            nodes,
            alloc,
        } = self;
        let Chain {
            head: next,
            tail: end,
            nodes: rest,
            alloc: _,
        } = others;
        let (mut node, front) = nodes.take_last(tail);
        let Node { next: _, elem } = node.read(0);
        node.write(
            0,
            Node {
                next: Some(next),
                elem,
            },
        );
        let (last, _) = Nodes::one(node);
        Chain {
            head,
            tail: end,
            nodes: front.join(last).join(rest),
            alloc,
        }
    }

    /// Removes the first element.
    pub(crate) fn split(self) -> Parted<E>
        ensures { self ≡ result.elem ∷ joined result.rest }
    {
        let Chain {
            head,
            tail,
            nodes,
            alloc,
        } = self;
        let (mut node, others) = nodes.take_first(head);
        let Node { next, elem } = node.read(0);
        let allocation = Allocation { node, alloc };
        match next {
            Some(head) => Parted {
                elem,
                allocation,
                rest: Some(Chain {
                    head,
                    tail,
                    nodes: others,
                    alloc,
                }),
            },
            None => {
                others.end();
                Parted {
                    elem,
                    allocation,
                    rest: None,
                }
            }
        }
    }

    /// Iterates over the elements, the first one first.
    pub(crate) fn steps(&self) -> Steps<'_, E>
        requires { length self.now < 2 ^ 64 }
        ensures { result ≡ self.now }
    {
        Steps {
            nodes: &self.nodes,
            index: 0,
            next: Some(self.head),
        }
    }
}

impl<E: Drop> Drop for Chain<E> {
    fn drop(self) {
        let mut left = Some(self);
        while let Some(chain) = left {
            let Parted {
                elem: _,
                allocation: _,
                rest,
            } = chain.split();
            left = rest;
        }
    }
}

/// The elements of a chain from some element on.
#[derive(Drop)]
pub(crate) struct Steps<'a, E> {
    nodes: &'a Nodes<Node<E>, Global>,
    index: usize,
    next: Option<NodePlace>,
}

impl<'a, E> Model for Steps<'a, E> {
    ghost use Rattle.std.specs.Prelude.{List, drop};
    ghost use Rattle.raw_lists.specs.Chain.{elems, IsStep};

    ghost Value = { List E };

    ghost view = { λ s. elems (drop s.index s.nodes.now.cells) };

    ghost invariant = { λ s. IsStep s.index s.next s.nodes.now.cells };
}

impl<'a, E> Steps<'a, E> {
    /// Returns the next element, if there is one.
    #[inline]
    pub(crate) fn next(&mut self) -> Option<&'a E>
        ensures { TakesFirst deref self.old result self.new }
    {
        let place = self.next?;
        let nodes = self.nodes;
        let node = nodes.get(self.index, place);
        self.index += 1;
        self.next = node.next;
        Some(&node.elem)
    }
}
