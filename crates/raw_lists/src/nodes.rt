//! Linked nodes in memory: their ownership, apart from their places.
ghost use Rattle.std.specs.Prelude.{◌≡◌, [], ◌++◌, List};
ghost use denote.RawPtr.{Ptr};
ghost use Rattle.raw_lists.specs.Nodes.{nodes_own, nodes_lent, cell_at, IsHeld, BeginsAt, EndsAt, IsShownAt, LiesAt};

use crate::region::Region;
use std::alloc::Allocator;
use std::marker::{Model, PhantomData, Send};

/// The place of a node. It owns nothing.
#[derive(Clone, Copy)]
pub(crate) struct NodePlace {
    at: *mut u8,
}

unsafe impl Send for NodePlace {}

/// The owner of nodes, each in a region of one place. Whoever follows the nodes has their places.
pub(crate) struct Nodes<T, A: Allocator> {
    of: PhantomData<T>,
    by: PhantomData<A>,
    ghost heap: { A },
    ghost cells: { List (Ptr × T) },
}

impl<T, A: Allocator> Model for Nodes<T, A> {
    ghost also_owns = { λ n. nodes_own T.row (A.dealloc_token n.heap) n.cells };

    ghost also_shares = { λ n _ κ. nodes_lent T.row n.cells κ };
}

unsafe impl<T: Send, A: Allocator + Send> Send for Nodes<T, A> {}

impl<T, A: Allocator> Nodes<T, A> {
    /// Makes a node of a region. Returns the node and its place.
    pub(crate) fn one(node: Region<T, A>) -> (Nodes<T, A>, NodePlace)
        requires { IsHeld node.places }
        ensures cells { result.0.cells ≡ cell_at result.1.at node.places }
        ensures place { (result.1.at ≡ node.first) × (result.0.heap ≡ node.heap) }
    {
        let Region { first, by: _ } = node;
        let nodes = Nodes {
            of: PhantomData,
            by: PhantomData,
        };
        (
            nodes,
            NodePlace {
                at: first as *mut u8,
            },
        )
    }

    /// Joins these nodes and the others, these first.
    pub(crate) fn join(self, others: Nodes<T, A>) -> Nodes<T, A>
        requires { self.heap ≡ others.heap }
        ensures { (result.cells ≡ self.cells ++ others.cells) × (result.heap ≡ self.heap) }
    {
        let Nodes { of: _, by: _ } = others;
        self
    }

    /// Detaches the first node, which is at `place`, from the others.
    pub(crate) fn take_first(self, place: NodePlace) -> (Region<T, A>, Nodes<T, A>)
        requires { BeginsAt self.cells place.at }
        ensures cells { self.cells ≡ cell_at place.at result.0.places ++ result.1.cells }
        ensures node { IsHeld result.0.places × (result.0.first ≡ place.at) }
        ensures heap { (result.0.heap ≡ self.heap) × (result.1.heap ≡ self.heap) }
    {
        let node = Region {
            first: place.at as *mut T,
            by: PhantomData,
        };
        (node, self)
    }

    /// Detaches the last node, which is at `place`, from the others.
    pub(crate) fn take_last(self, place: NodePlace) -> (Region<T, A>, Nodes<T, A>)
        requires { EndsAt self.cells place.at }
        ensures cells { self.cells ≡ result.1.cells ++ cell_at place.at result.0.places }
        ensures node { IsHeld result.0.places × (result.0.first ≡ place.at) }
        ensures heap { (result.0.heap ≡ self.heap) × (result.1.heap ≡ self.heap) }
    {
        let node = Region {
            first: place.at as *mut T,
            by: PhantomData,
        };
        (node, self)
    }

    /// Returns the node at an index, which is at `place`.
    #[inline]
    pub(crate) fn get(&self, _index: usize, place: NodePlace) -> &T
        requires { LiesAt self.now.cells _index place.at }
        ensures { IsShownAt self.now.cells _index place.at result.now }
    {
        unsafe { &*(place.at as *mut T) }
    }

    /// Ends an empty list of nodes.
    pub(crate) fn end(self)
        requires { self.cells ≡ [] }
    {
        let Nodes { of: _, by: _ } = self;
    }
}
