//! Nodes that are linked by their numbers: each node has a next and a previous node.
//!
//! Contracts see two lists of numbers, the next node and the previous node of each. The two directions
//! are apart: a setter writes one entry of one list. `specs/Chain.antt` says which lists of nodes the
//! links stand for, where some nodes are the heads of chains.
#![tactic(auto)]

mod edits;
mod index_links;

ghost use Rattle.std.specs.Prelude.{◌≡◌, ℕ, ◌<◌, List, length, slice_index, slice_set};
ghost use Rattle.links.specs.Nodes.{AreNodes};

pub use edits::{link_next, link_prev, unlink_next, unlink_prev};
pub use index_links::IndexLinks;

/// There is no memory for the nodes.
#[derive(Clone, Copy, Debug, PartialEq, Eq)]
pub struct NoMemory;

/// The next and the previous node of each node, by number. No call takes memory.
pub trait Links: Drop {
    // The next node of each node.
    ghost nexts: { Self → List ℕ };

    // The previous node of each node.
    ghost prevs: { Self → List ℕ };

    /// The next node of a node.
    fn next(&self, node: u16) -> u16
        requires { node < length (nexts self.now) }
        ensures { result ≡ slice_index (nexts self.now) node };

    /// The previous node of a node.
    fn prev(&self, node: u16) -> u16
        requires { node < length (prevs self.now) }
        ensures { result ≡ slice_index (prevs self.now) node };

    /// Makes `to` the next node of a node. Nothing else changes.
    fn set_next(&mut self, node: u16, to: u16)
        requires { (node < length (nexts self.old)) × (to < length (nexts self.old)) }
        ensures nexts { nexts self.new ≡ slice_set (nexts self.old) node to }
        ensures prevs { prevs self.new ≡ prevs self.old };

    /// Makes `to` the previous node of a node. Nothing else changes.
    fn set_prev(&mut self, node: u16, to: u16)
        requires { (node < length (prevs self.old)) × (to < length (prevs self.old)) }
        ensures nexts { nexts self.new ≡ nexts self.old }
        ensures prevs { prevs self.new ≡ slice_set (prevs self.old) node to };

    // Both lists have an entry for each node.
    ghost same_count: { (links : Self) → length (prevs links) ≡ length (nexts links) };

    // Each entry is the number of a node.
    ghost next_below: { (links : Self) → AreNodes (length (nexts links)) (nexts links) };

    ghost prev_below: { (links : Self) → AreNodes (length (nexts links)) (prevs links) };
}
