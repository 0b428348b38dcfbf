//! The lists of waiters: for each object a list of nodes, each linked in two directions.
//!
//! A task has eight nodes, one for each object of its call: node `8 * task + i` stands in the list of
//! the i-th object. A link is made or removed in the forward chain first and then in the backward
//! chain. Each of these two calls changes the one chain at the place that its contract names, and looks
//! at no other node than the neighbours of that place. Between them nothing is remembered.
#![tactic(auto)]

ghost use Rattle.std.specs.Prelude.{◌≡◌, ◌<◌, [], replicate};
ghost use Rattle.links.specs.Nodes.{AreOwn};
ghost use Rattle.pend_lists.specs.Pending.{node_for};

mod calls;
mod reads;
mod steps;

use kern_base::TaskId;
use links::Links;
use std::marker::Model;

/// The lists of waiters. Contracts see, for each object, its forward list and its backward list of
/// nodes; and the successor and the predecessor of each node.
#[derive(Drop)]
pub struct PendLists<L: Links> {
    links: L,
}

impl<L: Links> Model for PendLists<L> {
    ghost use Rattle.pend_lists.specs.Pending.{PendNodes};

    ghost Value = { PendNodes };

    ghost use Rattle.pend_lists.specs.Pending.{nodes_of, ArePending};

    ghost view = { λ a. nodes_of (L.nexts a.links) (L.prevs a.links) };

    ghost invariant = { λ a. ArePending (L.nexts a.links) (L.prevs a.links) };
}

/// The node of a task for the object at an index, 0 to 7, of its call.
pub fn node_of(task: TaskId, index: u8) -> u16
    requires { (task.0 < 64) × (index < 8) }
    ensures node { result ≡ node_for task.0 index }
    ensures below { result < 512 }
{
    8 * task.0 as u16 + index as u16
}

impl<L: Links> PendLists<L> {
    /// Empty lists, over fresh nodes: eight for each task, then one for each object.
    pub fn new(links: L) -> PendLists<L>
        requires { AreOwn 576 (L.nexts links) × AreOwn 576 (L.prevs links) }
        ensures lists { (result.forward ≡ replicate 64 []) × (result.back ≡ replicate 64 []) }
        ensures links { AreOwn 576 result.nexts × AreOwn 576 result.prevs }
    {
        PendLists { links }
    }
}
