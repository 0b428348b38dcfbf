//! The ready lists: for each priority a list of tasks, each linked in two directions.
//!
//! A link is made or removed in the forward chain first and then in the backward chain. Each of these
//! two calls changes the one chain at the place that its contract names, and looks at no other node
//! than the neighbours of that place. Between them nothing is remembered.
#![tactic(auto)]

ghost use Rattle.std.specs.Prelude.{◌≡◌, [], false, replicate};
ghost use Rattle.links.specs.Nodes.{AreOwn};

mod calls;
mod reads;
mod steps;

use links::Links;
use prio_map::PrioMap;
use std::marker::Model;

/// The ready lists. Contracts see, for each priority, its forward list and its backward list, and
/// whether it is in the set of priorities; and the successor and the predecessor of each node.
#[derive(Drop)]
pub struct ReadyList<L: Links> {
    links: L,
    marks: PrioMap,
}

impl<L: Links> Model for ReadyList<L> {
    ghost use Rattle.ready_list.specs.Lists.{ReadyLists};

    ghost Value = { ReadyLists };

    ghost use Rattle.ready_list.specs.Ready.{lists_of, AreReady};

    ghost view = { λ a. lists_of (L.nexts a.links) (L.prevs a.links) a.marks };

    ghost invariant = { λ a. AreReady (L.nexts a.links) (L.prevs a.links) };
}

impl<L: Links> ReadyList<L> {
    /// Empty ready lists, over fresh nodes: 64 for the tasks, then one for each priority.
    pub fn new(links: L) -> ReadyList<L>
        requires { AreOwn 128 (L.nexts links) × AreOwn 128 (L.prevs links) }
        ensures lists { (result.forward ≡ replicate 64 []) × (result.back ≡ replicate 64 []) }
        ensures marked { result.marked ≡ replicate 64 false }
        ensures links { AreOwn 128 result.nexts × AreOwn 128 result.prevs }
    {
        ReadyList {
            links,
            marks: PrioMap::new(),
        }
    }
}
