// What is read.

ghost use Rattle.std.specs.Prelude.{◌≡◌, ◌<◌, ℕ, true, false, [], replicate, slice_get, slice_index, slice_index_or, Some, MatchOption};
ghost use Rattle.links.specs.Chain.{times, list_at, forward_lists};
ghost use Rattle.ready_list.specs.Lists.{IsConsistent};

use crate::ReadyList;
use crate::steps::head_node;
use arrayvec::ArrayVec;
use kern_base::{Prio, TaskId};
use links::Links;

impl<L: Links> ReadyList<L> {
    /// Does nothing. Its contract is what holds of all ready lists, also where a pair is half done: a
    /// task stands at most once in the lists of a direction, and the successors are those of the lists.
    pub fn consistent(&self)
        ensures { IsConsistent self.now }
    {
        let _ = &self.links;
    }

    /// The first task of a priority's list. None exactly where the list is empty.
    pub fn head(&self, prio: Prio) -> Option<TaskId>
        requires { prio.0 < 64 }
        ensures { MatchOption result (list_at self.now.forward prio.0 ≡ []) (λ task. (task.0 < 64) × (slice_get (list_at self.now.forward prio.0) 0 ≡ Some task.0) × (0 < times task.0 (list_at self.now.forward prio.0))) }
    {
        let first = self.links.next(head_node(prio));
        if first < 64 {
            Some(TaskId(first as u8))
        } else {
            None
        }
    }

    /// The least priority of the set. None exactly where the set is empty.
    pub fn highest(&self) -> Option<Prio>
        ensures { MatchOption result (self.now.marked ≡ replicate 64 false) (λ prio. (prio.0 < 64) × (slice_index_or self.now.marked prio.0 false ≡ true) × ((q : ℕ) → q < prio.0 → slice_index_or self.now.marked q false ≡ false)) }
    {
        match self.marks.highest() {
            Some(number) => Some(Prio(number)),
            None => None,
        }
    }

    /// The forward successor of a node: 0 to 63 are the tasks, then come the heads of the priorities.
    pub fn successor(&self, node: u16) -> u16
        requires { node < 128 }
        ensures node { result ≡ slice_index self.now.nexts node }
        ensures below { result < 128 }
    {
        self.links.next(node)
    }

    /// The backward successor of a node, which is the node before it where no pair is half done.
    pub fn predecessor(&self, node: u16) -> u16
        requires { node < 128 }
        ensures node { result ≡ slice_index self.now.prevs node }
        ensures below { result < 128 }
    {
        self.links.prev(node)
    }

    /// The forward successor of each node.
    pub fn successors(&self, out: &mut [u16; 128])
        ensures nexts { out.new ≡ self.now.nexts }
        ensures lists { forward_lists 64 64 out.new ≡ self.now.forward }
    {
        for node in 0..128u16 {
            out[node as usize] = self.links.next(node);
        }
    }

    /// The forward list of a priority, from its head on.
    pub fn forward(&self, prio: Prio, out: &mut ArrayVec<u8, 64>)
        requires number { prio.0 < 64 }
        requires empty { out.old.items ≡ [] }
        ensures { out.new.items ≡ list_at self.now.forward prio.0 }
    {
        let head = head_node(prio);
        let mut node = self.links.next(head);
        while node != head {
            out.push(node as u8);
            node = self.links.next(node);
        }
    }

    /// The backward list of a priority. Its chain is read from the tail.
    pub fn backward(&self, prio: Prio, out: &mut ArrayVec<u8, 64>)
        requires number { prio.0 < 64 }
        requires empty { out.old.items ≡ [] }
        ensures { out.new.items ≡ list_at self.now.back prio.0 }
    {
        let head = head_node(prio);
        let mut node = self.links.prev(head);
        while node != head {
            out.push(node as u8);
            node = self.links.prev(node);
        }
        out.as_mut_slice().reverse();
    }
}
