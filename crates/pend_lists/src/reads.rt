// What is read.

ghost use Rattle.std.specs.Prelude.{◌≡◌, ◌<◌, ◌+◌, [], slice_get, slice_index, Some, MatchOption};
ghost use Rattle.links.specs.Chain.{times, list_at, forward_lists};
ghost use Rattle.pend_lists.specs.Pending.{IsConsistent, waiters};

use crate::PendLists;
use arrayvec::ArrayVec;
use kern_base::{ObjId, TaskId};
use links::Links;

// The node at the head of an object's list.
pub(crate) fn head_node(obj: ObjId) -> u16
    requires { obj.0 < 64 }
    ensures { result ≡ 512 + obj.0 }
{
    512 + obj.0 as u16
}

impl<L: Links> PendLists<L> {
    /// Does nothing. Its contract is what holds of all lists of waiters, also where a pair is half done:
    /// a node stands at most once in the lists of a direction, and a task at most once in a list.
    pub fn consistent(&self)
        ensures { IsConsistent self.now }
    {
        let _ = &self.links;
    }

    /// The node of an object's first waiter. None exactly where nobody waits.
    pub fn first_node(&self, obj: ObjId) -> Option<u16>
        requires { obj.0 < 64 }
        ensures { MatchOption result (list_at self.now.forward obj.0 ≡ []) (λ node. (node < 512) × (slice_get (list_at self.now.forward obj.0) 0 ≡ Some node) × (0 < times node (list_at self.now.forward obj.0))) }
    {
        let first = self.links.next(head_node(obj));
        if first < 512 { Some(first) } else { None }
    }

    /// An object's first waiter. None exactly where nobody waits.
    pub fn first(&self, obj: ObjId) -> Option<TaskId>
        requires { obj.0 < 64 }
        ensures { MatchOption result (list_at self.now.forward obj.0 ≡ []) (λ task. (task.0 < 64) × (slice_get (waiters (list_at self.now.forward obj.0)) 0 ≡ Some task.0)) }
    {
        match self.first_node(obj) {
            Some(node) => Some(TaskId((node / 8) as u8)),
            None => None,
        }
    }

    /// The forward successor of a node: 0 to 511 are those of the tasks, then come the heads of the objects.
    pub fn successor(&self, node: u16) -> u16
        requires { node < 576 }
        ensures node { result ≡ slice_index self.now.nexts node }
        ensures below { result < 576 }
    {
        self.links.next(node)
    }

    /// The backward successor of a node, which is the node before it where no pair is half done.
    pub fn predecessor(&self, node: u16) -> u16
        requires { node < 576 }
        ensures node { result ≡ slice_index self.now.prevs node }
        ensures below { result < 576 }
    {
        self.links.prev(node)
    }

    /// The forward successor of each node.
    pub fn successors(&self, out: &mut [u16; 576])
        ensures nexts { out.new ≡ self.now.nexts }
        ensures lists { forward_lists 512 64 out.new ≡ self.now.forward }
    {
        for node in 0..576u16 {
            out[node as usize] = self.links.next(node);
        }
    }

    /// The tasks of an object's forward list, from its head on.
    pub fn forward(&self, obj: ObjId, out: &mut ArrayVec<u8, 64>)
        requires number { obj.0 < 64 }
        requires empty { out.old.items ≡ [] }
        ensures { out.new.items ≡ waiters (list_at self.now.forward obj.0) }
    {
        let head = head_node(obj);
        let mut node = self.links.next(head);
        while node != head {
            out.push((node / 8) as u8);
            node = self.links.next(node);
        }
    }

    /// The tasks of an object's backward list. Its chain is read from the tail.
    pub fn backward(&self, obj: ObjId, out: &mut ArrayVec<u8, 64>)
        requires number { obj.0 < 64 }
        requires empty { out.old.items ≡ [] }
        ensures { out.new.items ≡ waiters (list_at self.now.back obj.0) }
    {
        let head = head_node(obj);
        let mut node = self.links.prev(head);
        while node != head {
            out.push((node / 8) as u8);
            node = self.links.prev(node);
        }
        out.as_mut_slice().reverse();
    }
}
