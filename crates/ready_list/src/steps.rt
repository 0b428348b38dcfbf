// One link made or removed, in one direction.

ghost use Rattle.std.specs.Prelude.{◌≡◌, ◌<◌, ◌+◌, ℕ, true, slice_index, slice_set};
ghost use Rattle.links.specs.Chain.{total, times, list_at, node_before, left, linked_after, unlinked_after};
ghost use Rattle.ready_list.specs.Lists.{joined, join_place, join_node, unmarked};

use crate::ReadyList;
use kern_base::{Prio, TaskId};
use links::{Links, link_next, link_prev, unlink_next, unlink_prev};

// The node at the head of a priority's list.
pub(crate) fn head_node(prio: Prio) -> u16
    requires { prio.0 < 64 }
    ensures { result ≡ 64 + prio.0 }
{
    64 + prio.0 as u16
}

impl<L: Links> ReadyList<L> {
    /// The node behind which a task joins: the last of the list, or its head.
    pub fn join_after(&self, prio: Prio, tail: bool) -> u16
        requires { prio.0 < 64 }
        ensures before { result ≡ node_before (64 + prio.0) (list_at self.now.back prio.0) (join_place tail (list_at self.now.back prio.0)) }
        ensures node { result ≡ join_node self.now prio.0 tail }
        ensures below { result < 128 }
    {
        let head = head_node(prio);
        if tail { self.links.prev(head) } else { head }
    }

    /// Links a task into the forward list of its priority, at the tail or at the head.
    pub fn link_forward(&mut self, task: TaskId, prio: Prio, tail: bool)
        requires numbers { (task.0 < 64) × (prio.0 < 64) }
        requires whole { self.old.forward ≡ self.old.back }
        requires nowhere { total task.0 self.old.forward ≡ 0 }
        ensures forward { self.new.forward ≡ joined self.old.forward prio.0 tail task.0 }
        ensures nexts { self.new.nexts ≡ linked_after self.old.nexts (join_node self.old prio.0 tail) task.0 }
        ensures others { (self.new.back ≡ self.old.back) × (self.new.prevs ≡ self.old.prevs) × (self.new.marked ≡ self.old.marked) }
    {
        let before = self.join_after(prio, tail);
        link_next(&mut self.links, before, task.0 as u16);
    }

    /// Links a task, which was just linked forward, into the backward list too.
    pub fn link_back(&mut self, task: TaskId, _prio: Prio, _tail: bool)
        requires numbers { (task.0 < 64) × (_prio.0 < 64) }
        requires half { self.old.forward ≡ joined self.old.back _prio.0 _tail task.0 }
        requires nowhere { total task.0 self.old.back ≡ 0 }
        ensures back { self.new.back ≡ joined self.old.back _prio.0 _tail task.0 }
        ensures prevs { self.new.prevs ≡ linked_after self.old.prevs (slice_index self.old.nexts task.0) task.0 }
        ensures others { (self.new.forward ≡ self.old.forward) × (self.new.nexts ≡ self.old.nexts) × (self.new.marked ≡ self.old.marked) }
    {
        let after = self.links.next(task.0 as u16);
        link_prev(&mut self.links, after, task.0 as u16);
    }

    /// Puts a priority into the set.
    pub fn mark(&mut self, prio: Prio)
        requires { prio.0 < 64 }
        ensures marked { self.new.marked ≡ slice_set self.old.marked prio.0 true }
        ensures lists { (self.new.forward ≡ self.old.forward) × (self.new.back ≡ self.old.back) }
        ensures links { (self.new.nexts ≡ self.old.nexts) × (self.new.prevs ≡ self.old.prevs) }
    {
        self.marks.insert(prio.0);
    }

    /// Takes a task out of its forward list.
    pub fn unlink_forward(&mut self, task: TaskId)
        requires number { task.0 < 64 }
        requires whole { self.old.forward ≡ self.old.back }
        requires stands { 0 < total task.0 self.old.forward }
        ensures forward { (p : ℕ) → p < 64 → 0 < times task.0 (list_at self.old.forward p) → self.new.forward ≡ left self.old.forward p task.0 }
        ensures nowhere { total task.0 self.new.forward ≡ 0 }
        ensures nexts { self.new.nexts ≡ unlinked_after self.old.nexts (slice_index self.old.prevs task.0) task.0 }
        ensures others { (self.new.back ≡ self.old.back) × (self.new.prevs ≡ self.old.prevs) × (self.new.marked ≡ self.old.marked) }
    {
        let before = self.links.prev(task.0 as u16);
        unlink_next(&mut self.links, before, task.0 as u16);
    }

    /// Takes a task, which was just taken out of the forward list of its priority, out of the backward list too.
    /// The priority leaves the set where its list became empty.
    pub fn unlink_back(&mut self, task: TaskId, prio: Prio)
        requires numbers { (task.0 < 64) × (prio.0 < 64) }
        requires half { self.old.forward ≡ left self.old.back prio.0 task.0 }
        requires stands { 0 < times task.0 (list_at self.old.back prio.0) }
        ensures back { self.new.back ≡ left self.old.back prio.0 task.0 }
        ensures marked { self.new.marked ≡ unmarked self.new.back prio.0 self.old.marked }
        ensures prevs { self.new.prevs ≡ unlinked_after self.old.prevs (slice_index self.old.nexts (slice_index self.old.prevs task.0)) task.0 }
        ensures others { (self.new.forward ≡ self.old.forward) × (self.new.nexts ≡ self.old.nexts) }
    {
        let before = self.links.prev(task.0 as u16);
        let after = self.links.next(before);
        unlink_prev(&mut self.links, after, task.0 as u16);
        let head = head_node(prio);
        if self.links.prev(head) == head {
            self.marks.remove(prio.0);
        }
    }
}
