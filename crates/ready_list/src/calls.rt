// Whole links in one call.

ghost use Rattle.std.specs.Prelude.{◌≡◌, ◌≢◌, ◌<◌, ℕ, true, [], slice_get, slice_index, slice_set, Some, ◌==◌};
ghost use Rattle.links.specs.Chain.{total, times, list_at, left, linked_after, unlinked_after};
ghost use Rattle.ready_list.specs.Lists.{joined, join_node, unmarked};

use crate::ReadyList;
use kern_base::{Prio, TaskId};
use links::Links;

impl<L: Links> ReadyList<L> {
    /// Puts a task into the list of its priority: at the tail where the priority is the compared one, and else at the head.
    pub fn insert(&mut self, task: TaskId, prio: Prio, compared: Prio)
        requires numbers { (task.0 < 64) × (prio.0 < 64) }
        requires whole { self.old.forward ≡ self.old.back }
        requires nowhere { total task.0 self.old.forward ≡ 0 }
        ensures forward { self.new.forward ≡ joined self.old.forward prio.0 (prio.0 == compared.0) task.0 }
        ensures whole { self.new.back ≡ self.new.forward }
        ensures marked { self.new.marked ≡ slice_set self.old.marked prio.0 true }
        ensures nexts { self.new.nexts ≡ linked_after self.old.nexts (join_node self.old prio.0 (prio.0 == compared.0)) task.0 }
    {
        let tail = prio.0 == compared.0;
        self.link_forward(task, prio, tail);
        self.link_back(task, prio, tail);
        self.mark(prio);
    }

    /// Takes a task out of the list of its priority.
    pub fn remove(&mut self, task: TaskId, prio: Prio)
        requires numbers { (task.0 < 64) × (prio.0 < 64) }
        requires whole { self.old.forward ≡ self.old.back }
        requires stands { 0 < times task.0 (list_at self.old.forward prio.0) }
        ensures forward { self.new.forward ≡ left self.old.forward prio.0 task.0 }
        ensures whole { self.new.back ≡ self.new.forward }
        ensures marked { self.new.marked ≡ unmarked self.new.forward prio.0 self.old.marked }
        ensures nowhere { total task.0 self.new.forward ≡ 0 }
        ensures nexts { self.new.nexts ≡ unlinked_after self.old.nexts (slice_index self.old.prevs task.0) task.0 }
    {
        self.unlink_forward(task);
        self.unlink_back(task, prio);
    }

    /// The first task of a list goes to its tail.
    pub fn rotate(&mut self, prio: Prio)
        requires number { prio.0 < 64 }
        requires whole { self.old.forward ≡ self.old.back }
        requires filled { list_at self.old.forward prio.0 ≢ [] }
        ensures forward { (x : ℕ) → slice_get (list_at self.old.forward prio.0) 0 ≡ Some x → self.new.forward ≡ joined (left self.old.forward prio.0 x) prio.0 true x }
        ensures whole { self.new.back ≡ self.new.forward }
        ensures marked { self.new.marked ≡ slice_set self.old.marked prio.0 true }
    {
        if let Some(task) = self.head(prio) {
            self.remove(task, prio);
            self.link_forward(task, prio, true);
            self.link_back(task, prio, true);
            self.mark(prio);
        }
    }
}
