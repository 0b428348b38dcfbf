// Whole links in one call.

ghost use Rattle.std.specs.Prelude.{◌≡◌, ◌<◌, ◌+◌, ℕ, slice_index};
ghost use Rattle.kern_base.specs.declared.numbers.Prio.{Prio as NumberedPrio};
ghost use Rattle.links.specs.Chain.{total, times, list_at, node_before, inserted, left, linked_after, unlinked_after};
ghost use Rattle.pend_lists.specs.Pending.{IsAbsent, IsBefore, prio_by, wait_place};

use crate::PendLists;
use crate::reads::head_node;
use kern_base::{ObjId, Prio};
use links::Links;

impl<L: Links> PendLists<L> {
    /// The place at which a waiter of this priority joins: behind those whose priority number is at most its own.
    pub fn search(&self, obj: ObjId, prio: Prio, prios: &[Prio; 64]) -> u16
        requires { obj.0 < 64 }
        ensures { (blank : NumberedPrio) → IsBefore self.now.forward result obj.0 (wait_place (prio_by prios.now blank) prio.0 (list_at self.now.forward obj.0)) }
    {
        let _ = &self.links;
        let mut place = head_node(obj);
        while let Some(next) = self.search_step(place, prio, prios) {
            place = next;
        }
        place
    }

    /// Puts a node into the list of an object, behind the waiters whose priority number is at most its own.
    pub fn join(&mut self, node: u16, obj: ObjId, prio: Prio, prios: &[Prio; 64])
        requires numbers { (node < 512) × (obj.0 < 64) }
        requires whole { self.old.forward ≡ self.old.back }
        requires nowhere { total node self.old.forward ≡ 0 }
        requires absent { IsAbsent node (list_at self.old.forward obj.0) }
        ensures forward { (blank : NumberedPrio) → self.new.forward ≡ inserted self.old.forward obj.0 (wait_place (prio_by prios.now blank) prio.0 (list_at self.old.forward obj.0)) node }
        ensures whole { self.new.back ≡ self.new.forward }
        ensures nexts { (blank : NumberedPrio) → self.new.nexts ≡ linked_after self.old.nexts (node_before (512 + obj.0) (list_at self.old.forward obj.0) (wait_place (prio_by prios.now blank) prio.0 (list_at self.old.forward obj.0))) node }
    {
        let after = self.search(obj, prio, prios);
        self.link_forward(node, after);
        self.link_back(node);
    }

    /// Takes a node out of the list in which it stands.
    pub fn leave(&mut self, node: u16)
        requires node { node < 512 }
        requires whole { self.old.forward ≡ self.old.back }
        requires stands { 0 < total node self.old.forward }
        ensures forward { (o : ℕ) → o < 64 → 0 < times node (list_at self.old.forward o) → self.new.forward ≡ left self.old.forward o node }
        ensures whole { self.new.back ≡ self.new.forward }
        ensures nowhere { total node self.new.forward ≡ 0 }
        ensures absent { (o : ℕ) → o < 64 → 0 < times node (list_at self.old.forward o) → IsAbsent node (list_at self.new.forward o) }
        ensures nexts { self.new.nexts ≡ unlinked_after self.old.nexts (slice_index self.old.prevs node) node }
    {
        self.unlink_forward(node);
        self.unlink_back(node);
    }

    /// The object in whose list a node stands.
    pub fn object_of(&self, node: u16) -> ObjId
        requires node { node < 512 }
        requires stands { 0 < total node self.now.forward }
        ensures { (result.0 < 64) × (0 < times node (list_at self.now.forward result.0)) }
    {
        let mut at = node;
        while at < 512 {
            at = self.links.next(at);
        }
        ObjId((at - 512) as u8)
    }

    /// Moves a node within its list to the place of another priority.
    pub fn move_prio(&mut self, node: u16, prio: Prio, prios: &[Prio; 64])
        requires node { node < 512 }
        requires whole { self.old.forward ≡ self.old.back }
        requires stands { 0 < total node self.old.forward }
        ensures forward { (blank : NumberedPrio) (o : ℕ) → o < 64 → 0 < times node (list_at self.old.forward o)
            → self.new.forward ≡ inserted (left self.old.forward o node) o (wait_place (prio_by prios.now blank) prio.0 (list_at (left self.old.forward o node) o)) node }
        ensures whole { self.new.back ≡ self.new.forward }
    {
        let obj = self.object_of(node);
        self.leave(node);
        self.join(node, obj, prio, prios);
    }
}
