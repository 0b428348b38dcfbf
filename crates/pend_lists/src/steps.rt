// One step of a search, and one link made or removed, in one direction.

ghost use Rattle.std.specs.Prelude.{◌≡◌, ◌<◌, ◌≤◌, ℕ, length, slice_index, MatchOption, None};
ghost use Rattle.kern_base.specs.declared.numbers.Prio.{Prio as NumberedPrio};
ghost use Rattle.links.specs.Chain.{total, times, list_at, inserted, left, linked_after, unlinked_after};
ghost use Rattle.pend_lists.specs.Pending.{IsAbsent, IsBefore, IsPlace, IsPlaceFor, IsHalfLinked, IsHalfUnlinked, Rises, prio_by};

use crate::PendLists;
use kern_base::Prio;
use links::{Links, link_next, link_prev, unlink_next, unlink_prev};

// The present priority of a node's task.
fn prio_of(node: u16, prios: &[Prio; 64]) -> u8
    requires { node < 512 }
    ensures { (blank : NumberedPrio) → result ≡ prio_by prios.now blank node }
{
    prios[(node / 8) as usize].0
}

impl<L: Links> PendLists<L> {
    /// The place behind the next entry, where that has a priority number of at most `prio`. In a list that
    /// rises in priority number, None exactly where no further entry has such a number.
    pub fn search_step(&self, place: u16, prio: Prio, prios: &[Prio; 64]) -> Option<u16>
        requires { IsPlace self.now.forward place }
        ensures next { (blank : NumberedPrio) (o i : ℕ) → IsBefore self.now.forward place o i → MatchOption result
            (i < length (list_at self.now.forward o) → prio.0 < prio_by prios.now blank (slice_index (list_at self.now.forward o) i))
            (λ next. (i < length (list_at self.now.forward o)) × (next ≡ slice_index (list_at self.now.forward o) i) × (prio_by prios.now blank next ≤ prio.0)) }
        ensures rest { (blank : NumberedPrio) (o i : ℕ) → IsBefore self.now.forward place o i → Rises (prio_by prios.now blank) (list_at self.now.forward o) → result ≡ None
            → (j : ℕ) → i ≤ j → j < length (list_at self.now.forward o) → prio.0 < prio_by prios.now blank (slice_index (list_at self.now.forward o) j) }
    {
        let next = self.links.next(place);
        if next >= 512 {
            return None;
        }
        if prio.0 < prio_of(next, prios) {
            return None;
        }
        Some(next)
    }

    /// Links a node into a forward list, behind a place.
    pub fn link_forward(&mut self, node: u16, after: u16)
        requires node { node < 512 }
        requires place { IsPlaceFor node self.old.forward after }
        requires nowhere { total node self.old.forward ≡ 0 }
        ensures forward { (o i : ℕ) → IsBefore self.old.forward after o i → self.new.forward ≡ inserted self.old.forward o i node }
        ensures nexts { self.new.nexts ≡ linked_after self.old.nexts after node }
        ensures others { (self.new.back ≡ self.old.back) × (self.new.prevs ≡ self.old.prevs) }
    {
        link_next(&mut self.links, after, node);
    }

    /// Links a node, which was just linked forward, into the backward list too.
    pub fn link_back(&mut self, node: u16)
        requires node { node < 512 }
        requires half { IsHalfLinked self.old node }
        requires nowhere { total node self.old.back ≡ 0 }
        ensures back { self.new.back ≡ self.old.forward }
        ensures prevs { self.new.prevs ≡ linked_after self.old.prevs (slice_index self.old.nexts node) node }
        ensures others { (self.new.forward ≡ self.old.forward) × (self.new.nexts ≡ self.old.nexts) }
    {
        let before_it = self.links.next(node);
        link_prev(&mut self.links, before_it, node);
    }

    /// Takes a node out of its forward list.
    pub fn unlink_forward(&mut self, node: u16)
        requires node { node < 512 }
        requires whole { self.old.forward ≡ self.old.back }
        requires stands { 0 < total node self.old.forward }
        ensures forward { (o : ℕ) → o < 64 → 0 < times node (list_at self.old.forward o) → self.new.forward ≡ left self.old.forward o node }
        ensures half { IsHalfUnlinked self.new node }
        ensures nowhere { total node self.new.forward ≡ 0 }
        ensures absent { (o : ℕ) → o < 64 → 0 < times node (list_at self.old.forward o) → IsAbsent node (list_at self.new.forward o) }
        ensures nexts { self.new.nexts ≡ unlinked_after self.old.nexts (slice_index self.old.prevs node) node }
        ensures others { (self.new.back ≡ self.old.back) × (self.new.prevs ≡ self.old.prevs) }
    {
        let before = self.links.prev(node);
        unlink_next(&mut self.links, before, node);
    }

    /// Takes a node, which was just taken out of its forward list, out of the backward list too.
    pub fn unlink_back(&mut self, node: u16)
        requires node { node < 512 }
        requires half { IsHalfUnlinked self.old node }
        ensures back { self.new.back ≡ self.old.forward }
        ensures prevs { self.new.prevs ≡ unlinked_after self.old.prevs (slice_index self.old.nexts (slice_index self.old.prevs node)) node }
        ensures others { (self.new.forward ≡ self.old.forward) × (self.new.nexts ≡ self.old.nexts) }
    {
        let before = self.links.prev(node);
        let after = self.links.next(before);
        unlink_prev(&mut self.links, after, node);
    }
}
