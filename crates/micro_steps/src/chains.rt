// The chains of all lists, and one micro-step on them.

ghost use Rattle.std.specs.Prelude.{◌≡◌, ◌<◌, ℕ, true, false, [], slice_index_or};
ghost use Rattle.kern_model.specs.Micro.{Ready, Pend, LeaveForward, JoinForward, changed, whole};
ghost use Rattle.links.specs.Chain.{total};
ghost use Rattle.links.specs.Nodes.{AreOwn};
ghost use Rattle.pend_lists.specs.Pending.{IsBefore};
ghost use Rattle.micro_steps.specs.Blocks.{IsAt, IsEven, IsNext, JoinsPend, JoinsReady, LeavesPend, LeavesReady, one_made, place_at, rest};
ghost use Rattle.micro_steps.specs.Starts.{AreChains, no_lists};

use crate::link::{Cursor, Link, Stage};
use crate::start::Start;
use kern_base::{ObjId, Prio, TaskId};
use links::Links;
use pend_lists::PendLists;
use ready_list::ReadyList;
use std::marker::Model;

/// The ready lists and the lists of waiters, in both directions, and as the whole step in hand found them.
#[derive(Drop)]
pub struct Chains<L: Links> {
    ready: ReadyList<L>,
    pend: PendLists<L>,
    start: Start,
}

impl<L: Links> Model for Chains<L> {
    ghost use Rattle.micro_steps.specs.Starts.{ChainsRecord};

    ghost Value = { ChainsRecord };

    ghost use Rattle.micro_steps.specs.Starts.{halves_of, lists_found, IsFound};

    ghost view = { λ a. record { halves = halves_of a.ready a.pend; start = lists_found a.start } };

    ghost invariant = { λ a. IsFound a.ready.nexts a.pend.nexts a.start };
}

impl<L: Links> Chains<L> {
    /// Empty lists, over fresh nodes: 128 for the ready lists, and 576 for the lists of waiters.
    pub fn new(ready: L, pend: L) -> Chains<L>
        requires ready { AreOwn 128 (L.nexts ready) × AreOwn 128 (L.prevs ready) }
        requires pend { AreOwn 576 (L.nexts pend) × AreOwn 576 (L.prevs pend) }
        ensures halves { result.halves ≡ whole no_lists }
        ensures start { result.start ≡ no_lists }
    {
        let ready = ReadyList::new(ready);
        ready.consistent();
        let pend = PendLists::new(pend);
        pend.consistent();
        Chains {
            ready,
            pend,
            start: Start::new(),
        }
    }

    /// Does nothing. Its contract is what holds of all chains, also in the middle of a block.
    pub fn consistent(&self)
        ensures { AreChains self.now.halves }
    {
        self.ready.consistent();
        self.pend.consistent();
    }

    /// The ready lists.
    pub fn ready(&self) -> &ReadyList<L>
        ensures forward { result.now.forward ≡ self.now.halves.forward.ready }
        ensures back { result.now.back ≡ self.now.halves.back.ready }
        ensures marked { result.now.marked ≡ self.now.halves.marked }
    {
        &self.ready
    }

    /// The lists of waiters.
    pub fn pend(&self) -> &PendLists<L>
        ensures forward { result.now.forward ≡ self.now.halves.forward.pend }
        ensures back { result.now.back ≡ self.now.halves.back.pend }
    {
        &self.pend
    }

    /// One micro-step of a block. True where it was its last.
    pub fn step(&mut self, cursor: &mut Cursor, prios: &[Prio; 64]) -> bool
        requires { IsAt prios.now cursor.old self.old.halves }
        ensures made { self.new.halves ≡ one_made prios.now cursor.old self.old.halves }
        ensures kept { (self.new.start ≡ self.old.start) × (cursor.new.link ≡ cursor.old.link) }
        ensures more { result ≡ false → IsAt prios.now cursor.new self.new.halves × IsNext prios.now cursor.old self.old.halves (rest prios.now cursor.new self.new.halves) }
        ensures last { result ≡ true → IsEven self.new.halves × IsNext prios.now cursor.old self.old.halves [] }
    {
        match cursor.link {
            Link::Unready(task, prio) => self.unready(cursor, task, prio, prios),
            Link::Ready(task, prio, tail) => self.make_ready(cursor, task, prio, tail, prios),
            Link::Wait(node, prio, object) => self.wait(cursor, node, prio, object, prios),
            Link::Leave(node, object) => self.leave(cursor, node, object, prios),
            Link::Plain => true,
        }
    }

    /// Ends a whole step: from now on the lists that were found are those that stand.
    pub fn close(&mut self)
        ensures halves { self.new.halves ≡ self.old.halves }
        ensures start { self.new.start ≡ self.old.halves.forward }
    {
        self.ready.consistent();
        self.pend.consistent();
        self.start.mend(&self.ready, &self.pend);
    }
}

// Links of the forward chains, which note the nodes whose successor they change.
impl<L: Links> Chains<L> {
    fn unready_forward(&mut self, task: TaskId, _prio: Prio)
        requires leaves { LeavesReady task.0 _prio.0 self.old.halves }
        requires whole { self.old.halves.forward.ready ≡ self.old.halves.back.ready }
        ensures halves { self.new.halves ≡ changed (LeaveForward (Ready _prio.0) task.0) self.old.halves }
        ensures start { self.new.start ≡ self.old.start }
    {
        self.ready.consistent();
        let before = self.ready.predecessor(task.0 as u16);
        self.start.mark_ready(before);
        self.ready.unlink_forward(task);
    }

    fn ready_forward(&mut self, task: TaskId, prio: Prio, tail: bool)
        requires joins { JoinsReady task.0 prio.0 self.old.halves }
        requires nowhere { total task.0 self.old.halves.back.ready ≡ 0 }
        requires whole { self.old.halves.forward.ready ≡ self.old.halves.back.ready }
        ensures halves { self.new.halves ≡ changed (JoinForward (Ready prio.0) task.0 (place_at tail (slice_index_or self.old.halves.back.ready prio.0 []))) self.old.halves }
        ensures start { self.new.start ≡ self.old.start }
    {
        let before = self.ready.join_after(prio, tail);
        self.start.mark_ready(before);
        self.start.mark_ready(task.0 as u16);
        self.ready.link_forward(task, prio, tail);
    }

    fn leave_forward(&mut self, node: u16, _object: ObjId)
        requires leaves { LeavesPend node _object.0 self.old.halves }
        requires whole { self.old.halves.forward.pend ≡ self.old.halves.back.pend }
        ensures halves { self.new.halves ≡ changed (LeaveForward (Pend _object.0) node) self.old.halves }
        ensures start { self.new.start ≡ self.old.start }
    {
        self.pend.consistent();
        let before = self.pend.predecessor(node);
        self.start.mark_pend(before);
        self.pend.unlink_forward(node);
    }

    fn wait_forward(&mut self, node: u16, after: u16, _object: ObjId)
        requires joins { JoinsPend node _object.0 self.old.halves }
        requires whole { self.old.halves.forward.pend ≡ self.old.halves.back.pend }
        requires place { (i : ℕ) × IsBefore self.old.halves.forward.pend after _object.0 i }
        ensures halves { (i : ℕ) → IsBefore self.old.halves.forward.pend after _object.0 i → self.new.halves ≡ changed (JoinForward (Pend _object.0) node i) self.old.halves }
        ensures start { self.new.start ≡ self.old.start }
    {
        self.pend.consistent();
        self.start.mark_pend(after);
        self.start.mark_pend(node);
        self.pend.link_forward(node, after);
    }
}

// One micro-step of each kind of block.
impl<L: Links> Chains<L> {
    fn unready(&mut self, cursor: &mut Cursor, task: TaskId, prio: Prio, prios: &[Prio; 64]) -> bool
        requires link { cursor.old.link ≡ Link.Unready task prio }
        requires at { IsAt prios.now cursor.old self.old.halves }
        ensures made { self.new.halves ≡ one_made prios.now cursor.old self.old.halves }
        ensures kept { (self.new.start ≡ self.old.start) × (cursor.new.link ≡ cursor.old.link) }
        ensures more { result ≡ false → IsAt prios.now cursor.new self.new.halves × IsNext prios.now cursor.old self.old.halves (rest prios.now cursor.new self.new.halves) }
        ensures last { result ≡ true → IsEven self.new.halves × IsNext prios.now cursor.old self.old.halves [] }
    {
        let _ = prios;
        match cursor.stage {
            Stage::Forward => {
                self.unready_forward(task, prio);
                cursor.stage = Stage::Back;
                false
            }
            _ => {
                self.ready.unlink_back(task, prio);
                true
            }
        }
    }

    fn make_ready(
        &mut self,
        cursor: &mut Cursor,
        task: TaskId,
        prio: Prio,
        tail: bool,
        prios: &[Prio; 64],
    ) -> bool
        requires link { cursor.old.link ≡ Link.Ready task prio tail }
        requires at { IsAt prios.now cursor.old self.old.halves }
        ensures made { self.new.halves ≡ one_made prios.now cursor.old self.old.halves }
        ensures kept { (self.new.start ≡ self.old.start) × (cursor.new.link ≡ cursor.old.link) }
        ensures more { result ≡ false → IsAt prios.now cursor.new self.new.halves × IsNext prios.now cursor.old self.old.halves (rest prios.now cursor.new self.new.halves) }
        ensures last { result ≡ true → IsEven self.new.halves × IsNext prios.now cursor.old self.old.halves [] }
    {
        let _ = prios;
        match cursor.stage {
            Stage::Forward => {
                self.ready_forward(task, prio, tail);
                cursor.stage = Stage::Back;
                false
            }
            Stage::Back => {
                self.ready.link_back(task, prio, tail);
                cursor.stage = Stage::Mark;
                false
            }
            Stage::Mark => {
                self.ready.mark(prio);
                true
            }
        }
    }

    fn leave(&mut self, cursor: &mut Cursor, node: u16, object: ObjId, prios: &[Prio; 64]) -> bool
        requires link { cursor.old.link ≡ Link.Leave node object }
        requires at { IsAt prios.now cursor.old self.old.halves }
        ensures made { self.new.halves ≡ one_made prios.now cursor.old self.old.halves }
        ensures kept { (self.new.start ≡ self.old.start) × (cursor.new.link ≡ cursor.old.link) }
        ensures more { result ≡ false → IsAt prios.now cursor.new self.new.halves × IsNext prios.now cursor.old self.old.halves (rest prios.now cursor.new self.new.halves) }
        ensures last { result ≡ true → IsEven self.new.halves × IsNext prios.now cursor.old self.old.halves [] }
    {
        let _ = prios;
        match cursor.stage {
            Stage::Forward => {
                self.leave_forward(node, object);
                cursor.stage = Stage::Back;
                false
            }
            _ => {
                self.pend.unlink_back(node);
                true
            }
        }
    }

    fn wait(
        &mut self,
        cursor: &mut Cursor,
        node: u16,
        prio: Prio,
        object: ObjId,
        prios: &[Prio; 64],
    ) -> bool
        requires link { cursor.old.link ≡ Link.Wait node prio object }
        requires at { IsAt prios.now cursor.old self.old.halves }
        ensures made { self.new.halves ≡ one_made prios.now cursor.old self.old.halves }
        ensures kept { (self.new.start ≡ self.old.start) × (cursor.new.link ≡ cursor.old.link) }
        ensures more { result ≡ false → IsAt prios.now cursor.new self.new.halves × IsNext prios.now cursor.old self.old.halves (rest prios.now cursor.new self.new.halves) }
        ensures last { result ≡ true → IsEven self.new.halves × IsNext prios.now cursor.old self.old.halves [] }
    {
        match cursor.stage {
            Stage::Forward => match self.pend.search_step(cursor.place, prio, prios) {
                Some(next) => {
                    cursor.place = next;
                    cursor.passed += 1;
                    false
                }
                None => {
                    self.wait_forward(node, cursor.place, object);
                    cursor.stage = Stage::Back;
                    false
                }
            },
            _ => {
                self.pend.link_back(node);
                true
            }
        }
    }
}
