// A whole step, one micro-step at a time.

ghost use Rattle.std.specs.Prelude.{◌≡◌, ◌<◌, ◌+◌, ℕ, List, true, false, ◌∷◌, slice_set};
ghost use Rattle.kern_model.specs.Micro.{Micro, Lists, whole};
ghost use Rattle.links.specs.Nodes.{AreOwn};
ghost use Rattle.micro_steps.specs.declared.link.Link.{Link as ALink};
ghost use Rattle.micro_steps.specs.Blocks.{IsAt, IsEven};
ghost use Rattle.micro_steps.specs.Halfway.{fresh};
ghost use Rattle.micro_steps.specs.Starts.{no_lists};
ghost use Rattle.micro_steps.specs.Whole.{HasNode, IsMidway, IsPaused, prios_after, start_place};

use crate::chains::Chains;
use crate::link::{Cursor, Link, Stage};
use kern_base::{Prio, TaskId};
use links::Links;
use std::marker::Model;

/// The chains of all lists, and the whole step that is made on them. Contracts see the lists of nodes, as they stand and as the
/// step in hand found them; the block in hand; and the present priorities of all tasks, by which waiters are passed.
#[derive(Drop)]
pub struct Steps<L: Links> {
    chains: Chains<L>,
    cursor: Cursor,
    prios: [Prio; 64],
}

impl<L: Links> Model for Steps<L> {
    ghost use Rattle.micro_steps.specs.Whole.{StepsRecord};

    ghost Value = { StepsRecord };

    ghost view = { λ a. record { halves = a.chains.halves; start = a.chains.start; cursor = a.cursor; prios = a.prios } };
}

// A block at its beginning.
fn begun(link: Link) -> Cursor
    ensures { result ≡ fresh link (start_place link) }
{
    let place = match link {
        Link::Wait(_, _, object) => 512 + object.0 as u16,
        _ => 0,
    };
    Cursor {
        link,
        stage: Stage::Forward,
        passed: 0,
        place,
    }
}

// A task that is to wait has the priority at which it waits.
fn keep_prio(prios: &mut [Prio; 64], link: Link)
    requires { HasNode link }
    ensures { prios.new ≡ prios_after link prios.old }
{
    if let Link::Wait(node, prio, _) = link {
        prios[(node / 8) as usize] = prio;
    }
}

impl<L: Links> Steps<L> {
    /// Empty lists, over fresh nodes: 128 for the ready lists, and 576 for the lists of waiters. No step is in hand.
    pub fn new(ready: L, pend: L, prios: &[Prio; 64]) -> Steps<L>
        requires ready { AreOwn 128 (L.nexts ready) × AreOwn 128 (L.prevs ready) }
        requires pend { AreOwn 576 (L.nexts pend) × AreOwn 576 (L.prevs pend) }
        ensures halves { result.halves ≡ whole no_lists }
        ensures start { result.start ≡ no_lists }
        ensures prios { result.prios ≡ prios.now }
    {
        Steps {
            chains: Chains::new(ready, pend),
            cursor: begun(Link::Plain),
            prios: *prios,
        }
    }

    /// The chains as they stand.
    pub fn chains(&self) -> &Chains<L>
        ensures { (result.now.halves ≡ self.now.halves) × (result.now.start ≡ self.now.start) }
    {
        &self.chains
    }

    /// Sets the present priority of a task, where no block is in hand.
    pub fn set_prio(&mut self, task: TaskId, prio: Prio)
        requires { task.0 < 64 }
        ensures prios { self.new.prios ≡ slice_set self.old.prios task.0 prio }
        ensures kept { (self.new.halves ≡ self.old.halves) × (self.new.start ≡ self.old.start) × (self.new.cursor ≡ self.old.cursor) }
    {
        self.prios[task.0 as usize] = prio;
    }

    /// Takes a block in hand. The task of a node that is to wait has from now on the priority at which it waits.
    pub fn take(&mut self, link: Link)
        requires even { IsEven self.old.halves }
        requires node { HasNode link }
        ensures kept { (self.new.halves ≡ self.old.halves) × (self.new.start ≡ self.old.start) }
        ensures cursor { self.new.cursor ≡ fresh link (start_place link) }
        ensures prios { self.new.prios ≡ prios_after link self.old.prios }
        ensures midway { (ms : List Micro) (l : Lists) (i : ℕ) (ks : List ALink) (end : Lists) → IsPaused ms l i (link ∷ ks) end self.old → IsMidway ms l i ks end self.new }
    {
        self.chains.consistent();
        keep_prio(&mut self.prios, link);
        self.cursor = begun(link);
    }

    /// One micro-step of the block in hand. True where it was its last.
    pub fn step(&mut self) -> bool
        requires { IsAt self.old.prios self.old.cursor self.old.halves }
        ensures kept { (self.new.start ≡ self.old.start) × (self.new.prios ≡ self.old.prios) }
        ensures more { (ms : List Micro) (l : Lists) (i : ℕ) (ks : List ALink) (end : Lists) → result ≡ false → IsMidway ms l i ks end self.old → IsMidway ms l (i + 1) ks end self.new }
        ensures last { (ms : List Micro) (l : Lists) (i : ℕ) (ks : List ALink) (end : Lists) → result ≡ true → IsMidway ms l i ks end self.old → IsPaused ms l (i + 1) ks end self.new }
    {
        self.chains.step(&mut self.cursor, &self.prios)
    }

    /// Ends a whole step: from now on the lists that it found are those that stand. Only the successors that its links changed
    /// are read again.
    pub fn close(&mut self)
        ensures kept { (self.new.halves ≡ self.old.halves) × (self.new.prios ≡ self.old.prios) }
        ensures start { self.new.start ≡ self.old.halves.forward }
    {
        self.chains.close();
    }
}
