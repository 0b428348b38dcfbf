// The lists as a whole step found them.

ghost use Rattle.std.specs.Prelude.{◌≡◌, ◌≢◌, ◌<◌, ◌+◌, ℕ, []};
ghost use Rattle.links.specs.Chain.{times};
ghost use Rattle.links.specs.Nodes.{AreOwn};
ghost use Rattle.micro_steps.specs.Starts.{IsFound};

use arrayvec::ArrayVec;
use links::Links;
use pend_lists::PendLists;
use ready_list::ReadyList;
use std::marker::Model;

/// The successors of all nodes as a whole step found them. Nodes whose successor the step changes are stale: these are
/// numbered through, the 128 nodes of ready lists first.
#[derive(Drop)]
pub struct Start {
    ready: [u16; 128],
    pend: [u16; 576],
    marks: [bool; 704],
    stale: ArrayVec<u16, 704>,
}

impl Model for Start {
    ghost use Rattle.micro_steps.specs.Starts.{StartRecord};

    ghost Value = { StartRecord };

    ghost use Rattle.micro_steps.specs.Starts.{AreStale};

    ghost view = { λ a. record { ready = a.ready; pend = a.pend; stale = a.stale.items } };

    ghost invariant = { λ a. AreStale a.marks a.stale.items };
}

impl Start {
    /// Each node is its own successor.
    pub fn new() -> Start
        ensures found { AreOwn 128 result.ready × AreOwn 576 result.pend }
        ensures stale { result.stale ≡ [] }
    {
        let mut ready = [0; 128];
        for node in 0..128u16 {
            ready[node as usize] = node;
        }
        let mut pend = [0; 576];
        for node in 0..576u16 {
            pend[node as usize] = node;
        }
        Start {
            ready,
            pend,
            marks: [false; 704],
            stale: ArrayVec::new(),
        }
    }

    /// The successor of a node of ready lists may be another one from now on.
    pub fn mark_ready(&mut self, node: u16)
        requires { node < 128 }
        ensures found { (self.new.ready ≡ self.old.ready) × (self.new.pend ≡ self.old.pend) }
        ensures stale { (x : ℕ) → times x self.new.stale ≡ 0 → (times x self.old.stale ≡ 0) × (x ≢ node) }
    {
        self.mark(node);
    }

    /// The successor of a node of pend lists may be another one from now on.
    pub fn mark_pend(&mut self, node: u16)
        requires { node < 576 }
        ensures found { (self.new.ready ≡ self.old.ready) × (self.new.pend ≡ self.old.pend) }
        ensures stale { (x : ℕ) → times x self.new.stale ≡ 0 → (times x self.old.stale ≡ 0) × (x ≢ 128 + node) }
    {
        self.mark(128 + node);
    }

    fn mark(&mut self, node: u16)
        requires { node < 704 }
        ensures found { (self.new.ready ≡ self.old.ready) × (self.new.pend ≡ self.old.pend) }
        ensures stale { (x : ℕ) → times x self.new.stale ≡ 0 → (times x self.old.stale ≡ 0) × (x ≢ node) }
    {
        if !self.marks[node as usize] {
            self.marks[node as usize] = true;
            self.stale.push(node);
        }
    }

    /// Finds the present successors of the stale nodes.
    pub fn mend<L: Links>(&mut self, ready: &ReadyList<L>, pend: &PendLists<L>)
        requires { IsFound ready.now.nexts pend.now.nexts self.old }
        ensures found { (self.new.ready ≡ ready.now.nexts) × (self.new.pend ≡ pend.now.nexts) }
        ensures stale { self.new.stale ≡ [] }
    {
        while let Some(node) = self.stale.pop() {
            self.marks[node as usize] = false;
            if node < 128 {
                self.ready[node as usize] = ready.successor(node);
            } else {
                self.pend[node as usize - 128] = pend.successor(node - 128);
            }
        }
    }
}
