// What a call comes to, and which of its links are made.

ghost use Rattle.std.specs.Prelude.{◌≡◌, ◌<◌, ◌≤◌, ℕ, [], ◌∷◌, drop, length, All, IsSome, MatchOption, None, slice_get, true};
ghost use Rattle.kern_model.specs.FlagBits.{ready_bits};
ghost use Rattle.tcb_pool.specs.TaskView.{task_of};
ghost use Rattle.link_plans.specs.Plans.{block_links, end_left, links_left, look_links, wake_links, woken_left, woken_links};

use arrayvec::ArrayVec;
use event_flags::FlagGroup;
use kern_base::{Decision, ObjId, Prio, TaskId, Who};
use micro_steps::Link;
use pend_lists::node_of;
use tcb_pool::{Tcb, Tcbs};

/// What a call comes to, and how far its links are made.
#[derive(Drop)]
pub struct Plan {
    pub decision: Decision,
    pub caller: TaskId,
    /// The priority at whose tail a task that is woken becomes ready.
    pub compared: Prio,
    /// The objects for which the caller is to wait, where it blocks.
    pub objects: ArrayVec<u8, 8>,
    /// The tasks that are woken, in order; of a post of event flags all that wait for the group, each of which is looked at.
    pub woken: ArrayVec<u8, 64>,
    /// The links, known when the step begins, of a call that is answered.
    pub known: ArrayVec<Link, 4>,
    /// The link behind all these, where there is one: an internal task that waits for its next signal.
    pub last: Option<Link>,
    /// The bits of the event flag group that a post leaves; 0 in any other plan.
    pub bits: u32,
    /// How many of these tasks are done with.
    pub task: usize,
    /// How many links are made of the task in hand.
    pub made: u8,
    /// Whether the end of the step is made too.
    pub ended: bool,
}

impl Plan {
    /// The next link, the last of which is the end of the step. None exactly where none is left.
    pub fn next_link(&mut self, tasks: &Tcbs) -> Option<Link>
        requires caller { self.old.caller.0 < 64 }
        requires objects { All (λ o. o < 64) self.old.objects.items }
        requires woken { All (λ x. x < 64) self.old.woken.items }
        ensures next { MatchOption result (links_left tasks.now.tasks self.old ≡ []) (λ link. links_left tasks.now.tasks self.old ≡ link ∷ links_left tasks.now.tasks self.new) }
        ensures kept { (self.new.decision ≡ self.old.decision) × (self.new.caller ≡ self.old.caller) × (self.new.compared ≡ self.old.compared) × (self.new.objects ≡ self.old.objects) × (self.new.woken ≡ self.old.woken) × (self.new.known ≡ self.old.known) × (self.new.bits ≡ self.old.bits) }
        ensures ended { self.old.ended ≡ true → self.new.ended ≡ true }
        ensures none { result ≡ None → links_left tasks.now.tasks self.new ≡ [] }
    {
        let next = match self.decision {
            Decision::Done(_) => self.next_known(),
            Decision::Block => self.next_of_block(tasks),
            Decision::Wake(who) => self.next_of_wakes(who, tasks),
        };
        if next.is_some() {
            return next;
        }
        self.next_of_end()
    }

    // The link behind those of the decision, and the end of the step.
    fn next_of_end(&mut self) -> Option<Link>
        ensures next { MatchOption result (end_left self.old ≡ []) (λ link. end_left self.old ≡ link ∷ end_left self.new) }
        ensures kept { (self.new.decision ≡ self.old.decision) × (self.new.caller ≡ self.old.caller) × (self.new.compared ≡ self.old.compared) × (self.new.objects ≡ self.old.objects) × (self.new.woken ≡ self.old.woken) × (self.new.known ≡ self.old.known) × (self.new.bits ≡ self.old.bits) }
        ensures others { (self.new.task ≡ self.old.task) × (self.new.made ≡ self.old.made) }
        ensures ended { self.old.ended ≡ true → self.new.ended ≡ true }
        ensures none { result ≡ None → self.new ≡ self.old }
    {
        if let Some(link) = self.last {
            self.last = None;
            return Some(link);
        }
        if self.ended {
            return None;
        }
        self.ended = true;
        Some(Link::Plain)
    }

    // The links that were known, one after another.
    fn next_known(&mut self) -> Option<Link>
        ensures next { MatchOption result (drop self.old.made self.old.known.items ≡ []) (λ link. drop self.old.made self.old.known.items ≡ link ∷ drop self.new.made self.old.known.items) }
        ensures kept { (self.new.decision ≡ self.old.decision) × (self.new.caller ≡ self.old.caller) × (self.new.compared ≡ self.old.compared) × (self.new.objects ≡ self.old.objects) × (self.new.woken ≡ self.old.woken) × (self.new.known ≡ self.old.known) × (self.new.bits ≡ self.old.bits) }
        ensures others { (self.new.task ≡ self.old.task) × (self.new.ended ≡ self.old.ended) × (self.new.last ≡ self.old.last) }
        ensures none { result ≡ None → self.new.made ≡ self.old.made }
    {
        let made = self.made as usize;
        if made >= self.known.len() {
            return None;
        }
        self.made += 1;
        Some(self.known[made])
    }

    // The caller leaves its ready list, and waits for one object after another.
    fn next_of_block(&mut self, tasks: &Tcbs) -> Option<Link>
        requires caller { self.old.caller.0 < 64 }
        ensures next { MatchOption result (drop self.old.made (block_links tasks.now.tasks self.old.caller.0 self.old.objects.items) ≡ []) (λ link. drop self.old.made (block_links tasks.now.tasks self.old.caller.0 self.old.objects.items) ≡ link ∷ drop self.new.made (block_links tasks.now.tasks self.old.caller.0 self.old.objects.items)) }
        ensures kept { (self.new.decision ≡ self.old.decision) × (self.new.caller ≡ self.old.caller) × (self.new.compared ≡ self.old.compared) × (self.new.objects ≡ self.old.objects) × (self.new.woken ≡ self.old.woken) × (self.new.known ≡ self.old.known) × (self.new.bits ≡ self.old.bits) }
        ensures others { (self.new.task ≡ self.old.task) × (self.new.ended ≡ self.old.ended) × (self.new.last ≡ self.old.last) }
        ensures none { result ≡ None → self.new.made ≡ self.old.made }
    {
        let prio = tasks.get(self.caller).prio;
        let made = self.made;
        if made == 0 {
            self.made = 1;
            return Some(Link::Unready(self.caller, prio));
        }
        let index = made - 1;
        if (index as usize) < self.objects.len() {
            self.made = made + 1;
            let object = ObjId(self.objects[index as usize]);
            return Some(Link::Wait(node_of(self.caller, index), prio, object));
        }
        None
    }

    // The tasks are woken or looked at, one after another.
    fn next_of_wakes(&mut self, who: Who, tasks: &Tcbs) -> Option<Link>
        requires woken { All (λ x. x < 64) self.old.woken.items }
        ensures next { MatchOption result (woken_left who tasks.now.tasks self.old ≡ []) (λ link. woken_left who tasks.now.tasks self.old ≡ link ∷ woken_left who tasks.now.tasks self.new) }
        ensures kept { (self.new.decision ≡ self.old.decision) × (self.new.caller ≡ self.old.caller) × (self.new.compared ≡ self.old.compared) × (self.new.objects ≡ self.old.objects) × (self.new.woken ≡ self.old.woken) × (self.new.known ≡ self.old.known) × (self.new.bits ≡ self.old.bits) }
        ensures others { (self.new.ended ≡ self.old.ended) × (self.new.last ≡ self.old.last) }
        ensures none { result ≡ None → woken_left who tasks.now.tasks self.new ≡ [] }
    {
        while self.task < self.woken.len() {
            let task = TaskId(self.woken[self.task]);
            if let Some(link) = self.task_link(who, task, tasks.get(task)) {
                self.made += 1;
                return Some(link);
            }
            self.task += 1;
            self.made = 0;
        }
        None
    }

    // The next link of the task in hand, where there is one.
    fn task_link(&self, who: Who, task: TaskId, tcb: &Tcb) -> Option<Link>
        requires { task.0 < 64 }
        ensures link { result ≡ slice_get (woken_links who self.now.bits self.now.compared.0 task.0 (task_of tcb.now)) self.now.made }
        ensures few { IsSome result → self.now.made < 16 }
    {
        match who {
            Who::First | Who::All => self.wake_link(task, tcb, self.made),
            Who::Matching => self.look_link(task, tcb),
        }
    }

    // The next link of a task that is looked at: a micro-step, and then its wake where its condition holds on the group's bits.
    fn look_link(&self, task: TaskId, tcb: &Tcb) -> Option<Link>
        requires { task.0 < 64 }
        ensures link { result ≡ slice_get (look_links (ready_bits self.now.bits tcb.now.mask tcb.now.opt) task.0 self.now.compared.0 (task_of tcb.now)) self.now.made }
        ensures few { IsSome result → self.now.made < 16 }
    {
        if self.made == 0 {
            return Some(Link::Plain);
        }
        FlagGroup::ready_bits(self.bits, tcb.mask, tcb.opt)?;
        self.wake_link(task, tcb, self.made - 1)
    }

    // The link of a wake after so many: the task leaves its objects, and becomes ready where it is not suspended.
    fn wake_link(&self, task: TaskId, tcb: &Tcb, made: u8) -> Option<Link>
        requires { task.0 < 64 }
        ensures link { result ≡ slice_get (wake_links task.0 self.now.compared.0 (task_of tcb.now)) made }
        ensures few { IsSome result → made < 15 }
    {
        let ids = &tcb.ids[..tcb.n_ids as usize];
        if (made as usize) < ids.len() {
            return Some(Link::Leave(node_of(task, made), ObjId(ids[made as usize])));
        }
        if tcb.suspended == 0 && made as usize == ids.len() {
            return Some(Link::Ready(task, tcb.prio, tcb.prio == self.compared));
        }
        None
    }
}
