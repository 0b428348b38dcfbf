// Where tasks stand after the call of a plan.

ghost use Rattle.std.specs.Prelude.{◌≡◌, ◌<◌, ℕ, ◌==◌, is_some};
ghost use Rattle.std.specs.List.{list_any};
ghost use Rattle.kern_model.specs.State.{waits_for_nothing};
ghost use Rattle.kern_model.specs.FlagBits.{ready_bits};
ghost use Rattle.link_plans.specs.Told.{free_after, standing_after, standing_by, standing_told};

use crate::moves::Standing;
use crate::plan::Plan;
use event_flags::FlagGroup;
use kern_base::{Decision, TaskId, Waiting, Who};
use tcb_pool::{Tcb, Tcbs};

impl Plan {
    /// Where each task stands after the call that comes to this plan; None for a task that does not live.
    pub fn standings(&self, tasks: &Tcbs) -> [Option<Standing>; 64]
        ensures { (x : ℕ) → x < 64 → standing_told result x ≡ standing_after self.now tasks.now.tasks x }
    {
        let mut standings = [None; 64];
        for task in 0..64 {
            standings[task as usize] = self.standing(TaskId(task), tasks.get(TaskId(task)));
        }
        standings
    }

    // Where the task of this record stands then.
    fn standing(&self, task: TaskId, tcb: &Tcb) -> Option<Standing>
        ensures { result ≡ standing_by tcb.now.alive (free_after self.now.decision self.now.caller.0 self.now.woken.items task.0 (waits_for_nothing tcb.now.wait) (is_some (ready_bits self.now.bits tcb.now.mask tcb.now.opt))) tcb.now.suspended }
    {
        if !tcb.alive {
            return None;
        }
        let free = self.is_free(task, tcb);
        Some(match (free, tcb.suspended) {
            (true, 0) => Standing::Ready,
            (true, _) => Standing::Nowhere,
            (false, _) => Standing::Waits,
        })
    }

    // Whether the task of this record waits for nothing after the call.
    fn is_free(&self, task: TaskId, tcb: &Tcb) -> bool
        ensures { result ≡ free_after self.now.decision self.now.caller.0 self.now.woken.items task.0 (waits_for_nothing tcb.now.wait) (is_some (ready_bits self.now.bits tcb.now.mask tcb.now.opt)) }
    {
        let free = matches!(tcb.wait, Waiting::No);
        match self.decision {
            Decision::Done(_) => free,
            Decision::Block => free && task != self.caller,
            Decision::Wake(Who::Matching) => free || (self.is_woken(task) && self.holds(tcb)),
            Decision::Wake(Who::First | Who::All) => free || self.is_woken(task),
        }
    }

    // Whether the condition of the task's wait on event flags holds on the bits of the plan.
    fn holds(&self, tcb: &Tcb) -> bool
        ensures { result ≡ is_some (ready_bits self.now.bits tcb.now.mask tcb.now.opt) }
    {
        FlagGroup::ready_bits(self.bits, tcb.mask, tcb.opt).is_some()
    }

    // Whether the task is among those that are woken or looked at.
    fn is_woken(&self, task: TaskId) -> bool
        ensures { result ≡ list_any (λ y. y == task.0) self.now.woken.items }
    {
        self.woken.contains(&task.0)
    }
}
