// Suspension of tasks, and the yield: what a call comes to, and what its last micro-step makes.

ghost use Rattle.std.specs.Prelude.{◌≡◌, ◌≤◌, ◌==◌, ◌&&◌, ℕ, true};
ghost use Rattle.kern_model.specs.State.{nesting_limit, task_at};
ghost use Rattle.kern_model.specs.Checks.{named_task};
ghost use Rattle.kernel_records.specs.Deciding.{decision_of};
ghost use Rattle.kernel_records.specs.Suspension.{acts, moves_task, outcome_moved, records_moved, refilled_first, suspend_decision, task_resume_decision};

use crate::changes::{resume_task, suspend_task};
use crate::records::Records;
use call_checks::named_task;
use decisions::{refuse, success};
use kern_base::{Around, Decision, OsErr, Outcome, Request, Service, TaskId};

// A task is suspended so often at most.
const NESTING_LIMIT: u8 = 250;

// There are so many tasks.
const TASKS: u32 = 64;

/// Whether this decision on a call of a service suspends a task, or resumes one, or lets its caller go to the tail of its list.
pub fn moves_task(service: Service, decision: &Decision) -> bool
    ensures { result ≡ moves_task service decision.now }
{
    let moves = matches!(
        service,
        Service::TaskSuspend | Service::TaskResume | Service::RoundRobinYield
    );
    moves && acts(decision)
}

// Whether something comes of a decision: a call that is refused changes nothing.
fn acts(decision: &Decision) -> bool
    ensures { result ≡ acts decision.now }
{
    match decision {
        Decision::Done(answer) => answer.err == OsErr::NoError,
        Decision::Block | Decision::Wake(_) => true,
    }
}

// What `OSTaskSuspend` comes to of a task that is suspended so often. A caller's own is refused under the lock.
fn decide_suspend(own_under_lock: bool, suspended: u8) -> Decision
    ensures { result ≡ suspend_decision own_under_lock suspended }
{
    if own_under_lock {
        refuse(OsErr::SchedLocked)
    } else if suspended == NESTING_LIMIT {
        refuse(OsErr::Depth)
    } else {
        Decision::Done(success(0))
    }
}

// What `OSTaskResume` comes to of a task that is suspended so often.
fn decide_task_resume(own: bool, suspended: u8) -> Decision
    ensures { result ≡ task_resume_decision own suspended }
{
    if own {
        refuse(OsErr::TaskResumeSelf)
    } else if suspended == 0 {
        refuse(OsErr::TaskNotSuspended)
    } else {
        Decision::Done(success(0))
    }
}

impl Records {
    // How often the task of this number is suspended; not at all, where there is none.
    fn suspended(&self, number: u32) -> u8
        ensures { result ≡ (task_at self.now.state number).suspended }
    {
        if number < TASKS {
            self.tasks.get(TaskId(number as u8)).suspended
        } else {
            0
        }
    }

    // What `OSTaskSuspend` of the task that the call names comes to.
    pub(crate) fn decide_suspend(&self, request: &Request, seen: &Around) -> Decision
        ensures { result ≡ suspend_decision ((named_task request.now seen.now.caller.0 == seen.now.caller.0) && seen.now.locked) (task_at self.now.state (named_task request.now seen.now.caller.0)).suspended }
    {
        let number = named_task(request.args[0], seen.caller);
        let own = number == u32::from(seen.caller.0);
        decide_suspend(own && seen.locked, self.suspended(number))
    }

    // What `OSTaskResume` of the task that the call names comes to.
    pub(crate) fn decide_task_resume(&self, request: &Request, seen: &Around) -> Decision
        ensures { result ≡ task_resume_decision (named_task request.now seen.now.caller.0 == seen.now.caller.0) (task_at self.now.state (named_task request.now seen.now.caller.0)).suspended }
    {
        let number = named_task(request.args[0], seen.caller);
        let own = number == u32::from(seen.caller.0);
        decide_task_resume(own, self.suspended(number))
    }

    // The task that the call names is suspended once more, or once less; of a yield the next task has its full quantum.
    pub(crate) fn move_task(
        &mut self,
        request: &Request,
        seen: &Around,
        decision: &Decision,
    ) -> Outcome
        requires decided { decision.now ≡ decision_of request.now seen.now self.old.state }
        requires moves { moves_task request.now.service decision.now ≡ true }
        requires few { (x : ℕ) → (task_at self.old.state x).suspended ≤ nesting_limit }
        ensures records { self.new ≡ record self.old { state = records_moved request.now.service (named_task request.now seen.now.caller.0) seen.now.caller.0 seen.now.first self.old.state } }
        ensures outcome { result ≡ outcome_moved request.now.service (named_task request.now seen.now.caller.0 == seen.now.caller.0) }
    {
        let number = named_task(request.args[0], seen.caller);
        let own = number == u32::from(seen.caller.0);
        let answered = Outcome::Answered(success(0), None);
        match request.service {
            Service::RoundRobinYield => {
                self.refill_first(seen.first);
                answered
            }
            Service::TaskSuspend => {
                suspend_task(&mut self.tasks, TaskId(number as u8), own);
                if own { Outcome::Waits } else { answered }
            }
            _ => {
                resume_task(&mut self.tasks, TaskId(number as u8));
                answered
            }
        }
    }

    // The first task behind one that yields has its full quantum again.
    fn refill_first(&mut self, first: Option<TaskId>)
        ensures { self.new ≡ record self.old { state = refilled_first first self.old.state } }
    {
        let _ = &self.tasks;
        let Some(task) = first else {
            return;
        };
        if task.0 < 64 {
            self.refill(task);
        }
    }
}
