// Calls on the scheduler: its lock, its ticks, delays, suspension of tasks, and the yield.

ghost use Rattle.std.specs.Prelude.{◌≡◌, ◌<◌, true};
ghost use Rattle.kern_base.specs.declared.services.Service.TheVariants.{RoundRobinYield};
ghost use Rattle.kern_model.specs.State.{task_at};
ghost use Rattle.decisions.specs.Around.{first_waiter};
ghost use Rattle.tick_timers.specs.Delays.{is_delayed};
ghost use Rattle.kernel_records.specs.SchedulerCalls.{is_scheduler_call, lock_decision, scheduler_decision, scheduler_waiters, unlock_decision};

use crate::records::Records;
use call_checks::named_task;
use decisions::{failure, refuse, success};
use kern_base::{Answer, Around, Decision, OsErr, Request, Service, TaskId};
use round_robin::decide_yield;
use tick_timers::{decide_resume, is_delayed};

// The scheduler is locked so often at most.
const NESTING_LIMIT: u8 = 250;

// The timer task.
const TIMER: TaskId = TaskId(61);

// There are so many tasks.
const TASKS: u32 = 64;

/// Whether a call of this service is on the scheduler: its lock, its ticks, a delay, a suspension, or the yield.
pub fn is_scheduler_call(service: Service) -> bool
    ensures { result ≡ is_scheduler_call service }
{
    matches!(
        service,
        Service::SchedLock
            | Service::SchedUnlock
            | Service::TimeGet
            | Service::TimeDly
            | Service::TimeDlyResume
            | Service::TaskSuspend
            | Service::TaskResume
            | Service::RoundRobinYield
            | Service::TimeTick
    )
}

// What `OSSchedLock` comes to, where the scheduler is locked so often.
fn decide_lock(lock: u8) -> Decision
    ensures { result ≡ lock_decision lock }
{
    if lock == NESTING_LIMIT {
        refuse(OsErr::LockOverflow)
    } else {
        Decision::Done(success(u32::from(lock) + 1))
    }
}

// What `OSSchedUnlock` comes to: a callback can not undo the timer task's own lock.
fn decide_unlock(lock: u8, caller: TaskId) -> Decision
    ensures { result ≡ unlock_decision caller.0 lock }
{
    if lock == 0 || (lock == 1 && caller == TIMER) {
        return refuse(OsErr::SchedNotLocked);
    }
    if lock == 1 {
        return Decision::Done(success(0));
    }
    Decision::Done(Answer {
        value: u32::from(lock - 1),
        ..failure(OsErr::SchedLocked)
    })
}

impl Records {
    // The decision of a call on the scheduler, whose checks have passed.
    pub(crate) fn decide_on_scheduler(&self, request: &Request, seen: &Around) -> Decision
        ensures { result ≡ scheduler_decision request.now seen.now self.now.state }
    {
        match request.service {
            Service::SchedLock => decide_lock(self.lock),
            Service::SchedUnlock => decide_unlock(self.lock, seen.caller),
            Service::TimeGet => Decision::Done(success(self.ticks.now())),
            Service::TimeDly => self.ticks.decide_delay(request, seen.locked),
            Service::TimeDlyResume => {
                let number = named_task(request.args[0], seen.caller);
                decide_resume(self.is_delayed(number))
            }
            Service::TaskSuspend => self.decide_suspend(request, seen),
            Service::TaskResume => self.decide_task_resume(request, seen),
            Service::RoundRobinYield => {
                decide_yield(seen.first, seen.locked, self.settings.round_robin)
            }
            _ => refuse(OsErr::CallUnknown),
        }
    }

    // Whether the task of this number is in a delay.
    fn is_delayed(&self, number: u32) -> bool
        ensures value { result ≡ is_delayed (task_at self.now.state number).waiting }
        ensures inside { result ≡ true → number < 64 }
    {
        number < TASKS && is_delayed(self.tasks.get(TaskId(number as u8)).wait)
    }

    /// The one that waits for what a call on the scheduler other than a yield is about: the task whose delay is to end.
    pub fn delayed_task(&self, request: &Request, caller: TaskId) -> Option<TaskId>
        requires call { is_scheduler_call request.now.service ≡ true }
        requires other { request.now.service ≡ RoundRobinYield → ⊥ }
        ensures { result ≡ first_waiter (scheduler_waiters request.now.service request.now caller.0 self.now.state) }
    {
        if !matches!(request.service, Service::TimeDlyResume) {
            return None;
        }
        let number = named_task(request.args[0], caller);
        if self.is_delayed(number) {
            Some(TaskId(number as u8))
        } else {
            None
        }
    }
}
