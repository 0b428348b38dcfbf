// Calls on a task's own semaphore and queue.

ghost use Rattle.std.specs.Prelude.{◌≡◌, ◌<◌, true};
ghost use Rattle.kern_model.specs.State.{task_at};
ghost use Rattle.decisions.specs.Around.{first_waiter};
ghost use Rattle.task_objects.specs.Rows.{is_task_call, target, waiters, waits_for_it};

use crate::records::Records;
use call_checks::named_task;
use kern_base::{Request, Service, TaskId, Waiting};

// There are so many tasks.
const TASKS: u32 = 64;

/// Whether a call of this service is about a task's own semaphore or queue.
pub fn is_task_call(service: Service) -> bool
    ensures { result ≡ is_task_call service }
{
    matches!(
        service,
        Service::TaskSemPost
            | Service::TaskQPost
            | Service::TaskSemPend
            | Service::TaskQPend
            | Service::TaskSemPendAbort
            | Service::TaskQPendAbort
    )
}

// The number of the task whose own semaphore or queue a call is about: a wait is about the caller's own.
fn target_number(request: &Request, caller: TaskId) -> u32
    ensures { result ≡ target request.now.service request.now caller.0 }
{
    match request.service {
        Service::TaskSemPend | Service::TaskQPend => u32::from(caller.0),
        _ => named_task(request.args[0], caller),
    }
}

// That task.
pub(crate) fn target(request: &Request, caller: TaskId) -> TaskId
    requires { target request.now.service request.now caller.0 < 64 }
    ensures { result.0 ≡ target request.now.service request.now caller.0 }
{
    TaskId(target_number(request, caller) as u8)
}

// Whether a task that waits so waits for what such a call is about.
fn waits_for_it(service: Service, wait: Waiting) -> bool
    ensures { result ≡ waits_for_it service wait }
{
    match service {
        Service::TaskQPost | Service::TaskQPend | Service::TaskQPendAbort => {
            matches!(wait, Waiting::TaskQ)
        }
        _ => matches!(wait, Waiting::TaskSem),
    }
}

impl Records {
    /// The one that waits for the own semaphore or queue that a call is about: the task whose it is, where it waits for it.
    pub fn own_waiter(&self, request: &Request, caller: TaskId) -> Option<TaskId>
        requires { is_task_call request.now.service ≡ true }
        ensures { result ≡ first_waiter (waiters request.now.service (target request.now.service request.now caller.0) self.now.state) }
    {
        let tasks = &self.tasks;
        let number = target_number(request, caller);
        if number >= TASKS {
            return None;
        }
        let task = TaskId(number as u8);
        waits_for_it(request.service, tasks.get(task).wait).then_some(task)
    }
}
