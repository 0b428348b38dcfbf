// Changes of one task's record.

ghost use Rattle.std.specs.Prelude.{◌≡◌, ◌<◌, ◌≤◌, ◌∷◌, [], All, slice_index, slice_index_or, true};
ghost use Rattle.kern_base.specs.declared.outcomes.Waiting.TheVariants.{Obj};
ghost use Rattle.kern_model.specs.State.{nesting_limit, no_task, update_task};
ghost use Rattle.kern_model.specs.Effect.{answered_task, waiting_task, plain_result, result_of};
ghost use Rattle.kern_model.specs.Tasks.{suspended_task};
ghost use Rattle.decisions.specs.Decided.{wait_objects, wait_of};
ghost use Rattle.kernel_records.specs.Served.{IsSingle, is_served_wait};
ghost use Rattle.kernel_records.specs.Suspension.{resumed_task};
ghost use Rattle.kernel_records.specs.TaskChanges.{cleared_task, stopped_task};
ghost use Rattle.tcb_pool.specs.TaskView.{task_of};

use decisions::success;
use kern_base::{Answer, Finished, Request, Service, TaskId, Waiting};
use tcb_pool::{Tcb, Tcbs};
use tick_timers::Ticks;

// The result of a call other than OSPendMulti.
fn plain_result(service: Service, answer: Answer) -> Finished
    ensures { result ≡ plain_result service answer }
{
    Finished {
        service,
        answer,
        ready: 0,
        msgs: [(0, 0); 8],
        table: 0,
        n_ids: 0,
    }
}

// The result with this answer of the call in which a task waits, which does not wait for several objects.
fn result_of(tcb: &Tcb, answer: Answer) -> Finished
    requires { IsSingle tcb.now.wait }
    ensures { result ≡ result_of answer (task_of tcb.now) }
{
    let service = match tcb.wait {
        Waiting::Obj(service) => service,
        Waiting::Delay => Service::TimeDly,
        Waiting::TaskSem => Service::TaskSemPend,
        Waiting::TaskQ => Service::TaskQPend,
        _ => Service::Unknown(0),
    };
    plain_result(service, answer)
}

// The task waits no more, and the result of its call waits for it.
pub(crate) fn answer_task(tasks: &mut Tcbs, task: TaskId, answer: Answer)
    requires task { task.0 < 64 }
    requires single { IsSingle (slice_index_or tasks.old.tasks task.0 no_task).waiting }
    ensures tasks { tasks.new.tasks ≡ update_task tasks.old.tasks task.0 (answered_task (result_of answer (slice_index_or tasks.old.tasks task.0 no_task))) }
    ensures registers { tasks.new.registers ≡ tasks.old.registers }
{
    let mut tcb = *tasks.get(task);
    tcb.result = Some(result_of(&tcb, answer));
    tcb.wait = Waiting::No;
    tasks.set(task, tcb);
}

// The caller waits so, at this tick. Gives its timeout.
pub(crate) fn wait_for(tasks: &mut Tcbs, task: TaskId, request: &Request, ticks: &Ticks) -> u32
    requires task { task.0 < 64 }
    requires service { is_served_wait request.now.service ≡ true }
    requires objects { All (λ o. o < 64) (wait_objects request.now.service request.now) }
    ensures tasks { tasks.new.tasks ≡ update_task tasks.old.tasks task.0 (waiting_task (wait_of request.now.service request.now ticks.now.ticks)) }
    ensures registers { tasks.new.registers ≡ tasks.old.registers }
    ensures timeout { result ≡ (wait_of request.now.service request.now ticks.now.ticks).timeout }
{
    let mut tcb = *tasks.get(task);
    tcb.mask = 0;
    tcb.opt = 0;
    tcb.table = 0;
    let timeout = begin_wait(&mut tcb, request, ticks);
    tasks.set(task, tcb);
    timeout
}

// Writes what a task waits for that waits in this call, at this tick. Gives its timeout.
fn begin_wait(tcb: &mut Tcb, request: &Request, ticks: &Ticks) -> u32
    requires service { is_served_wait request.now.service ≡ true }
    requires objects { All (λ o. o < 64) (wait_objects request.now.service request.now) }
    requires fresh { (tcb.old.mask ≡ 0) × (tcb.old.opt ≡ 0) × (tcb.old.table ≡ 0) }
    ensures task { task_of tcb.new ≡ waiting_task (wait_of request.now.service request.now ticks.now.ticks) (task_of tcb.old) }
    ensures registers { tcb.new.regs ≡ tcb.old.regs }
    ensures timeout { result ≡ (wait_of request.now.service request.now ticks.now.ticks).timeout }
{
    match request.service {
        Service::TaskSemPend => {
            tcb.wait = Waiting::TaskSem;
            tcb.n_ids = 0;
            request.args[0]
        }
        Service::TaskQPend => {
            tcb.wait = Waiting::TaskQ;
            tcb.n_ids = 0;
            request.args[0]
        }
        Service::TimeDly => {
            tcb.wait = Waiting::Delay;
            tcb.n_ids = 0;
            ticks.delay(request)
        }
        Service::FlagPend => {
            wait_on_object(tcb, request);
            tcb.mask = request.args[1];
            tcb.opt = request.args[3];
            request.args[2]
        }
        _ => {
            wait_on_object(tcb, request);
            request.args[1]
        }
    }
}

// The task waits in this call for the object that it names.
fn wait_on_object(tcb: &mut Tcb, request: &Request)
    requires object { slice_index request.now.args 0 < 64 }
    ensures task { task_of tcb.new ≡ record (task_of tcb.old) { waiting = Obj request.now.service; objects = slice_index request.now.args 0 ∷ [] } }
    ensures registers { tcb.new.regs ≡ tcb.old.regs }
{
    tcb.wait = Waiting::Obj(request.service);
    tcb.ids = [request.args[0] as u8, 0, 0, 0, 0, 0, 0, 0];
    tcb.n_ids = 1;
}

// The task is suspended once more. Where it suspends itself, the answer waits until it is resumed.
pub(crate) fn suspend_task(tasks: &mut Tcbs, task: TaskId, own: bool)
    requires task { task.0 < 64 }
    requires few { (slice_index_or tasks.old.tasks task.0 no_task).suspended ≤ nesting_limit }
    ensures tasks { tasks.new.tasks ≡ update_task tasks.old.tasks task.0 (suspended_task own) }
    ensures registers { tasks.new.registers ≡ tasks.old.registers }
{
    let mut tcb = *tasks.get(task);
    let result = if own {
        Some(plain_result(Service::TaskSuspend, success(0)))
    } else {
        tcb.result
    };
    tcb.suspended += 1;
    tcb.result = result;
    tasks.set(task, tcb);
}

// The task is suspended once less.
pub(crate) fn resume_task(tasks: &mut Tcbs, task: TaskId)
    requires task { task.0 < 64 }
    ensures tasks { tasks.new.tasks ≡ update_task tasks.old.tasks task.0 resumed_task }
    ensures registers { tasks.new.registers ≡ tasks.old.registers }
{
    let mut tcb = *tasks.get(task);
    tcb.suspended = tcb.suspended.saturating_sub(1);
    tasks.set(task, tcb);
}

// The result that waits for the task is gone.
pub(crate) fn clear_result(tasks: &mut Tcbs, task: TaskId)
    requires { task.0 < 64 }
    ensures tasks { tasks.new.tasks ≡ update_task tasks.old.tasks task.0 cleared_task }
    ensures registers { tasks.new.registers ≡ tasks.old.registers }
{
    let mut tcb = *tasks.get(task);
    tcb.result = None;
    tasks.set(task, tcb);
}

// The task is not alive any more.
pub(crate) fn stop_task(tasks: &mut Tcbs, task: TaskId)
    requires { task.0 < 64 }
    ensures tasks { tasks.new.tasks ≡ update_task tasks.old.tasks task.0 stopped_task }
    ensures registers { tasks.new.registers ≡ tasks.old.registers }
{
    let mut tcb = *tasks.get(task);
    tcb.alive = false;
    tasks.set(task, tcb);
}
