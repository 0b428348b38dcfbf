// What is planned of a call when it begins.

ghost use Rattle.std.specs.Prelude.{◌≡◌, ◌<◌, ◌∷◌, ℕ, List, [], All, MatchOption, true, false, slice_index};
ghost use Rattle.kern_base.specs.declared.services.Service.TheVariants.{RoundRobinYield};
ghost use Rattle.kern_model.specs.State.{list_at};
ghost use Rattle.kern_model.specs.Checks.{named_task};
ghost use Rattle.micro_steps.specs.Halfway.{tasks_in};
ghost use Rattle.decisions.specs.Around.{first_waiter};
ghost use Rattle.decisions.specs.Decided.{wait_objects};
ghost use Rattle.task_objects.specs.Rows.{is_task_call};
ghost use Rattle.kernel_records.specs.Concluding.{objects_waited, woken_of};
ghost use Rattle.kernel_records.specs.Deciding.{IsServedDecision};
ghost use Rattle.kernel_records.specs.SchedulerCalls.{is_scheduler_call};
ghost use Rattle.kernel_records.specs.Served.{is_served_wait};
ghost use Rattle.kernel_records.specs.Suspension.{moves_task};
ghost use Rattle.kernel_calls.specs.Moving.{known_links, moved_links};
ghost use Rattle.tcb_pool.specs.TaskView.{task_of};
ghost use Rattle.kernel_calls.specs.Stepping.{planned_bits};

use arrayvec::ArrayVec;
use call_checks::named_task;
use kern_base::{Around, Decision, ObjId, Prio, Request, Service, TaskId, Waiting, Who};
use kernel_records::{Records, is_scheduler_call, is_task_call, moves_task};
use link_plans::Plan;
use links::Links;
use micro_steps::Link;
use pend_lists::PendLists;
use tcb_pool::{Tcb, is_ready};

// There is room for the lists of so many objects.
const OBJECTS: u32 = 64;

// A plan without a link.
pub(crate) fn no_plan() -> Plan {
    Plan {
        decision: Decision::Block,
        caller: TaskId(0),
        compared: Prio(0),
        objects: ArrayVec::new(),
        woken: ArrayVec::new(),
        known: ArrayVec::new(),
        last: None,
        bits: 0,
        task: 0,
        made: 0,
        ended: true,
    }
}

// The first of those that wait for the object of this number. None where there is none.
pub(crate) fn first_waiter<L: Links>(pend: &PendLists<L>, number: u32) -> Option<TaskId>
    ensures { result ≡ first_waiter (list_at (tasks_in pend.now.forward) number) }
{
    if number >= OBJECTS {
        pend.consistent();
        return None;
    }
    pend.first(ObjId(number as u8))
}

// The bits that a post of event flags leaves in its group; 0 of any other decision.
pub(crate) fn planned_bits(records: &Records, request: &Request, decision: Decision) -> u32
    requires { IsServedDecision decision request.now.service }
    ensures { (x : ℕ) → result ≡ planned_bits decision request.now x records.now.state }
{
    match decision {
        Decision::Wake(Who::Matching) => records.bits_left(request),
        _ => 0,
    }
}

// Plans what was decided of a call, with this around what it is about.
pub(crate) fn plan_call<L: Links>(
    plan: &mut Plan,
    pend: &PendLists<L>,
    seen: &Around,
    request: &Request,
    compared: Prio,
    decision: Decision,
)
    requires served { IsServedDecision decision request.now.service }
    requires objects { All (λ o. o < 64) (objects_waited decision request.now) }
    ensures decision { plan.new.decision ≡ decision }
    ensures caller { plan.new.caller ≡ seen.now.caller }
    ensures compared { plan.new.compared ≡ compared }
    ensures woken { (xs : List ℕ) → seen.now.first ≡ first_waiter xs
        → (is_scheduler_call request.now.service ≡ false → is_task_call request.now.service ≡ false → xs ≡ list_at (tasks_in pend.now.forward) (slice_index request.now.args 0))
        → plan.new.woken.items ≡ woken_of decision xs }
    ensures objects { plan.new.objects.items ≡ objects_waited decision request.now }
    ensures known { plan.new.known.items ≡ [] }
    ensures last { plan.new.last ≡ None }
    ensures fresh { (plan.new.bits ≡ 0) × (plan.new.task ≡ 0) × (plan.new.made ≡ 0) × (plan.new.ended ≡ false) }
{
    plan.decision = decision;
    plan.caller = seen.caller;
    plan.compared = compared;
    plan.bits = 0;
    plan.task = 0;
    plan.made = 0;
    plan.ended = false;
    plan.objects.clear();
    plan.woken.clear();
    plan.known.clear();
    plan.last = None;
    match decision {
        Decision::Done(_) => {}
        Decision::Block => plan_wait(&mut plan.objects, request),
        Decision::Wake(Who::First) => {
            if let Some(task) = seen.first {
                plan.woken.push(task.0);
            }
        }
        Decision::Wake(Who::All | Who::Matching) => all_waiters(
            &mut plan.woken,
            pend,
            request.args[0],
        ),
    }
}

// The objects for which the caller waits: a delay, or a wait for its own semaphore or queue, is in the list of none.
fn plan_wait(objects: &mut ArrayVec<u8, 8>, request: &Request)
    requires service { is_served_wait request.now.service ≡ true }
    requires objects { All (λ o. o < 64) (wait_objects request.now.service request.now) }
    requires empty { objects.old.items ≡ [] }
    ensures { objects.new.items ≡ wait_objects request.now.service request.now }
{
    if !is_scheduler_call(request.service) && !is_task_call(request.service) {
        objects.push(request.args[0] as u8);
    }
}

// All that wait for the object of this number.
fn all_waiters<L: Links>(woken: &mut ArrayVec<u8, 64>, pend: &PendLists<L>, number: u32)
    requires empty { woken.old.items ≡ [] }
    ensures { woken.new.items ≡ list_at (tasks_in pend.now.forward) number }
{
    if number >= OBJECTS {
        pend.consistent();
        return;
    }
    pend.forward(ObjId(number as u8), woken);
}

// Plans the links of a call that suspends a task, resumes one or yields. Of any other call none is known.
pub(crate) fn plan_move(
    known: &mut ArrayVec<Link, 4>,
    records: &Records,
    request: &Request,
    caller: TaskId,
    compared: Prio,
    decision: &Decision,
)
    requires empty { known.old.items ≡ [] }
    requires caller { caller.0 < 64 }
    requires inside { (request.now.service ≡ RoundRobinYield → ⊥) → moves_task request.now.service decision.now ≡ true → named_task request.now caller.0 < 64 }
    ensures { known.new.items ≡ known_links decision.now request.now caller.0 compared.0 records.now.state }
{
    if !moves_task(request.service, decision) {
        return;
    }
    if matches!(request.service, Service::RoundRobinYield) {
        let prio = records.tcb(caller).prio;
        known.push(Link::Unready(caller, prio));
        known.push(Link::Ready(caller, prio, true));
        return;
    }
    let task = TaskId(named_task(request.args[0], caller) as u8);
    if let Some(link) = move_link(records.tcb(task), request.service, task, compared) {
        known.push(link);
    }
}

// The link of a task that is suspended or resumed, where it leaves or joins a ready list.
fn move_link(tcb: &Tcb, service: Service, task: TaskId, compared: Prio) -> Option<Link>
    ensures { MatchOption result (moved_links service task.0 compared.0 (task_of tcb.now) ≡ []) (λ link. moved_links service task.0 compared.0 (task_of tcb.now) ≡ link ∷ []) }
{
    match service {
        Service::TaskSuspend => is_ready(tcb).then_some(Link::Unready(task, tcb.prio)),
        Service::TaskResume if matches!(tcb.wait, Waiting::No) && tcb.suspended <= 1 => {
            Some(Link::Ready(task, tcb.prio, tcb.prio == compared))
        }
        _ => None,
    }
}
