// What is planned of `OSTimeTick` and of the units of the internal tasks.

ghost use Rattle.std.specs.Prelude.{◌≡◌, ◌<◌, [], ◌∷◌, ℕ, List, MatchOption, None, false};
ghost use Rattle.kern_base.specs.declared.outcomes.Decision.TheVariants.{Done, Wake};
ghost use Rattle.kern_base.specs.declared.outcomes.Who.TheVariants.{All as Every};
ghost use Rattle.decisions.specs.Around.{first_waiter};
ghost use Rattle.kernel_records.specs.SchedulerCalls.{turn_waiters};
ghost use Rattle.kern_model.specs.Effect.{fine};
ghost use Rattle.kern_model.specs.State.{prio_of, task_at};
ghost use Rattle.links.specs.Chain.{list_at as chain_at};
ghost use Rattle.round_robin.specs.Turns.{front, front as front_of_list, turn_in};
ghost use Rattle.kernel_calls.specs.Ticking.{interrupted_list, rotation_links, signal_links, tick_links, tick_turn, unit_last, unit_woken};
ghost use Rattle.tcb_pool.specs.TaskView.{task_of};

use arrayvec::ArrayVec;
use decisions::success;
use kern_base::{Decision, Prio, TaskId, Waiting, Who};
use kernel_records::Records;
use link_plans::Plan;
use links::Links;
use micro_steps::Link;
use ready_list::ReadyList;
use round_robin::{Front, Turn, front_of};
use tcb_pool::Tcb;

// The tick task.
const TICK: TaskId = TaskId(60);

// The timer task.
const TIMER: TaskId = TaskId(61);

// There are so many priorities.
const PRIORITIES: u8 = 64;

// A plan of nothing yet, in place of another.
fn clear(plan: &mut Plan)
    ensures lists { (plan.new.objects.items ≡ []) × (plan.new.woken.items ≡ []) × (plan.new.known.items ≡ []) }
    ensures fresh { (plan.new.last ≡ None) × (plan.new.bits ≡ 0) × (plan.new.task ≡ 0) × (plan.new.made ≡ 0) × (plan.new.ended ≡ false) }
{
    plan.objects.clear();
    plan.woken.clear();
    plan.known.clear();
    plan.last = None;
    plan.bits = 0;
    plan.task = 0;
    plan.made = 0;
    plan.ended = false;
}

// The link of an internal task that gets a signal, where it waits for one.
fn signal_link(tcb: &Tcb, task: TaskId, compared: Prio) -> Option<Link>
    ensures { MatchOption result (signal_links task.0 compared.0 (task_of tcb.now) ≡ []) (λ link. signal_links task.0 compared.0 (task_of tcb.now) ≡ link ∷ []) }
{
    matches!(tcb.wait, Waiting::Signal).then_some(Link::Ready(task, tcb.prio, tcb.prio == compared))
}

// The front of the list of this priority.
fn front_at<L: Links>(ready: &ReadyList<L>, prio: Prio) -> Front
    ensures { result ≡ front (chain_at ready.now.forward prio.0) }
{
    ready.consistent();
    if prio.0 < PRIORITIES {
        return front_of(ready, prio);
    }
    Front {
        first: None,
        second: None,
    }
}

// The front of the list of the interrupted priority once the tick task has its signal, which joins it where the list is its own.
fn with_signalled(front: Front, tick: &Tcb, interrupted: Prio, compared: Prio) -> Front
    ensures { (xs : List ℕ) → front ≡ front_of_list xs → result ≡ front_of_list (interrupted_list (task_of tick.now) interrupted.0 compared.0 xs) }
{
    match tick.wait {
        Waiting::Signal if tick.prio == interrupted => front.joined(TICK, tick.prio == compared),
        _ => front,
    }
}

// The one whose turn comes once this task has yielded, by the front of its ready list: the first other one, where it is not alone.
pub(crate) fn turn_behind(front: &Front, task: TaskId) -> Option<TaskId>
    ensures { (xs : List ℕ) → front.now ≡ front_of_list xs → result ≡ first_waiter (turn_waiters task.0 xs) }
{
    match (front.first, front.second) {
        (Some(first), Some(second)) if first == task => Some(second),
        (first, Some(_)) => first,
        (_, None) => None,
    }
}

// Plans `OSTimeTick`: the tick task gets a signal, the tasks of the interrupted priority take turns, and at its time the timer task
// gets a signal. Gives the turn.
pub(crate) fn plan_tick<L: Links>(
    plan: &mut Plan,
    records: &Records,
    ready: &ReadyList<L>,
    interrupted: Prio,
    compared: Prio,
) -> Turn
    ensures decision { plan.new.decision ≡ Done (fine 0) }
    ensures caller { plan.new.caller.0 ≡ 60 }
    ensures empty { (plan.new.objects.items ≡ []) × (plan.new.woken.items ≡ []) }
    ensures known { plan.new.known.items ≡ tick_links interrupted.0 compared.0 result records.now.state }
    ensures turn { result ≡ turn_in (front (interrupted_list (task_at records.now.state 60) interrupted.0 compared.0 (chain_at ready.now.forward interrupted.0))) records.now.state }
    ensures fresh { (plan.new.last ≡ None) × (plan.new.task ≡ 0) × (plan.new.made ≡ 0) × (plan.new.ended ≡ false) }
{
    clear(plan);
    plan.decision = Decision::Done(success(0));
    plan.caller = TICK;
    plan.compared = compared;
    let tick = records.tcb(TICK);
    if let Some(link) = signal_link(tick, TICK, compared) {
        plan.known.push(link);
    }
    let front = with_signalled(front_at(ready, interrupted), tick, interrupted, compared);
    let turn = records.decide_turn(&front);
    if let Turn::Rotates(first, _) = turn {
        plan.known.push(Link::Unready(first, interrupted));
        plan.known.push(Link::Ready(first, interrupted, true));
    }
    if records.signals_next() {
        if let Some(link) = signal_link(records.tcb(TIMER), TIMER, compared) {
            plan.known.push(link);
        }
    }
    turn
}

// Plans a unit of the tick task or the timer task: the tick task wakes those whose match is the next tick; where its work is done, the
// task waits for its next signal.
pub(crate) fn plan_unit(plan: &mut Plan, records: &Records, task: TaskId)
    requires { task.0 < 64 }
    ensures decision { plan.new.decision ≡ Wake Every }
    ensures caller { plan.new.caller ≡ task }
    ensures compared { plan.new.compared.0 ≡ prio_of records.now.state 60 }
    ensures empty { plan.new.objects.items ≡ [] }
    ensures woken { plan.new.woken.items ≡ unit_woken task.0 records.now.state }
    ensures last { plan.new.last ≡ unit_last task.0 records.now.state }
    ensures fresh { (plan.new.task ≡ 0) × (plan.new.made ≡ 0) × (plan.new.ended ≡ false) }
{
    clear(plan);
    plan.decision = Decision::Wake(Who::All);
    plan.caller = task;
    plan.compared = records.tcb(TICK).prio;
    let rests = if task == TICK {
        records.due_tasks(&mut plan.woken);
        records.takes_last_signal()
    } else {
        records.timer_rests()
    };
    if rests {
        plan.last = Some(Link::Unready(task, records.tcb(task).prio));
    }
}
