// Ticks: `OSTimeTick`, and the tick task's unit.

ghost use Rattle.std.specs.Prelude.{◌≡◌, ◌<◌, ◌≤◌, ◌+◌, ◌-◌, ◌%◌, ◌^◌, ◌==◌, All, length, true};
ghost use Rattle.kern_base.specs.declared.outcomes.Outcome.TheVariants.{Quiet};
ghost use Rattle.kern_base.specs.declared.outcomes.UnitEnd.TheVariants.{Tick};
ghost use Rattle.kern_model.specs.State.{task_at, update_task, with_task};
ghost use Rattle.kern_model.specs.RoundRobin.{full_quantum};
ghost use Rattle.kern_model.specs.Time.{signalled, signals_tick, signals_timer, timed_out};
ghost use Rattle.round_robin.specs.Turns.{quantum_of, turn_in, turned_tasks};
ghost use Rattle.kernel_records.specs.Concluding.{AreSingle, given};
ghost use Rattle.kernel_records.specs.Served.{IsSingle};
ghost use Rattle.kernel_records.specs.Ticks.{HasRoom, IsInside, answer_at_tick, is_signal, is_tick, records_after_tick, records_ticked, resting_task, signals_next, spent_task, timed_out_all};

use crate::records::Records;
use decisions::{failure, success};
use kern_base::{Answer, OsErr, Outcome, Service, TaskId, UnitEnd, Waiting};
use round_robin::{Front, Turn, decide_tick};
use tcb_pool::Tcbs;

// The tick task.
const TICK: TaskId = TaskId(60);

// The timer task.
const TIMER: TaskId = TaskId(61);

impl Records {
    /// Whether one more signal of the tick task and of the timer task can be counted.
    pub fn has_room(&self) -> bool
        ensures { result ≡ true → HasRoom self.now.state }
    {
        self.tick_signals < u64::MAX && self.timer_signals < u64::MAX
    }

    /// Whether the next `OSTimeTick` signals the timer task.
    pub fn signals_next(&self) -> bool
        ensures { result ≡ signals_next self.now.state }
    {
        u64::from(self.tick_calls) + 1 >= u64::from(self.settings.tmr_div)
    }

    /// What round robin comes to at this front of its ready list.
    pub fn decide_turn(&self, front: &Front) -> Turn
        ensures { result ≡ turn_in front.now self.now.state }
    {
        decide_tick(
            front,
            self.quantum_of(front.first),
            self.lock > 0,
            self.settings.round_robin,
        )
    }

    // The quantum of a task; 0 where there is none.
    fn quantum_of(&self, first: Option<TaskId>) -> u32
        ensures { result ≡ quantum_of first self.now.state }
    {
        let Some(task) = first else {
            return 0;
        };
        if task.0 < 64 {
            self.tasks.get(task).quantum
        } else {
            0
        }
    }

    /// The last micro-step of `OSTimeTick`: the tick task gets a signal, the tasks of the interrupted priority take this turn, and
    /// at every so many'th call the timer task gets a signal.
    pub fn tick(&mut self, turn: &Turn)
        requires room { HasRoom self.old.state }
        requires inside { IsInside turn.now }
        ensures { self.new ≡ record self.old { state = records_ticked turn.now self.old.state } }
    {
        self.signal_tick();
        self.take_turn(turn);
        self.signal_timer();
    }

    // The tick task gets a signal.
    fn signal_tick(&mut self)
        requires room { self.old.state.tick_signals < 2 ^ 64 - 1 }
        ensures { self.new ≡ record self.old { state = (signals_tick 0 self.old.state).kernel } }
    {
        self.tick_signals += 1;
        self.ready_again(TICK);
    }

    // The quantum of the first task falls, and where it goes to the tail, the second one has its full quantum.
    fn take_turn(&mut self, turn: &Turn)
        requires inside { IsInside turn.now }
        ensures { self.new ≡ record self.old { state = turned_tasks turn.now self.old.state } }
    {
        match turn {
            Turn::Stays => {}
            Turn::Spends(task) => self.spend(*task),
            Turn::Rotates(task, next) => {
                self.spend(*task);
                self.refill(*next);
            }
        }
    }

    // At every so many'th call the timer task gets a signal.
    fn signal_timer(&mut self)
        requires room { self.old.state.timer_signals < 2 ^ 64 - 1 }
        ensures { self.new ≡ record self.old { state = (signals_timer 0 self.old.state).kernel } }
    {
        if !self.signals_next() {
            self.tick_calls += 1;
            return;
        }
        self.tick_calls = 0;
        self.timer_signals += 1;
        self.ready_again(TIMER);
    }

    // An internal task that waits for a signal is ready again.
    fn ready_again(&mut self, task: TaskId)
        requires task { task.0 < 64 }
        ensures { self.new ≡ record self.old { state = (signalled (task_at self.old.state task.0).waiting task.0 0 self.old.state).kernel } }
    {
        if !is_signal(self.tasks.get(task).wait) {
            return;
        }
        set_wait(&mut self.tasks, task, Waiting::No);
    }

    // The quantum of a task falls by one unless it is 0.
    fn spend(&mut self, task: TaskId)
        requires task { task.0 < 64 }
        ensures { self.new ≡ record self.old { state = with_task self.old.state task.0 spent_task } }
    {
        spend(&mut self.tasks, task);
    }

    // A task has its full quantum again.
    pub(crate) fn refill(&mut self, task: TaskId)
        requires task { task.0 < 64 }
        ensures { self.new ≡ record self.old { state = with_task self.old.state task.0 full_quantum } }
    {
        refill(&mut self.tasks, task);
    }

    /// Whether the tick task takes its last signal.
    pub fn takes_last_signal(&self) -> bool
        ensures { result ≡ (self.now.state.tick_signals == 1) }
    {
        self.tick_signals == 1
    }

    /// The last micro-step of the tick task's unit: the tick is counted, and these tasks wait no more, in this order. After its
    /// last signal the tick task waits again.
    pub fn end_tick_unit(&mut self, woken: &[u8]) -> Outcome
        requires woken { All (λ x. x < 64) woken.now }
        requires few { length woken.now ≤ 64 }
        requires single { AreSingle self.old.state }
        ensures records { self.new ≡ record self.old { state = records_after_tick woken.now self.old.state } }
        ensures outcome { result ≡ Quiet (Tick ((self.old.state.ticks + 1) % 2 ^ 32)) }
    {
        let last = self.tick_signals == 1;
        self.tick_signals = self.tick_signals.saturating_sub(1);
        self.ticks.tick();
        let tick = self.ticks.now();
        self.end_waits(woken);
        if last {
            self.rest(TICK);
        }
        Outcome::Quiet(UnitEnd::Tick(tick))
    }

    // The waits of these tasks end at their tick, in this order.
    fn end_waits(&mut self, woken: &[u8])
        requires woken { All (λ x. x < 64) woken.now }
        requires single { AreSingle self.old.state }
        ensures { self.new ≡ record self.old { state = timed_out_all woken.now self.old.state } }
    {
        for task in woken {
            self.end_wait(TaskId(*task));
        }
    }

    // The wait of a task ends at its tick.
    fn end_wait(&mut self, task: TaskId)
        requires task { task.0 < 64 }
        requires single { IsSingle (task_at self.old.state task.0).waiting }
        ensures { self.new ≡ record self.old { state = given task.0 (λ t. timed_out t.waiting t) self.old.state } }
    {
        let answer = answer_at_tick(self.tasks.get(task).wait);
        self.give(task, answer);
    }

    // An internal task waits for its next signal.
    pub(crate) fn rest(&mut self, task: TaskId)
        requires task { task.0 < 64 }
        ensures { self.new ≡ record self.old { state = with_task self.old.state task.0 resting_task } }
    {
        set_wait(&mut self.tasks, task, Waiting::Signal);
    }
}

// Whether a task that waits so waits for its next signal.
fn is_signal(wait: Waiting) -> bool
    ensures { result ≡ is_signal wait }
{
    matches!(wait, Waiting::Signal)
}

// The answer of a wait that ends at its tick: a delay ends without an error.
fn answer_at_tick(wait: Waiting) -> Answer
    ensures { result ≡ answer_at_tick wait }
{
    match wait {
        Waiting::Delay => success(0),
        _ => failure(OsErr::Timeout),
    }
}

// The task waits so from now on.
fn set_wait(tasks: &mut Tcbs, task: TaskId, wait: Waiting)
    requires task { task.0 < 64 }
    ensures tasks { tasks.new.tasks ≡ update_task tasks.old.tasks task.0 (λ t. record t { waiting = wait }) }
    ensures registers { tasks.new.registers ≡ tasks.old.registers }
{
    let mut tcb = *tasks.get(task);
    tcb.wait = wait;
    tasks.set(task, tcb);
}

fn spend(tasks: &mut Tcbs, task: TaskId)
    requires task { task.0 < 64 }
    ensures tasks { tasks.new.tasks ≡ update_task tasks.old.tasks task.0 spent_task }
    ensures registers { tasks.new.registers ≡ tasks.old.registers }
{
    let mut tcb = *tasks.get(task);
    tcb.quantum = tcb.quantum.saturating_sub(1);
    tasks.set(task, tcb);
}

fn refill(tasks: &mut Tcbs, task: TaskId)
    requires task { task.0 < 64 }
    ensures tasks { tasks.new.tasks ≡ update_task tasks.old.tasks task.0 full_quantum }
    ensures registers { tasks.new.registers ≡ tasks.old.registers }
{
    let mut tcb = *tasks.get(task);
    tcb.quantum = tcb.full;
    tasks.set(task, tcb);
}

/// Whether a service is `OSTimeTick`: it is not decided, since it always succeeds.
pub fn is_tick(service: Service) -> bool
    ensures { result ≡ is_tick service }
{
    matches!(service, Service::TimeTick)
}
