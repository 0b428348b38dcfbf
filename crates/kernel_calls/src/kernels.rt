// The kernel.

ghost use Rattle.std.specs.Prelude.{◌≡◌, ◌<◌, true, false, Some, None, List, length, map, slice_set, slice_index_or, is_none, MatchOption};
ghost use Rattle.kern_model.specs.State.{Task, task_at, object_at, pick, is_ready, kinds_of};
ghost use Rattle.micro_steps.specs.Halfway.{seen};
ghost use Rattle.kern_model.specs.Valid.{IsLinked, has_result};
ghost use Rattle.kern_model.specs.Finish.{finished};
ghost use Rattle.kern_model.specs.Stop.{callback_ended, stopped};
ghost use Rattle.machine_model.specs.Steps.{after_fire, some_readied};
ghost use Rattle.kernel_records.specs.Ticks.{HasRoom};
ghost use Rattle.machine_model.specs.Answers.{size_of, with_answer};
ghost use Rattle.tcb_pool.specs.TaskView.{task_of, without_own};
ghost use Rattle.rv32_exec.specs.Exec.{exec};
ghost use Rattle.rv32_exec.specs.Registers.{no_registers};
ghost use Rattle.kernel_calls.specs.KernelRecord.{halves_in, with_state};

use crate::making::make;
use crate::seen::Seen;
use crate::work::Work;
use app_image::Config;
use kern_base::{Answer, Finished, Kinds, ObjId, Prio, Service, TaskId};
use kernel_records::Records;
use link_plans::Plan;
use links::Links;
use micro_steps::{Chains, Link, Steps};
use rv32_exec::{Program, Ram, Stepped};
use std::marker::Model;
use tcb_pool::Tcb;

// The idle task.
const IDLE: TaskId = TaskId(62);

/// The kernel over links: the records of its tasks and objects, the lists of ready tasks and of waiters, and the whole step in
/// hand. All its memory is taken by `new`. Contracts see its state as the step in hand found it, and that step.
#[derive(Drop)]
pub struct Kernel<L: Links> {
    pub(crate) records: Records,
    pub(crate) steps: Steps<L>,
    pub(crate) plan: Plan,
    pub(crate) seen: Seen,
    pub(crate) work: Work,
    pub(crate) busy: bool,
}

impl<L: Links> Model for Kernel<L> {
    ghost use Rattle.kernel_calls.specs.KernelRecord.{KernelRecord};

    ghost Value = { KernelRecord };

    ghost use Rattle.kernel_calls.specs.KernelView.{kernel_of, IsSound};

    ghost view = { λ a. kernel_of a.records a.steps a.work a.busy };

    ghost invariant = { λ a. IsSound a.records a.steps a.plan a.seen a.work a.busy };
}

impl<L: Links> Kernel<L> {
    /// The whole step in hand, where there is one.
    pub fn in_hand(&self) -> Option<&Work>
        ensures { MatchOption result (self.now.hand ≡ None) (λ work. self.now.hand ≡ Some work.now) }
    {
        if self.busy { Some(&self.work) } else { None }
    }

    /// Whether no whole step is in hand.
    pub fn is_free(&self) -> bool
        ensures { result ≡ is_none self.now.hand }
    {
        !self.busy
    }

    /// The task that the scheduler picks, where nothing is in hand: the first ready task of the highest priority.
    pub fn pick(&self) -> TaskId
        requires { self.now.hand ≡ None }
        ensures value { result.0 ≡ pick self.now.state }
        ensures valid { IsLinked self.now.state }
    {
        let ready = self.steps.chains().ready();
        match ready.highest() {
            Some(prio) => ready.head(prio).unwrap_or(IDLE),
            None => IDLE,
        }
    }

    /// What the static checks of a call look at: the kinds of objects, and how many application tasks there are.
    pub fn kinds(&self) -> &Kinds
        ensures { result.now ≡ kinds_of self.now.state }
    {
        self.records.kinds()
    }

    /// How often the scheduler is locked, 0 to 250.
    pub fn lock(&self) -> u8
        ensures value { result ≡ self.now.state.lock }
        ensures valid { IsLinked self.now.state }
    {
        self.records.lock()
    }

    /// Which tasks are ready, by number.
    pub fn ready_tasks(&self) -> [bool; 64]
        ensures value { result ≡ map is_ready self.now.state.tasks }
        ensures valid { IsLinked self.now.state }
    {
        self.records.ready_tasks()
    }

    /// Whether a task of this priority is ready that was not: `before` tells which were.
    pub fn has_readied(&self, before: &[bool; 64], prio: Prio) -> bool
        ensures value { (tasks : List Task) → before.now ≡ map is_ready tasks → result ≡ some_readied prio.0 tasks self.now.state.tasks }
        ensures valid { IsLinked self.now.state }
    {
        self.records.has_readied(before, prio)
    }

    /// The record of a task, which has no part in its own semaphore and queue.
    pub fn tcb(&self, task: TaskId) -> &Tcb
        requires { task.0 < 64 }
        ensures task { task_of result.now ≡ without_own (task_at self.now.state task.0) }
        ensures registers { result.now.regs ≡ slice_index_or self.now.registers task.0 no_registers }
        ensures valid { IsLinked self.now.state }
    {
        self.records.tcb(task)
    }

    /// The chains of all lists, which in the middle of a whole step are half made.
    pub fn chains(&self) -> &Chains<L>
        ensures { seen (length self.now.state.objects) result.now.halves ≡ halves_in self.now }
    {
        self.steps.chains()
    }

    /// Runs one instruction on the registers of a task, where they stand. A trap changes nothing.
    #[inline(always)]
    pub fn run_task(&mut self, task: TaskId, program: &Program, ram: &mut Ram) -> Stepped
        requires { task.0 < 64 }
        ensures registers { self.new ≡ record self.old { registers = slice_set self.old.registers task.0 (exec program.now (slice_index_or self.old.registers task.0 no_registers) ram.old).registers } }
        ensures memory { ram.new ≡ (exec program.now (slice_index_or self.old.registers task.0 no_registers) ram.old).memory }
        ensures did { result ≡ (exec program.now (slice_index_or self.old.registers task.0 no_registers) ram.old).did }
    {
        self.records.run_task(task, program, ram)
    }

    /// Writes the answer of a call into the registers of a task, where they stand, and changes nothing else. Gives the size of a
    /// message, of a call that takes one.
    pub fn answer(&mut self, task: TaskId, service: Service, answer: Answer) -> Option<u32>
        requires { task.0 < 64 }
        ensures size { result ≡ size_of service answer }
        ensures registers { self.new ≡ record self.old { registers = slice_set self.old.registers task.0 (with_answer service answer (slice_index_or self.old.registers task.0 no_registers)) } }
    {
        self.records.answer(task, service, answer)
    }

    /// What the first action of a task after its wait does: gives the result that waits for it, which is then gone.
    pub fn finish(&mut self, task: TaskId) -> Finished
        requires task { task.0 < 64 }
        requires free { self.old.hand ≡ None }
        requires waits { has_result (task_at self.old.state task.0).answered ≡ true }
        ensures result { (task_at self.old.state task.0).answered ≡ Some result }
        ensures no_table { result.n_ids ≡ 0 }
        ensures kernel { self.new ≡ with_state self.old (finished task.0 self.old.state) }
        ensures valid { IsLinked self.new.state }
    {
        self.records.take_result(task)
    }

    /// A trap of a task, which stops for good. The scheduler is then not locked.
    pub fn stop(&mut self, task: TaskId)
        requires application { task.0 < 60 }
        requires free { self.old.hand ≡ None }
        requires ready { is_ready (task_at self.old.state task.0) ≡ true }
        requires quiet { self.old.state.processing ≡ false }
        ensures kernel { self.new ≡ with_state self.old (stopped task.0 self.old.state) }
        ensures valid { IsLinked self.new.state }
    {
        let prio = self.records.tcb(task).prio;
        make(&mut self.steps, Link::Unready(task, prio));
        self.records.stop(task);
    }

    /// Whether a callback of a timer runs.
    pub fn in_callback(&self) -> bool
        ensures { result ≡ self.now.state.in_callback }
    {
        self.records.in_callback()
    }

    /// The callback of a timer that has fired begins, where it has one: the registers of the timer task are those of its start.
    pub fn enter_callback(&mut self, timer: ObjId, config: &Config)
        ensures { self.new ≡ record self.old { registers = after_fire config.now timer.0 (object_at self.old.state timer.0).content self.old.registers } }
    {
        self.records.enter_callback(timer, config);
    }

    /// A callback ends, by its return or by a trap: the timer task goes on under its own lock.
    pub fn end_callback(&mut self)
        requires free { self.old.hand ≡ None }
        requires runs { self.old.state.in_callback ≡ true }
        ensures kernel { self.new ≡ with_state self.old (callback_ended self.old.state) }
        ensures valid { IsLinked self.new.state }
    {
        self.records.end_callback();
    }

    /// Whether there is room to count one more signal of the tick task and of the timer task, as `OSTimeTick` does.
    pub fn has_room(&self) -> bool
        ensures { result ≡ true → HasRoom self.now.state }
    {
        self.records.has_room()
    }
}
