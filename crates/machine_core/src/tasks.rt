// What tasks do: the whole step in hand, and the acts of the current task.

ghost use Rattle.std.specs.Prelude.{◌≡◌, ◌<◌, ℕ, List, IsSome, None, slice_index_or};
ghost use Rattle.kern_model.specs.State.{task_at};
ghost use Rattle.served.specs.Served.{program_serves};
ghost use Rattle.kern_model.specs.Valid.{MayCall};
ghost use Rattle.kernel_records.specs.Ticks.{HasRoom};
ghost use Rattle.kernel_calls.specs.KernelRecord.{with_state};
ghost use Rattle.rv32_exec.specs.Registers.{no_registers};
ghost use Rattle.machine_model.specs.Settling.{settled_task};
ghost use Rattle.machine_model.specs.Acts.{acts, after_instruction, called, trapped, works_in_units};
ghost use Rattle.machine_model.specs.Rules.{rule, rule_in_hand, TaskActs};
ghost use Rattle.machine_core.specs.MethodMachine.{next_machine};
ghost use Rattle.machine_core.specs.AnswerView.{calling_kernel, ended_kernel, ended_line, request_in, HasNoTable};
ghost use Rattle.machine_core.specs.Valid.{most_task_steps, change, changed};

use crate::answers::{answer, call_line, finish, request_in};
use crate::{Machine, What};
use deferred_queue::DeferredQueue;
use kern_base::{LEAVE, Outcome, Service, TaskId};
use kernel_calls::Kernel;
use links::Links;
use rv32_exec::Stepped;

// The tick task, the timer task and the idle task.
const TICK: u8 = 60;

const TIMER: u8 = 61;

const IDLE: u8 = 62;

impl<L: Links> Machine<L> {
    // No frame stands: a micro-step of the whole step in hand, or else what else there is to do. It takes one
    // raw step.
    pub(crate) fn work(&mut self, line: &mut What)
        requires rule { rule self.old.method self.old.state ≡ rule_in_hand self.old.state.in_hand self.old.state }
        requires open_yet { self.old.state.t < most_task_steps }
        requires blank { line.old ≡ What.Quiet }
        ensures line { line.new ≡ (change self.old.method self.old.state).what }
        ensures machine { self.new ≡ next_machine self.old }
    {
        if self.kernel.is_free() {
            self.begin(line);
        } else {
            self.advance(line);
        }
        self.s += 1;
    }

    // Nothing is in hand: the take of a post begins, or else the current task acts.
    fn begin(&mut self, line: &mut What)
        requires rule { rule self.old.method self.old.state ≡ rule_in_hand self.old.state.in_hand self.old.state }
        requires free { self.old.state.in_hand ≡ None }
        requires open_yet { self.old.state.t < most_task_steps }
        requires blank { line.old ≡ What.Quiet }
        ensures line { line.new ≡ (change self.old.method self.old.state).what }
        ensures machine { self.new ≡ changed self.old }
    {
        if self.may_take() {
            self.begin_take();
        } else {
            self.act(line);
        }
    }

    // One micro-step of the whole step in hand.
    fn advance(&mut self, line: &mut What)
        requires rule { rule self.old.method self.old.state ≡ rule_in_hand self.old.state.in_hand self.old.state }
        requires some { IsSome self.old.state.in_hand }
        requires open_yet { self.old.state.t < most_task_steps }
        requires blank { line.old ≡ What.Quiet }
        ensures line { line.new ≡ (change self.old.method self.old.state).what }
        ensures machine { self.new ≡ changed self.old }
    {
        let Some(work) = self.kernel.in_hand() else {
            return;
        };
        let service = work.service();
        if work.is_unit() {
            self.advance_unit(line);
            return;
        }
        if work.is_take() {
            let args = work.args();
            let saved = work.interrupted();
            self.advance_take(service, args, saved, line);
            return;
        }
        let mut outcome = Outcome::Waits;
        if self.kernel.advance_into(&mut outcome) {
            end(&mut self.kernel, self.current, service, &outcome, line);
            self.t += 1;
            self.current = settle(&self.kernel, &self.later, self.current);
        }
    }

    // The current task acts: it reads the result that waits for it, begins a unit of an internal task's work, or runs one
    // instruction; the idle task does nothing.
    fn act(&mut self, line: &mut What)
        requires rule { rule self.old.method self.old.state ≡ TaskActs }
        requires open_yet { self.old.state.t < most_task_steps }
        requires blank { line.old ≡ What.Quiet }
        ensures line { line.new ≡ (change self.old.method self.old.state).what }
        ensures machine { self.new ≡ changed self.old }
    {
        let task = self.current;
        if self.kernel.tcb(task).result.is_some() {
            finish(&mut self.kernel, task, line);
            self.t += 1;
            return;
        }
        if task.0 == IDLE {
            self.t += 1;
            return;
        }
        if works_in_units(&self.kernel, task) {
            self.kernel.begin_unit(task);
            return;
        }
        self.instruct(task, line);
    }

    // The current task, which is an application's or the timer task in a callback, runs one instruction.
    fn instruct(&mut self, task: TaskId, line: &mut What)
        requires rule { rule self.old.method self.old.state ≡ TaskActs }
        requires current { self.old.state.current ≡ task.0 }
        requires reads { (task_at self.old.state.kernel task.0).answered ≡ None }
        requires may { MayCall task.0 self.old.state.kernel }
        requires open_yet { self.old.state.t < most_task_steps }
        requires blank { line.old ≡ What.Quiet }
        ensures line { line.new ≡ (acts program_serves task.0 None self.old.state).what }
        ensures machine { self.new ≡ record self.old { state = (acts program_serves task.0 None self.old.state).machine } }
    {
        match self.kernel.run_task(task, &self.program, &mut self.ram) {
            Stepped::Next => {
                after_instruction(&mut self.kernel, task);
                self.t += 1;
            }
            Stepped::Stored { addr, width, value } => {
                after_instruction(&mut self.kernel, task);
                self.t += 1;
                *line = What::St {
                    who: task.0,
                    addr,
                    width,
                    value,
                };
            }
            Stepped::Call => call(&mut self.kernel, task, line),
            Stepped::Trap(kind, pc) => {
                trap(&mut self.kernel, task);
                self.t += 1;
                self.current = settle(&self.kernel, &self.later, task);
                *line = What::Trap { task, kind, pc };
            }
        }
    }
}

// Whether a task has a unit of work to do: the tick task, and the timer task outside of a callback.
#[inline(always)]
fn works_in_units<L: Links>(kernel: &Kernel<L>, task: TaskId) -> bool
    ensures { result ≡ works_in_units task.0 kernel.now.state }
{
    task.0 == TICK || (task.0 == TIMER && !kernel.in_callback())
}

// A task has run an instruction: a callback of the timer task ends where it returns.
#[inline(always)]
fn after_instruction<L: Links>(kernel: &mut Kernel<L>, task: TaskId)
    requires inside { task.0 < 64 }
    requires may { MayCall task.0 kernel.old.state }
    requires free { kernel.old.hand ≡ None }
    ensures { kernel.new ≡ with_state kernel.old (after_instruction task.0 (slice_index_or kernel.old.registers task.0 no_registers).pc kernel.old.state) }
{
    if task.0 == TIMER && kernel.tcb(task).regs.pc() == LEAVE {
        kernel.end_callback();
    }
}

// A trap stops a task for good, and ends a callback of the timer task.
fn trap<L: Links>(kernel: &mut Kernel<L>, task: TaskId)
    requires may { MayCall task.0 kernel.old.state }
    requires free { kernel.old.hand ≡ None }
    ensures { kernel.new ≡ with_state kernel.old (trapped task.0 kernel.old.state) }
{
    if task.0 == TIMER {
        kernel.end_callback();
    } else {
        kernel.stop(task);
    }
}

// A task has called: the call becomes the whole step in hand.
fn call<L: Links>(kernel: &mut Kernel<L>, task: TaskId, line: &mut What)
    requires inside { task.0 < 64 }
    requires may { MayCall task.0 kernel.old.state }
    requires room { HasRoom kernel.old.state }
    requires free { kernel.old.hand ≡ None }
    ensures kernel { (memory : List ℕ) → kernel.new ≡ calling_kernel kernel.old task.0 memory }
    ensures line { (memory : List ℕ) → line.new ≡ called task.0 (request_in kernel.old task.0 memory) }
{
    let tcb = kernel.tcb(task);
    let prio = tcb.prio;
    let request = request_in(&tcb.regs);
    kernel.begin(task, &request, prio, prio);
    call_line(task, &request, line);
}

// Unless the scheduler is locked or a post waits, the task that the scheduler picks becomes the current one.
pub(crate) fn settle<L: Links>(kernel: &Kernel<L>, later: &DeferredQueue, current: TaskId) -> TaskId
    requires { kernel.now.hand ≡ None }
    ensures { result.0 ≡ settled_task kernel.now.state later.now.posts current.0 }
{
    if later.is_empty() && kernel.lock() == 0 {
        kernel.pick()
    } else {
        current
    }
}

// The last micro-step of a call: its answer goes to the caller, or the caller waits.
fn end<L: Links>(
    kernel: &mut Kernel<L>,
    task: TaskId,
    service: Service,
    outcome: &Outcome,
    line: &mut What,
)
    requires inside { task.0 < 64 }
    requires plain { HasNoTable outcome.now }
    requires blank { line.old ≡ What.Quiet }
    ensures kernel { kernel.new ≡ ended_kernel kernel.old task.0 service outcome.now }
    ensures line { line.new ≡ ended_line task.0 service outcome.now }
{
    match outcome {
        Outcome::Answered(given, _) => answer(kernel, task, service, *given, line),
        Outcome::Waits => *line = What::Wait { task, service },
        Outcome::Gone => *line = What::Gone { task },
        Outcome::Quiet(_) => {}
    }
}
