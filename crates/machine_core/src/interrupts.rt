// Interrupts enter, and frames of interrupt code run and leave.

ghost use Rattle.std.specs.Prelude.{◌≡◌, ◌<◌, ◌-◌, ◌^◌, ◌∷◌, drop, false, Some, option_map, IsSomeAnd, true, None};
ghost use Rattle.machine_model.specs.Frames.{entered, level_of, none_stands};
ghost use Rattle.machine_model.specs.Due.{is_step};
ghost use Rattle.machine_model.specs.Marks.{reads_result};
ghost use Rattle.machine_model.specs.Rules.{rule, FrameRuns};
ghost use Rattle.machine_model.specs.declared.events.What.TheVariants.{Irq};
ghost use Rattle.kern_base.specs.declared.kinds.Method.TheVariants.{Direct};
ghost use Rattle.served.specs.Served.{program_serves};
ghost use Rattle.isr_nesting.specs.Nest.{waiting_at, without_number};
ghost use Rattle.machine_model.specs.Machine.{Machine as State};
ghost use Rattle.kernel_records.specs.Ticks.{HasRoom};
ghost use Rattle.machine_core.specs.FrameCalls.{task_below, top_of};
ghost use Rattle.machine_core.specs.IsrStep.{HasParts, IsStepBy};
ghost use Rattle.machine_core.specs.Valid.{most_task_steps, change, changed};

use crate::frame_steps::{frame_step, isr_step_into};
use crate::tasks::settle;
use crate::{Machine, What};
use deferred_queue::DeferredQueue;
use isr_nesting::Frames;
use kern_base::{Kinds, Method, Prio, TaskId};
use kernel_calls::Kernel;
use links::Links;
use rv32_exec::{Program, Ram};

// An interrupt that may enter does.
pub(crate) fn enter(frames: &mut Frames, number: usize, locked: bool, line: &mut What)
    requires { IsSomeAnd (waiting_at number frames.old.waiting) (λ i. level_of frames.old.frames < i.level) }
    ensures line { option_map (λ i. Irq i.vector i.level (is_step i.moment) locked) (waiting_at number frames.old.waiting) ≡ Some line.new }
    ensures frames { option_map (λ i. entered i ∷ frames.old.frames) (waiting_at number frames.old.waiting) ≡ Some frames.new.frames }
    ensures waiting { frames.new.waiting ≡ without_number number frames.old.waiting }
{
    let entry = frames.interrupt(number);
    frames.enter(number);
    *line = What::Irq {
        vector: entry.vector,
        level: entry.level,
        by_step: entry.by_step,
        locked,
    };
}

// The current task once these frames stand: where no frame does and nothing is in hand, the machine settles.
pub(crate) fn below<L: Links>(
    frames: &Frames,
    free: bool,
    kernel: &Kernel<L>,
    later: &DeferredQueue,
    current: TaskId,
) -> TaskId
    requires { free ≡ true → kernel.now.hand ≡ None }
    ensures { result.0 ≡ task_below frames.now.frames free kernel.now.state later.now.posts current.0 }
{
    match frames.top() {
        None if free => settle(kernel, later, current),
        _ => current,
    }
}

// One instruction of the top frame by a method, while a task of this priority is current. Tells whether it read a
// register with a mark.
fn frame_step_by<L: Links>(
    method: Method,
    program: &Program,
    kinds: &Kinds,
    prio: Prio,
    frames: &mut Frames,
    ram: &mut Ram,
    kernel: &mut Kernel<L>,
    later: &mut DeferredQueue,
    line: &mut What,
) -> bool
    requires stands { none_stands frames.old.frames ≡ false }
    requires room { (top_of frames.old.frames).used < 2 ^ 32 - 1 }
    requires low { (top_of frames.old.frames).vector < 32 }
    requires free { method ≡ Direct → kernel.old.hand ≡ None }
    requires signals { HasRoom kernel.old.state }
    requires blank { line.old ≡ What.Quiet }
    ensures rule { (m : State) → HasParts m program.now kinds.now prio.0 frames.old ram.old later.old → kernel.old.state ≡ m.kernel
        → IsStepBy method m line.new frames.old frames.new ram.new later.new kernel.old kernel.new }
    ensures size { later.new.size ≡ later.old.size }
    ensures marked { result ≡ reads_result program_serves program.now (top_of frames.old.frames) }
{
    match method {
        Method::Direct => frame_step(program, kinds, prio, frames, ram, kernel, line),
        Method::Deferred => isr_step_into(program, kinds, prio, frames, ram, later, line),
    }
}

impl<L: Links> Machine<L> {
    // The top frame runs one instruction. Tells whether it read a register with a mark.
    pub(crate) fn run_frame(&mut self, line: &mut What) -> bool
        requires rule { rule self.old.method self.old.state ≡ FrameRuns (top_of self.old.state.frames) (drop 1 self.old.state.frames) }
        requires stands { none_stands self.old.state.frames ≡ false }
        requires room { (top_of self.old.state.frames).used < 2 ^ 32 - 1 }
        requires open_yet { self.old.state.t < most_task_steps }
        requires blank { line.old ≡ What.Quiet }
        ensures line { line.new ≡ (change self.old.method self.old.state).what }
        ensures marked { result ≡ reads_result program_serves self.old.state.code (top_of self.old.state.frames) }
        ensures machine { self.new ≡ changed self.old }
    {
        let prio = self.kernel.tcb(self.current).prio;
        let free = self.kernel.is_free();
        let marked = frame_step_by(
            self.method,
            &self.program,
            &self.kinds,
            prio,
            &mut self.frames,
            &mut self.ram,
            &mut self.kernel,
            &mut self.later,
            line,
        );
        self.current = below(&self.frames, free, &self.kernel, &self.later, self.current);
        marked
    }
}
