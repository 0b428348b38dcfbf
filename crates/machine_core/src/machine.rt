// The machine and its events.

ghost use Rattle.std.specs.Prelude.{◌≡◌, ◌<◌, ◌≤◌, ◌&&◌, not, ℕ, true, false, None, All, IfOk, is_some, length, map};
ghost use Rattle.served.specs.Served.{program_serves};
ghost use Rattle.app_image.specs.Image.{kind_table};
ghost use Rattle.inject_list.specs.Lists.{IsValidList};
ghost use Rattle.links.specs.Nodes.{AreOwn};
ghost use Rattle.machine_model.specs.Looks.{look_at};
ghost use Rattle.machine_model.specs.Machine.{start};
ghost use Rattle.machine_model.specs.Rules.{rule, rule_of_frames, marks, may_take, switch_of};
ghost use Rattle.machine_model.specs.Bound.{events_left};
ghost use Rattle.machine_model.specs.Text.{IsPrintable};
ghost use Rattle.machine_laws.specs.Valid.{IsValidMachine};
ghost use Rattle.machine_core.specs.MethodMachine.{next_event, next_machine};
ghost use Rattle.machine_core.specs.Valid.{is_direct, most_task_steps, change};

use crate::interrupts::{below, enter};
use crate::looks::look_line;
use crate::{Event, How, What};
use app_image::{Config, Image, kinds_in};
use deferred_queue::DeferredQueue;
use due_looks::Looks;
use inject_list::InjectList;
use isr_nesting::Frames;
use kern_base::{Kinds, Method, NoMemory, TaskId};
use kernel_calls::Kernel;
use links::Links;
use rv32_exec::{Program, Ram};
use std::alloc::Global;
use std::marker::Model;

/// The machine that runs an application and its recorded interrupts by one of the two posting methods, and tells of its
/// lists where a look comes: its tasks' registers, the kernel, the memory, the frames of interrupt code, the posts that
/// wait, the looks to come and the counts of steps. All its memory is taken by `load`. Nothing of it knows which links
/// the kernel runs over.
#[derive(Drop)]
pub struct Machine<L: Links> {
    pub(crate) method: Method,
    pub(crate) kernel: Kernel<L>,
    pub(crate) kinds: Kinds,
    pub(crate) ram: Ram,
    pub(crate) program: Program,
    pub(crate) config: Config,
    pub(crate) current: TaskId,
    pub(crate) frames: Frames,
    pub(crate) later: DeferredQueue,
    pub(crate) looks: Looks,
    pub(crate) begun: bool,
    pub(crate) s: u64,
    pub(crate) t: u32,
}

impl<L: Links> Model for Machine<L> {
    ghost use Rattle.machine_core.specs.MethodMachine.{MethodMachine};

    ghost Value = { MethodMachine };

    ghost use Rattle.machine_core.specs.MachineView.{method_machine_of, parts, IsKept};

    ghost view = { λ a. method_machine_of (parts a.method a.kernel a.kinds a.ram a.program a.config a.current a.frames a.later a.looks a.begun a.s a.t) };

    ghost invariant = { λ a. IsKept (parts a.method a.kernel a.kinds a.ram a.program a.config a.current a.frames a.later a.looks a.begun a.s a.t) };
}

// What the static checks of a call look at.
fn kinds_of(image: &Image) -> Kinds
    ensures { result ≡ kind_table image.now }
{
    let tasks = image.kinds().tasks();
    Kinds::new(kinds_in(image.objects()), tasks)
}

impl<L: Links> Machine<L> {
    /// The machine at the start of a run of this application by this method with these interrupts and looks.
    pub fn load(
        alloc: Global,
        image: &Image,
        list: &InjectList,
        method: Method,
        ready: L,
        pend: L,
    ) -> Result<Machine<L>, NoMemory>
        requires list { IsValidList image.now list.now }
        requires ready { AreOwn 128 (L.nexts ready) × AreOwn 128 (L.prevs ready) }
        requires pend { AreOwn 576 (L.nexts pend) × AreOwn 576 (L.prevs pend) }
        ensures method { IfOk result (λ m. m.method ≡ method) }
        ensures start { IfOk result (λ m. m.state ≡ start image.now list.now) }
        ensures valid { IfOk result (λ m. IsValidMachine program_serves m.method m.state) }
    {
        let config = image.config();
        let kernel = Kernel::new(alloc, image, ready, pend)?;
        let frames = Frames::new(alloc, list, image)?;
        let later = DeferredQueue::new(alloc, config.defer_size as u16)?;
        let looks = Looks::new(alloc, list)?;
        let Ok(ram) = Ram::new(alloc, image.ram()) else {
            return Err(NoMemory);
        };
        let Ok(program) = Program::new(alloc, image.code()) else {
            return Err(NoMemory);
        };
        let current = kernel.pick();
        Ok(Machine {
            method,
            kernel,
            kinds: kinds_of(image),
            ram,
            program,
            config,
            current,
            frames,
            later,
            looks,
            begun: false,
            s: 0,
            t: 0,
        })
    }

    /// The next event. It takes no memory.
    pub fn step(&mut self) -> Event
        requires { self.old.state.t < most_task_steps }
        ensures event { result ≡ next_event self.old }
        ensures printable { IsPrintable result.what }
        ensures machine { self.new ≡ next_machine self.old }

        // Fewer events are left to any later number of task steps.
        ensures fewer { (n : ℕ) → self.old.state.t < n → events_left n self.new.state < events_left n self.old.state }
    {
        let mut event = Event {
            s: 0,
            t: 0,
            what: What::Quiet,
            switch: None,
            marked: false,
        };
        self.step_into(&mut event);
        event
    }

    /// The next event, written over an older one, whatever that was. It takes no memory.
    pub fn step_into(&mut self, event: &mut Event)
        requires { self.old.state.t < most_task_steps }
        ensures event { event.new ≡ next_event self.old }
        ensures printable { IsPrintable event.new.what }
        ensures machine { self.new ≡ next_machine self.old }

        // Fewer events are left to any later number of task steps.
        ensures fewer { (n : ℕ) → self.old.state.t < n → events_left n self.new.state < events_left n self.old.state }
    {
        let before = self.current;
        event.s = self.s;
        event.t = self.t;
        event.marked = false;
        if !matches!(event.what, What::Quiet) {
            event.what = What::Quiet;
        }
        if self.begun {
            event.marked = self.go_on(&mut event.what);
        } else {
            self.begun = true;
            event.what = What::Start { task: before };
        }
        write_switch(before, self.current, &mut event.switch);
    }

    /// The task steps so far.
    pub fn task_steps(&self) -> u32
        ensures { result ≡ self.now.state.t }
    {
        self.t
    }

    /// The raw steps so far.
    pub fn raw_steps(&self) -> u64
        ensures { result ≡ self.now.state.s }
    {
        self.s
    }

    /// The kernel.
    pub fn kernel(&self) -> &Kernel<L>
        ensures state { result.now.state ≡ self.now.state.kernel }
        ensures registers { result.now.registers ≡ self.now.state.registers }
    {
        &self.kernel
    }

    // Whether the handler may take a post: one waits, and the scheduler is not locked.
    pub(crate) fn may_take(&self) -> bool
        ensures { result ≡ may_take self.now.state }
    {
        !self.later.is_empty() && self.kernel.lock() == 0
    }

    // Whether interrupts are held off: under the direct method, while a whole step is in hand.
    fn is_masked(&self, free: bool) -> bool
        ensures { result ≡ (not free && is_direct self.now.method) }
    {
        !free && matches!(self.method, Method::Direct)
    }

    // Whether nothing is in hand and no post can be taken.
    fn is_quiet(&self, free: bool) -> bool
        ensures { result ≡ (free && not (may_take self.now.state)) }
    {
        free && !self.may_take()
    }

    // What happens after the first event, and whether interrupt code reads a register with a mark: a look that has this
    // moment is told, which takes no raw step, or else it passes.
    fn go_on(&mut self, line: &mut What) -> bool
        requires begun { self.old.state.begun ≡ true }
        requires open_yet { self.old.state.t < most_task_steps }
        requires blank { line.old ≡ What.Quiet }
        ensures line { line.new ≡ (change self.old.method self.old.state).what }
        ensures printable { IsPrintable line.new }
        ensures marked { result ≡ marks program_serves (rule self.old.method self.old.state) self.old.state }
        ensures machine { self.new ≡ next_machine self.old }
    {
        if self.looks.is_due(self.s) {
            self.look(line);
            return false;
        }
        self.pass(line)
    }

    // The first look that has this moment is told, and is gone.
    #[inline(never)]
    fn look(&mut self, line: &mut What)
        requires begun { self.old.state.begun ≡ true }
        requires due { is_some (look_at self.old.state.s self.old.state.looks) ≡ true }
        requires open_yet { self.old.state.t < most_task_steps }
        requires blank { line.old ≡ What.Quiet }
        ensures line { line.new ≡ (change self.old.method self.old.state).what }
        ensures printable { IsPrintable line.new }
        ensures marked { marks program_serves (rule self.old.method self.old.state) self.old.state ≡ false }
        ensures machine { self.new ≡ next_machine self.old }
    {
        if let Some(look) = self.looks.take(self.s) {
            look_line(&self.kernel, look.what, line);
        }
    }

    // No look has this moment: an interrupt that is due enters, which takes no raw step, or else what is there goes on.
    #[inline(always)]
    fn pass(&mut self, line: &mut What) -> bool
        requires begun { self.old.state.begun ≡ true }
        requires no_look { look_at self.old.state.s self.old.state.looks ≡ None }
        requires open_yet { self.old.state.t < most_task_steps }
        requires blank { line.old ≡ What.Quiet }
        ensures line { line.new ≡ (change self.old.method self.old.state).what }
        ensures printable { IsPrintable line.new }
        ensures marked { result ≡ marks program_serves (rule self.old.method self.old.state) self.old.state }
        ensures machine { self.new ≡ next_machine self.old }
    {
        let free = self.kernel.is_free();
        let masked = self.is_masked(free);
        let quiet = self.is_quiet(free);
        match self.frames.due(masked, quiet, self.s, self.t) {
            Some(number) => {
                let locked = self.kernel.lock() > 0;
                enter(&mut self.frames, number, locked, line);
                false
            }
            None => self.proceed(line),
        }
    }

    // No interrupt is due: the top frame leaves at its limit, which takes no raw step, or it runs one
    // instruction; where no frame stands, tasks work.
    #[inline(always)]
    fn proceed(&mut self, line: &mut What) -> bool
        requires rule { rule self.old.method self.old.state ≡ rule_of_frames self.old.state.frames self.old.state }
        requires open_yet { self.old.state.t < most_task_steps }
        requires blank { line.old ≡ What.Quiet }
        ensures line { line.new ≡ (change self.old.method self.old.state).what }
        ensures marked { result ≡ marks program_serves (rule self.old.method self.old.state) self.old.state }
        ensures machine { self.new ≡ next_machine self.old }
    {
        let Some(frame) = self.frames.top() else {
            self.work(line);
            return false;
        };
        let vector = frame.vector;
        if frame.used >= self.config.isr_limit {
            let free = self.kernel.is_free();
            self.frames.leave();
            self.current = below(&self.frames, free, &self.kernel, &self.later, self.current);
            *line = What::Exit {
                vector,
                how: How::Limit,
            };
            return false;
        }
        let marked = self.run_frame(line);
        self.s += 1;
        marked
    }
}

// Writes the current task before and after, where it changed.
fn write_switch(before: TaskId, now: TaskId, switch: &mut Option<(TaskId, TaskId)>)
    ensures { switch.new ≡ switch_of before.0 now.0 }
{
    *switch = None;
    if before != now {
        *switch = Some((before, now));
    }
}
