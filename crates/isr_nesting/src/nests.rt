// The nesting of interrupts.

ghost use Rattle.std.specs.Prelude.{◌≡◌, ◌<◌, ◌≤◌, ◌+◌, ◌-◌, ◌^◌, ◌&&◌, All, length, map, IfSome, [], ◌∷◌, true, false, drop, if◌then◌else◌, is_some, IfOk, IsSomeAnd, Some, option_map, slice_get};
ghost use Rattle.served.specs.Served.{program_serves};
ghost use Rattle.inject_list.specs.Lists.{IsValidList};
ghost use Rattle.machine_model.specs.Frames.{entered, frame_registers, interrupts_of, level_of, none_stands};
ghost use Rattle.isr_nesting.specs.FrameView.{frame_record, mark_list, with_top};
ghost use Rattle.machine_model.specs.Due.{is_step};
ghost use Rattle.machine_model.specs.Marks.{post_marks, is_marked, instruction_reads, marks_after, next_instruction, reads_result};
ghost use Rattle.machine_model.specs.Interrupts.{answered_frame};
ghost use Rattle.rv32_exec.specs.Exec.{exec};
ghost use Rattle.isr_nesting.specs.Least.{nothing};
ghost use Rattle.isr_nesting.specs.Keys.{step_key, task_key};
ghost use Rattle.isr_nesting.specs.RecordView.{interrupt_in};
ghost use Rattle.isr_nesting.specs.Nest.{numbered, waiting_at, without_number, due_number, IsRising};

use crate::Frame;
use crate::marking::{POST, marks_at, reads_mark};
use crate::records::{Recorded, records_of};
use crate::stacks::Stack;
use crate::waits::{NONE, NUMBERS, Waiting};
use app_image::Image;
use inject_list::{InjectList, Moment};
use kern_base::{Answer, LEAVE, NoMemory};
use rv32_exec::{Program, Ram, Regs, Stepped};
use rv32_isa::Instr;
use std::alloc::Global;
use std::marker::Model;

/// What is told of an interrupt that enters.
#[derive(Clone, Copy, Debug, PartialEq, Eq)]
pub struct Entry {
    /// The vector's number, 0 to 31.
    pub vector: u8,
    /// The interrupt level, 1 to 7.
    pub level: u8,
    /// Whether its moment is in raw steps.
    pub by_step: bool,
}

/// The frames of interrupt code that stand, each of a level above the one below it, and the recorded interrupts
/// that have not entered. All its memory is taken by `new`.
#[derive(Drop)]
pub struct Frames {
    stack: Stack,
    waiting: Waiting,
}

impl Model for Frames {
    ghost use Rattle.isr_nesting.specs.Nest.{Nest};

    ghost Value = { Nest };

    ghost view = { λ a. record { frames = a.stack; waiting = a.waiting } };
}

// The registers that the frame of an interrupt begins with.
fn start_regs(recorded: &Recorded) -> Regs
    ensures { result ≡ frame_registers (interrupt_in recorded.now) }
{
    let [first, second, third, fourth] = recorded.words;
    let mut regs = Regs::new();
    regs.set_pc(recorded.entry);
    regs.set(1, LEAVE);
    regs.set(2, recorded.sp);
    regs.set(10, first);
    regs.set(11, second);
    regs.set(12, third);
    regs.set(13, fourth);
    regs
}

impl Frames {
    /// No frame, and all interrupts of a list that the image may be run with. Takes all the memory of a run;
    /// an `Err` where it is not there.
    pub fn new(alloc: Global, list: &InjectList, image: &Image) -> Result<Frames, NoMemory>
        requires { IsValidList image.now list.now }
        ensures { IfOk result (λ f. f ≡ record { frames = []; waiting = numbered 0 (interrupts_of image.now list.now) }) }
    {
        let recorded = records_of(alloc, image.vectors(), &list.injections)?;
        Frames::of_records(alloc, recorded)
    }

    // No frame, and these interrupts by number.
    pub(crate) fn of_records(alloc: Global, recorded: Vec<Recorded>) -> Result<Frames, NoMemory>
        requires few { length recorded.items ≤ 16384 }
        requires low { All (λ r. r.level ≤ 7) recorded.items }
        ensures { IfOk result (λ f. f ≡ record { frames = []; waiting = numbered 0 (map interrupt_in recorded.items) }) }
    {
        Ok(Frames {
            stack: Stack::new(),
            waiting: Waiting::new(alloc, recorded)?,
        })
    }

    /// The number in the list, from 0, of the interrupt that enters next, if one is due. `masked`: interrupts
    /// are held off; `quiet`: nothing is in hand and no post can be taken; `s` raw steps and `t` task steps
    /// are done.
    pub fn due(&self, masked: bool, quiet: bool, s: u64, t: u32) -> Option<usize>
        ensures number { result ≡ due_number masked quiet s t self.now.frames self.now.waiting }
        ensures enters { IfSome result (λ n. IsSomeAnd (waiting_at n self.now.waiting) (λ i. level_of self.now.frames < i.level)) }
        ensures rising { IsRising 0 self.now.waiting }
    {
        self.waiting.rising();
        if self.waiting.is_early(s, t) {
            return None;
        }
        let best = self.by_steps(masked, s).min(self.by_tasks(quiet, t));
        if best < (7 - u32::from(self.stack.level())) * NUMBERS {
            Some((best % NUMBERS) as usize)
        } else {
            None
        }
    }

    /// The interrupt of a number, which has not entered.
    pub fn interrupt(&self, number: usize) -> Entry
        requires { is_some (waiting_at number self.now.waiting) ≡ true }
        ensures { option_map (λ i. record { vector = i.vector; level = i.level; by_step = is_step i.moment }) (waiting_at number self.now.waiting) ≡ Some result }
    {
        let recorded = self.waiting.at(number);
        Entry {
            vector: recorded.vector,
            level: recorded.level,
            by_step: matches!(recorded.moment, Moment::Step(_)),
        }
    }

    /// The interrupt of a number, which has not entered and has a level above the top frame's (above 0 where none
    /// stands), enters: its frame is the top one.
    pub fn enter(&mut self, number: usize)
        requires { IsSomeAnd (waiting_at number self.old.waiting) (λ i. level_of self.old.frames < i.level) }
        ensures frames { option_map (λ i. entered i ∷ self.old.frames) (waiting_at number self.old.waiting) ≡ Some self.new.frames }
        ensures waiting { self.new.waiting ≡ without_number number self.old.waiting }
    {
        let recorded = *self.waiting.at(number);
        self.waiting.take(number);
        self.stack.push(Frame {
            vector: recorded.vector,
            level: recorded.level,
            regs: start_regs(&recorded),
            used: 0,
            marks: 0,
        });
    }

    /// The top frame leaves.
    pub fn leave(&mut self)
        requires { none_stands self.old.frames ≡ false }
        ensures { self.new ≡ record self.old { frames = drop 1 self.old.frames } }
    {
        self.stack.pop();
    }

    /// The top frame; none where no frame stands.
    pub fn top(&self) -> Option<&Frame>
        ensures { option_map (λ f. frame_record f.now) result ≡ slice_get self.now.frames 0 }
    {
        self.stack.top()
    }

    /// Writes the registers of the top frame, how many instructions it has run, and its marks.
    pub fn set_top(&mut self, regs: Regs, used: u32, marks: u8)
        requires { none_stands self.old.frames ≡ false }
        ensures { self.new ≡ record self.old { frames = with_top (λ f. record f { registers = regs; used = used; marks = mark_list marks }) self.old.frames } }
    {
        self.stack.set_top(regs, used, marks);
    }

    /// The top frame runs one instruction, where its registers stand. A trap changes nothing.
    #[inline(always)]
    pub fn run_top(&mut self, program: &Program, ram: &mut Ram) -> Stepped
        requires { none_stands self.old.frames ≡ false }
        ensures frames { self.new ≡ record self.old { frames = with_top (λ f. record f { registers = (exec program.now f.registers ram.old).registers }) self.old.frames } }
        ensures memory { option_map (λ f. (exec program.now f.registers ram.old).memory) (slice_get self.old.frames 0) ≡ Some ram.new }
        ensures did { option_map (λ f. (exec program.now f.registers ram.old).did) (slice_get self.old.frames 0) ≡ Some result }
    {
        self.stack.run(program, ram)
    }

    /// The top frame has run one more instruction, which leaves these marks.
    pub fn count_top(&mut self, marks: u8)
        requires stands { none_stands self.old.frames ≡ false }
        requires room { IfSome (slice_get self.old.frames 0) (λ f. f.used < 2 ^ 32 - 1) }
        ensures { self.new ≡ record self.old { frames = with_top (λ f. record f { used = f.used + 1; marks = mark_list marks }) self.old.frames } }
    {
        self.stack.count(marks);
    }

    /// The top frame has run a call, and has its answer: no register is marked.
    pub fn answer_top(&mut self, answer: Answer)
        requires stands { none_stands self.old.frames ≡ false }
        requires room { IfSome (slice_get self.old.frames 0) (λ f. f.used < 2 ^ 32 - 1) }
        ensures { self.new ≡ record self.old { frames = with_top (λ f. answered_frame f f.registers answer []) self.old.frames } }
    {
        self.stack.answer(answer);
    }

    /// Whether the next instruction of the top frame reads a register that is marked, and the marks behind
    /// it, where it is no ECALL. Nothing is looked at where no register is marked.
    pub fn marks_ahead(&self, program: &Program) -> (bool, u8)
        requires { none_stands self.now.frames ≡ false }
        ensures reads { option_map (reads_result program_serves program.now) (slice_get self.now.frames 0) ≡ Some result.0 }
        ensures after { option_map (λ f. marks_after (next_instruction program.now f.registers) f.marks) (slice_get self.now.frames 0) ≡ Some (mark_list result.1) }
    {
        match self.stack.top() {
            Some(frame) if frame.marks != 0 => marks_at(
                frame.marks,
                &frame.regs,
                program.instruction(frame.regs.pc()),
            ),
            _ => (false, 0),
        }
    }

    /// The top frame has posted: `a0` and `a1` hold the answer.
    pub fn mark_result(&mut self)
        requires { none_stands self.old.frames ≡ false }
        ensures { self.new ≡ record self.old { frames = with_top (λ f. record f { marks = post_marks }) self.old.frames } }
    {
        self.stack.set_marks(POST);
    }

    /// Whether an instruction of the top frame reads a register that is marked.
    pub fn reads_result(&self, instr: &Instr) -> bool
        requires { none_stands self.now.frames ≡ false }
        ensures { option_map (λ f. is_marked f.marks (instruction_reads program_serves f.registers instr.now)) (slice_get self.now.frames 0) ≡ Some result }
    {
        match self.stack.top() {
            Some(frame) => reads_mark(frame.marks, &frame.regs, instr),
            None => false,
        }
    }

    // The least key of those whose moment in raw steps has come; none where interrupts are held off.
    fn by_steps(&self, masked: bool, s: u64) -> u32
        ensures { result ≡ (if masked then nothing else step_key s self.now.waiting) }
    {
        if masked {
            return NONE;
        }
        self.waiting.step_key(s)
    }

    // The key of the first whose moment is in task steps, where that has come; none over a frame, or where it
    // is not quiet.
    fn by_tasks(&self, quiet: bool, t: u32) -> u32
        ensures { result ≡ (if quiet && none_stands self.now.frames then task_key t self.now.waiting else nothing) }
    {
        if !quiet || !self.stack.is_empty() {
            return NONE;
        }
        self.waiting.task_key(t)
    }
}
