// The frames that stand.

ghost use Rattle.std.specs.Prelude.{◌≡◌, ◌<◌, ◌≤◌, ◌+◌, ◌-◌, ◌^◌, [], ◌∷◌, false, drop, slice_get, option_map, IfSome, Some};
ghost use Rattle.rv32_exec.specs.Exec.{exec};
ghost use Rattle.machine_model.specs.Interrupts.{answered_frame};
ghost use Rattle.machine_model.specs.Frames.{level_of, none_stands};
ghost use Rattle.isr_nesting.specs.FrameView.{frame_record, mark_list, with_top};

use crate::Frame;
use arrayvec::ArrayVec;
use kern_base::Answer;
use rv32_exec::{Program, Ram, Regs, Stepped};
use std::marker::Model;

// The register of an answer's error; its value is in the next one.
const A0: u8 = 10;

// The frames, the top one last: each has a level above the one below it. Contracts see them with the top
// one first.
#[derive(Drop)]
pub(crate) struct Stack {
    frames: ArrayVec<Frame, 8>,
}

impl Model for Stack {
    ghost use Rattle.std.specs.Prelude.{List};
    ghost use Rattle.machine_model.specs.Frames.{FrameRecord};

    ghost Value = { List FrameRecord };

    ghost use Rattle.isr_nesting.specs.FrameView.{stack_of, Climbs};

    ghost view = { λ a. stack_of a.frames.items };

    ghost invariant = { λ a. Climbs (stack_of a.frames.items) };
}

impl Stack {
    // No frame.
    pub fn new() -> Stack
        ensures { result ≡ [] }
    {
        Stack {
            frames: ArrayVec::new(),
        }
    }

    // Whether no frame stands.
    pub fn is_empty(&self) -> bool
        ensures { result ≡ none_stands self.now }
    {
        self.frames.is_empty()
    }

    // The level of the top frame, 1 to 7; 0 where none stands.
    pub fn level(&self) -> u8
        ensures value { result ≡ level_of self.now }
        ensures low { result ≤ 7 }
    {
        match self.frames.last() {
            Some(frame) => frame.level,
            None => 0,
        }
    }

    // The top frame.
    pub fn top(&self) -> Option<&Frame>
        ensures { option_map (λ f. frame_record f.now) result ≡ slice_get self.now 0 }
    {
        self.frames.last()
    }

    // A frame enters.
    pub fn push(&mut self, frame: Frame)
        requires above { level_of self.old < frame.level }
        requires low { frame.level ≤ 7 }
        ensures { self.new ≡ frame_record frame ∷ self.old }
    {
        self.frames.push(frame);
    }

    // The top frame leaves.
    pub fn pop(&mut self)
        requires { none_stands self.old ≡ false }
        ensures { self.new ≡ drop 1 self.old }
    {
        self.frames.pop();
    }

    // Writes what the top frame has run to.
    pub fn set_top(&mut self, regs: Regs, used: u32, marks: u8)
        requires { none_stands self.old ≡ false }
        ensures { self.new ≡ with_top (λ f. record f { registers = regs; used = used; marks = mark_list marks }) self.old }
    {
        let at = self.frames.len() - 1;
        let frame = self.frames[at];
        self.frames[at] = Frame {
            vector: frame.vector,
            level: frame.level,
            regs,
            used,
            marks,
        };
    }

    // The top frame runs one instruction where its registers stand; a trap changes nothing.
    #[inline(always)]
    pub fn run(&mut self, program: &Program, ram: &mut Ram) -> Stepped
        requires { none_stands self.old ≡ false }
        ensures frames { self.new ≡ with_top (λ f. record f { registers = (exec program.now f.registers ram.old).registers }) self.old }
        ensures memory { option_map (λ f. (exec program.now f.registers ram.old).memory) (slice_get self.old 0) ≡ Some ram.new }
        ensures did { option_map (λ f. (exec program.now f.registers ram.old).did) (slice_get self.old 0) ≡ Some result }
    {
        let at = self.frames.len() - 1;
        let frame = &mut self.frames[at];
        program.step(&mut frame.regs, ram)
    }

    // The top frame has run one more instruction, which leaves these marks.
    pub fn count(&mut self, marks: u8)
        requires stands { none_stands self.old ≡ false }
        requires room { IfSome (slice_get self.old 0) (λ f. f.used < 2 ^ 32 - 1) }
        ensures { self.new ≡ with_top (λ f. record f { used = f.used + 1; marks = mark_list marks }) self.old }
    {
        let at = self.frames.len() - 1;
        let frame = &mut self.frames[at];
        frame.used += 1;
        frame.marks = marks;
    }

    // The top frame has run its call, which is answered; no register is marked.
    pub fn answer(&mut self, answer: Answer)
        requires stands { none_stands self.old ≡ false }
        requires room { IfSome (slice_get self.old 0) (λ f. f.used < 2 ^ 32 - 1) }
        ensures { self.new ≡ with_top (λ f. answered_frame f f.registers answer []) self.old }
    {
        let at = self.frames.len() - 1;
        let frame = &mut self.frames[at];
        frame.regs.set(A0, answer.err.number());
        frame.regs.set(A0 + 1, answer.value);
        frame.used += 1;
        frame.marks = 0;
    }

    // Writes the marks of the top frame.
    pub fn set_marks(&mut self, marks: u8)
        requires { none_stands self.old ≡ false }
        ensures { self.new ≡ with_top (λ f. record f { marks = mark_list marks }) self.old }
    {
        let at = self.frames.len() - 1;
        let mut frame = self.frames[at];
        frame.marks = marks;
        self.frames[at] = frame;
    }
}
