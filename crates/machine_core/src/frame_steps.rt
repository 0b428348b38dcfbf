// One instruction of interrupt code, wherever its posts go.

ghost use Rattle.std.specs.Prelude.{◌≡◌, ◌==◌, ◌<◌, ◌-◌, ◌^◌, ◌∷◌, [], drop, false, true};
ghost use Rattle.kern_base.specs.Numbers.{leave};
ghost use Rattle.kern_base.specs.Services.{service_of};
ghost use Rattle.kern_base.specs.Checks.{static_error};
ghost use Rattle.served.specs.Served.{program_serves};
ghost use Rattle.rv32_exec.specs.Registers.{read};
ghost use Rattle.machine_model.specs.Frames.{none_stands};
ghost use Rattle.machine_model.specs.Marks.{marks_after, next_instruction, reads_result};
ghost use Rattle.isr_nesting.specs.FrameView.{mark_list};
ghost use Rattle.machine_model.specs.declared.events.What.TheVariants.{ICall, Exit};
ghost use Rattle.machine_model.specs.Interrupts.{argument_words};
ghost use Rattle.machine_model.specs.Machine.{Machine};
ghost use Rattle.machine_core.specs.FrameCalls.{top_of, checked_to, post_call, top_called, refused_frame, frame_stepped};
ghost use Rattle.machine_core.specs.IsrStep.{HasParts, IsStepOf};

use crate::answers::arguments;
use crate::posts::Posts;
use crate::{How, What};
use call_checks::{interrupt_error, is_post};
use deferred_queue::DeferredQueue;
use isr_nesting::Frames;
use kern_base::{Answer, Kinds, LEAVE, OsErr, Post, Prio, Service, static_refusal};
use rv32_exec::{Program, Ram, Stepped};
use served::is_served;

const A0: u8 = 10;

const A7: u8 = 17;

// The stores of a frame name its vector behind this number.
const FIRST_VECTOR: u8 = 64;

// An answer without a value.
fn refusal(err: OsErr) -> Answer
    ensures { result ≡ record { err = err; value = 0; extra = 0 } }
{
    Answer {
        err,
        value: 0,
        extra: 0,
    }
}

// Whether the top frame has returned.
fn has_returned(frames: &Frames) -> bool
    requires { none_stands frames.now.frames ≡ false }
    ensures { result ≡ ((top_of frames.now.frames).registers.pc == leave) }
{
    match frames.top() {
        Some(frame) => frame.regs.pc() == LEAVE,
        None => false,
    }
}

// The service that the top frame has called, and the words of its arguments.
fn called(frames: &Frames) -> (Service, [u32; 4])
    requires { none_stands frames.now.frames ≡ false }
    ensures service { result.0 ≡ service_of (read (top_of frames.now.frames).registers 17) }
    ensures arguments { result.1 ≡ argument_words (top_of frames.now.frames).registers }
{
    let Some(frame) = frames.top() else {
        unreachable!();
    };
    let regs = &frame.regs;
    let args = [
        regs.get(A0),
        regs.get(A0 + 1),
        regs.get(A0 + 2),
        regs.get(A0 + 3),
    ];
    (Service::of(regs.get(A7)), args)
}

// The top frame, of this vector, leaves.
fn exit(frames: &mut Frames, vector: u8, how: How, line: &mut What)
    requires { none_stands frames.old.frames ≡ false }
    ensures line { line.new ≡ Exit vector how }
    ensures frames { frames.new ≡ record frames.old { frames = drop 1 frames.old.frames } }
{
    frames.leave();
    *line = What::Exit { vector, how };
}

// A post, which fails a static check or goes on, while a task of this priority is current.
fn checked<P: Posts>(posts: &mut P, kinds: &Kinds, post: Post, prio: Prio) -> Answer
    requires { P.may_post posts.old ≡ true }
    ensures answer { result ≡ (checked_to (P.posted prio.0) (static_error post.service post.args kinds.now false) post.service post.args posts.old).0 }
    ensures after { posts.new ≡ (checked_to (P.posted prio.0) (static_error post.service post.args kinds.now false) post.service post.args posts.old).1 }
{
    match static_refusal(&post, kinds) {
        Some(err) => refusal(err),
        None => posts.post(post, prio),
    }
}

// The top frame, of this vector, posts.
fn post<P: Posts>(
    frames: &mut Frames,
    posts: &mut P,
    kinds: &Kinds,
    vector: u8,
    post: Post,
    prio: Prio,
    line: &mut What,
)
    requires posts { P.may_post posts.old ≡ true }
    requires stands { none_stands frames.old.frames ≡ false }
    requires room { (top_of frames.old.frames).used < 2 ^ 32 - 1 }
    requires vector { (top_of frames.old.frames).vector ≡ vector }
    ensures line { line.new ≡ (post_call (P.posted prio.0) kinds.now post.service post.args (top_of frames.old.frames) (top_of frames.old.frames).registers posts.old).what }
    ensures posts { posts.new ≡ (post_call (P.posted prio.0) kinds.now post.service post.args (top_of frames.old.frames) (top_of frames.old.frames).registers posts.old).after }
    ensures frames { frames.new ≡ record frames.old { frames = (post_call (P.posted prio.0) kinds.now post.service post.args (top_of frames.old.frames) (top_of frames.old.frames).registers posts.old).frame ∷ drop 1 frames.old.frames } }
{
    let answer = checked(posts, kinds, post, prio);
    frames.answer_top(answer);
    frames.mark_result();
    *line = What::Post {
        vector,
        service: post.service,
        args: arguments(post.service, &post.args),
        n_args: post.service.args() as u8,
        err: answer.err,
        value: answer.value,
    };
}

// Any other call of the top frame, of this vector, is refused.
fn refuse(frames: &mut Frames, vector: u8, service: Service, err: OsErr, line: &mut What)
    requires stands { none_stands frames.old.frames ≡ false }
    requires room { (top_of frames.old.frames).used < 2 ^ 32 - 1 }
    requires vector { (top_of frames.old.frames).vector ≡ vector }
    ensures line { line.new ≡ ICall vector service err }
    ensures frames { frames.new ≡ record frames.old { frames = refused_frame err (top_of frames.old.frames) (top_of frames.old.frames).registers ∷ drop 1 frames.old.frames } }
{
    frames.answer_top(refusal(err));
    *line = What::ICall {
        vector,
        service,
        err,
    };
}

// The top frame, of this vector, has called, while a task of this priority is current.
fn call<P: Posts>(
    frames: &mut Frames,
    posts: &mut P,
    kinds: &Kinds,
    vector: u8,
    prio: Prio,
    line: &mut What,
)
    requires posts { P.may_post posts.old ≡ true }
    requires stands { none_stands frames.old.frames ≡ false }
    requires room { (top_of frames.old.frames).used < 2 ^ 32 - 1 }
    requires vector { (top_of frames.old.frames).vector ≡ vector }
    ensures line { line.new ≡ (top_called (P.posted prio.0) kinds.now frames.old.frames posts.old).what }
    ensures posts { posts.new ≡ (top_called (P.posted prio.0) kinds.now frames.old.frames posts.old).after }
    ensures frames { frames.new ≡ record frames.old { frames = (top_called (P.posted prio.0) kinds.now frames.old.frames posts.old).frame ∷ drop 1 frames.old.frames } }
{
    let (service, args) = called(frames);
    if !is_served(service) {
        refuse(frames, vector, service, OsErr::CallUnknown, line);
    } else if is_post(service) {
        post(
            frames,
            posts,
            kinds,
            vector,
            Post { service, args },
            prio,
            line,
        );
    } else {
        refuse(frames, vector, service, interrupt_error(service), line);
    }
}

// The top frame, of this vector, runs one instruction, which leaves these marks, while a task of this priority is
// current.
fn run_top<P: Posts>(
    program: &Program,
    kinds: &Kinds,
    prio: Prio,
    frames: &mut Frames,
    ram: &mut Ram,
    posts: &mut P,
    vector: u8,
    marks: u8,
    line: &mut What,
)
    requires posts { P.may_post posts.old ≡ true }
    requires stands { none_stands frames.old.frames ≡ false }
    requires room { (top_of frames.old.frames).used < 2 ^ 32 - 1 }
    requires vector { (top_of frames.old.frames).vector ≡ vector }
    requires low { vector < 32 }
    requires marks { mark_list marks ≡ marks_after (next_instruction program.now (top_of frames.old.frames).registers) (top_of frames.old.frames).marks }
    requires blank { line.old ≡ What.Quiet }
    ensures line { line.new ≡ (frame_stepped (P.posted prio.0) kinds.now program.now frames.old.frames ram.old posts.old).what }
    ensures frames { frames.new ≡ record frames.old { frames = (frame_stepped (P.posted prio.0) kinds.now program.now frames.old.frames ram.old posts.old).frames } }
    ensures memory { ram.new ≡ (frame_stepped (P.posted prio.0) kinds.now program.now frames.old.frames ram.old posts.old).memory }
    ensures posts { posts.new ≡ (frame_stepped (P.posted prio.0) kinds.now program.now frames.old.frames ram.old posts.old).after }
{
    match frames.run_top(program, ram) {
        Stepped::Next if has_returned(frames) => exit(frames, vector, How::Ret, line),
        Stepped::Next => frames.count_top(marks),
        Stepped::Stored { addr, width, value } => {
            frames.count_top(marks);
            *line = What::St {
                who: FIRST_VECTOR + vector,
                addr,
                width,
                value,
            };
        }
        Stepped::Call => call(frames, posts, kinds, vector, prio, line),
        Stepped::Trap(kind, pc) => exit(frames, vector, How::Trap(kind, pc), line),
    }
}

// The top frame runs one instruction, while a task of this priority is current. Tells whether it read a register
// with a mark.
pub(crate) fn frame_step<P: Posts>(
    program: &Program,
    kinds: &Kinds,
    prio: Prio,
    frames: &mut Frames,
    ram: &mut Ram,
    posts: &mut P,
    line: &mut What,
) -> bool
    requires posts { P.may_post posts.old ≡ true }
    requires stands { none_stands frames.old.frames ≡ false }
    requires room { (top_of frames.old.frames).used < 2 ^ 32 - 1 }
    requires low { (top_of frames.old.frames).vector < 32 }
    requires blank { line.old ≡ What.Quiet }
    ensures line { line.new ≡ (frame_stepped (P.posted prio.0) kinds.now program.now frames.old.frames ram.old posts.old).what }
    ensures frames { frames.new ≡ record frames.old { frames = (frame_stepped (P.posted prio.0) kinds.now program.now frames.old.frames ram.old posts.old).frames } }
    ensures memory { ram.new ≡ (frame_stepped (P.posted prio.0) kinds.now program.now frames.old.frames ram.old posts.old).memory }
    ensures posts { posts.new ≡ (frame_stepped (P.posted prio.0) kinds.now program.now frames.old.frames ram.old posts.old).after }
    ensures marked { result ≡ reads_result program_serves program.now (top_of frames.old.frames) }
{
    let Some(frame) = frames.top() else {
        unreachable!();
    };
    let vector = frame.vector;
    let (marked, marks) = frames.marks_ahead(program);
    run_top(
        program, kinds, prio, frames, ram, posts, vector, marks, line,
    );
    marked
}

/// One instruction of the top frame under the deferred method: it reaches the frames, the memory and the queue of
/// posts, and nothing of the kernel. `saved` is the present priority of the current task, which a queued post
/// keeps. The line of the event is written over `Quiet`; the answer tells whether the instruction read a register
/// with a mark. It takes no memory.
pub fn isr_step_into(
    program: &Program,
    kinds: &Kinds,
    saved: Prio,
    frames: &mut Frames,
    ram: &mut Ram,
    queue: &mut DeferredQueue,
    line: &mut What,
) -> bool
    requires stands { none_stands frames.old.frames ≡ false }
    requires room { (top_of frames.old.frames).used < 2 ^ 32 - 1 }
    requires low { (top_of frames.old.frames).vector < 32 }
    requires blank { line.old ≡ What.Quiet }

    // What the rule of a frame that runs does to these parts of any machine.
    ensures rule { (m : Machine) → HasParts m program.now kinds.now saved.0 frames.old ram.old queue.old → IsStepOf m line.new frames.new ram.new queue.new }
    ensures waiting { frames.new.waiting ≡ frames.old.waiting }
    ensures size { queue.new.size ≡ queue.old.size }
    ensures marked { result ≡ reads_result program_serves program.now (top_of frames.old.frames) }
{
    frame_step(program, kinds, saved, frames, ram, queue, line)
}

/// The same, with what happened as its answer, and whether the instruction read a register with a mark.
pub fn isr_step(
    program: &Program,
    kinds: &Kinds,
    saved: Prio,
    frames: &mut Frames,
    ram: &mut Ram,
    queue: &mut DeferredQueue,
) -> (What, bool)
    requires stands { none_stands frames.old.frames ≡ false }
    requires room { (top_of frames.old.frames).used < 2 ^ 32 - 1 }
    requires low { (top_of frames.old.frames).vector < 32 }
    ensures rule { (m : Machine) → HasParts m program.now kinds.now saved.0 frames.old ram.old queue.old → IsStepOf m result.0 frames.new ram.new queue.new }
    ensures waiting { frames.new.waiting ≡ frames.old.waiting }
    ensures size { queue.new.size ≡ queue.old.size }
    ensures marked { result.1 ≡ reads_result program_serves program.now (top_of frames.old.frames) }
{
    let mut line = What::Quiet;
    let marked = isr_step_into(program, kinds, saved, frames, ram, queue, &mut line);
    (line, marked)
}
