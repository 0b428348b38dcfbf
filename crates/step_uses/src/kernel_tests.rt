// The kernel over links: posts of interrupt code; a table of whole steps, with both chains of the lists that they change after
// each micro-step; and how many neighbours are read.

ghost use Rattle.std.specs.Prelude.{◌≡◌, ◌<◌, true};
ghost use Rattle.kern_model.specs.Valid.{MayCall};
ghost use Rattle.links.specs.Nodes.{AreOwn};

use crate::counted_links::CountedLinks;
use crate::rows::{Row, after, reads};
use app_image::{Image, check, read_image};
use kern_base::{Answer, OsErr, Outcome, Post, Prio, Request, Service, TaskId, Waiting};
use kernel_calls::{Kernel, Progress};
use link_pool::RawLinks;
use links::{IndexLinks, Links};
use std::alloc::Global;
use std::cell::Cell;
use std::process::Abort;
use std::test::Fail;

// Version 2: one code word that loops; tasks `a`, `b` and `c` with priority 10; semaphores `s` with count 0 and `t` with count 7,
// a queue `q` of one message and event flags `f`, all clear.
const IMAGE: &[u8] = b"UC3I\x02\0\0\0\x01\0\0\0\0\0\0\0\x03\0\x04\0\0\0\0\0\
\0\x01\0\0\x10\0\0\0\x40\0\0\0\x0a\0\0\0\x01\0\0\0\x0a\0\0\0\x01\0\0\0\x3e\0\0\0\0\0\x14\0\0\0\0\0\
a\0\0\0\0\0\0\0\0\0\0\0\0\0\0\0\0\0\0\0\0\0\x14\0\x0a\0\0\0\0\0\0\0\0\0\0\0\
b\0\0\0\0\0\0\0\0\0\0\0\0\0\0\0\0\0\0\0\0\0\x14\0\x0a\0\0\0\0\0\0\0\0\0\0\0\
c\0\0\0\0\0\0\0\0\0\0\0\0\0\0\0\0\0\0\0\0\0\x14\0\x0a\0\0\0\0\0\0\0\0\0\0\0\
s\0\0\0\0\0\0\0\0\0\0\0\0\0\0\0\x01\0\0\0\0\0\0\0\0\0\0\0\0\0\0\0\0\0\0\0\
t\0\0\0\0\0\0\0\0\0\0\0\0\0\0\0\x01\0\0\0\x07\0\0\0\0\0\0\0\0\0\0\0\0\0\0\0\
q\0\0\0\0\0\0\0\0\0\0\0\0\0\0\0\x02\0\0\0\x01\0\0\0\0\0\0\0\0\0\0\0\0\0\0\0\
f\0\0\0\0\0\0\0\0\0\0\0\0\0\0\0\x03\0\0\0\0\0\0\0\0\0\0\0\0\0\0\0\0\0\0\0\
\x6f\0\0\0";

fn image(alloc: Global) -> Result<Image, Fail> {
    let Ok((raw, _)) = read_image(alloc, IMAGE) else {
        return Err(Fail::from("no image"));
    };
    let Ok(image) = check(raw) else {
        return Err(Fail::from("refused"));
    };
    Ok(image)
}

// The kernel of the image over fresh links.
fn kernel<L: Links>(alloc: Global, ready: L, pend: L) -> Result<Kernel<L>, Fail>
    requires ready { AreOwn 128 (L.nexts ready) × AreOwn 128 (L.prevs ready) }
    requires pend { AreOwn 576 (L.nexts pend) × AreOwn 576 (L.prevs pend) }
{
    let image = image(alloc)?;
    let Ok(kernel) = Kernel::new(alloc, &image, ready, pend) else {
        return Err(Fail::from("no memory"));
    };
    Ok(kernel)
}

// Whether a task may call.
fn may_call<L: Links>(kernel: &Kernel<L>, task: TaskId) -> bool
    requires { task.0 < 60 }
    ensures { result ≡ true → MayCall task.0 kernel.now.state }
{
    let tcb = kernel.tcb(task);
    kernel.lock() == 0
        && tcb.alive
        && tcb.wait == Waiting::No
        && tcb.suspended == 0
        && tcb.result.is_none()
}

// A call on an object without options.
fn call(service: Service, object: u32) -> Request {
    Request {
        service,
        args: [object, 0, 0, 0],
        ids: [0; 8],
        n_ids: 0,
        table: false,
    }
}

// The answer without an error, with this value.
fn fine(value: u32) -> Outcome {
    Outcome::Answered(
        Answer {
            err: OsErr::NoError,
            value,
            extra: 0,
        },
        None,
    )
}

// Posts of interrupt code are answered at once.
fn posts<L: Links>(rt: &impl Abort, kernel: &mut Kernel<L>) {
    for (service, args, err, value) in [
        (Service::SemPost, [1, 0, 0, 0], OsErr::NoError, 8),
        (Service::SemPost, [1, 2, 0, 0], OsErr::NoError, 9),
        (Service::SemPost, [1, 1, 0, 0], OsErr::OptionInvalid, 0),
        (Service::SemPost, [2, 0, 0, 0], OsErr::ObjectType, 0),
        (Service::TimeTick, [0, 0, 0, 0], OsErr::NoError, 0),
    ] {
        assert!(rt; kernel.is_free() && kernel.has_room());
        let answer = kernel.post_now(Post { service, args }, Prio(10));
        assert_eq!(rt; answer.err, err);
        assert_eq!(rt; answer.value, value);
    }
}

// Makes the step in hand: a micro-step for each row, and no more.
fn made<L: Links>(rt: &impl Abort, kernel: &mut Kernel<L>, rows: &[Row], outcome: Outcome) {
    for k in 0..rows.len() {
        assert!(rt; !kernel.is_free());
        let progress = kernel.advance();
        reads(rt, kernel.chains(), Prio(10), &rows[k]);
        match progress {
            Progress::More => assert!(rt; k + 1 < rows.len()),
            Progress::Done(end) => {
                assert_eq!(rt; k + 1, rows.len());
                assert_eq!(rt; end, outcome);
            }
        }
    }
    assert!(rt; kernel.is_free());
}

// A task calls.
fn begin<L: Links>(rt: &impl Abort, kernel: &mut Kernel<L>, task: TaskId, request: &Request)
    requires { task.0 < 60 }
{
    assert!(rt; kernel.is_free() && kernel.has_room() && may_call(kernel, task));
    kernel.begin(task, request, Prio(10), Prio(10));
}

// Two waits for a semaphore, the second behind the first; a post of a task of their priority, and one that the handler takes
// after it interrupted another priority.
fn steps<L: Links>(rt: &impl Abort, kernel: &mut Kernel<L>) {
    let first = [
        after(&[0, 1, 2], &[0, 1, 2], &[], &[]),
        after(&[1, 2], &[0, 1, 2], &[], &[]),
        after(&[1, 2], &[1, 2], &[], &[]),
        after(&[1, 2], &[1, 2], &[0], &[]),
        after(&[1, 2], &[1, 2], &[0], &[0]),
        after(&[1, 2], &[1, 2], &[0], &[0]),
    ];
    begin(rt, kernel, TaskId(0), &call(Service::SemPend, 0));
    made(rt, kernel, &first, Outcome::Waits);
    let second = [
        after(&[1, 2], &[1, 2], &[0], &[0]),
        after(&[2], &[1, 2], &[0], &[0]),
        after(&[2], &[2], &[0], &[0]),
        after(&[2], &[2], &[0], &[0]),
        after(&[2], &[2], &[0, 1], &[0]),
        after(&[2], &[2], &[0, 1], &[0, 1]),
        after(&[2], &[2], &[0, 1], &[0, 1]),
    ];
    begin(rt, kernel, TaskId(1), &call(Service::SemPend, 0));
    made(rt, kernel, &second, Outcome::Waits);
    let tail = [
        after(&[2], &[2], &[0, 1], &[0, 1]),
        after(&[2], &[2], &[1], &[0, 1]),
        after(&[2], &[2], &[1], &[1]),
        after(&[2, 0], &[2], &[1], &[1]),
        after(&[2, 0], &[2, 0], &[1], &[1]),
        after(&[2, 0], &[2, 0], &[1], &[1]),
        after(&[2, 0], &[2, 0], &[1], &[1]),
    ];
    begin(rt, kernel, TaskId(2), &call(Service::SemPost, 0));
    made(rt, kernel, &tail, fine(0));
    let head = [
        after(&[2, 0], &[2, 0], &[1], &[1]),
        after(&[2, 0], &[2, 0], &[], &[1]),
        after(&[2, 0], &[2, 0], &[], &[]),
        after(&[1, 2, 0], &[2, 0], &[], &[]),
        after(&[1, 2, 0], &[1, 2, 0], &[], &[]),
        after(&[1, 2, 0], &[1, 2, 0], &[], &[]),
        after(&[1, 2, 0], &[1, 2, 0], &[], &[]),
    ];
    let post = Post {
        service: Service::SemPost,
        args: [0; 4],
    };
    assert!(rt; kernel.is_free() && kernel.has_room());
    kernel.begin_take(post, Prio(20), Prio(20));
    made(rt, kernel, &head, fine(0));
    assert!(rt; kernel.is_free());
    assert_eq!(rt; kernel.pick(), TaskId(1));
}

#[test]
fn posts_by_index(rt: HostRuntime) -> Result<(), Fail> {
    let alloc = rt.alloc();
    let mut kernel = kernel(
        alloc,
        IndexLinks::new(alloc, 128)?,
        IndexLinks::new(alloc, 576)?,
    )?;
    posts(&rt, &mut kernel);
    Ok(())
}

#[test]
fn posts_by_pointer(rt: HostRuntime) -> Result<(), Fail> {
    let alloc = rt.alloc();
    let mut kernel = kernel(
        alloc,
        RawLinks::new(alloc, 128)?,
        RawLinks::new(alloc, 576)?,
    )?;
    posts(&rt, &mut kernel);
    Ok(())
}

#[test]
fn half_made_lists_of_calls(rt: HostRuntime) -> Result<(), Fail> {
    let alloc = rt.alloc();
    let mut kernel = kernel(
        alloc,
        IndexLinks::new(alloc, 128)?,
        IndexLinks::new(alloc, 576)?,
    )?;
    steps(&rt, &mut kernel);
    Ok(())
}

// A task yields: it leaves its list and joins its tail. A tick that the handler takes after it interrupted this priority readies the
// tick task, which is in another list, and spends of the first task's quantum.
fn turns<L: Links>(rt: &impl Abort, kernel: &mut Kernel<L>) {
    let yields = [
        after(&[0, 1, 2], &[0, 1, 2], &[], &[]),
        after(&[1, 2], &[0, 1, 2], &[], &[]),
        after(&[1, 2], &[1, 2], &[], &[]),
        after(&[1, 2, 0], &[1, 2], &[], &[]),
        after(&[1, 2, 0], &[1, 2, 0], &[], &[]),
        after(&[1, 2, 0], &[1, 2, 0], &[], &[]),
        after(&[1, 2, 0], &[1, 2, 0], &[], &[]),
    ];
    begin(rt, kernel, TaskId(0), &call(Service::RoundRobinYield, 0));
    made(rt, kernel, &yields, fine(0));
    let tick = [after(&[1, 2, 0], &[1, 2, 0], &[], &[]); 5];
    let post = Post {
        service: Service::TimeTick,
        args: [0; 4],
    };
    assert!(rt; kernel.is_free() && kernel.has_room());
    kernel.begin_take(post, Prio(10), Prio(10));
    made(rt, kernel, &tick, fine(0));
    assert!(rt; kernel.is_free());
    assert_eq!(rt; kernel.pick(), TaskId(60));
}

#[test]
fn half_made_lists_of_turns(rt: HostRuntime) -> Result<(), Fail> {
    let alloc = rt.alloc();
    let mut kernel = kernel(
        alloc,
        IndexLinks::new(alloc, 128)?,
        IndexLinks::new(alloc, 576)?,
    )?;
    turns(&rt, &mut kernel);
    Ok(())
}

// Makes the step in hand, of so many micro-steps.
fn whole<L: Links>(rt: &impl Abort, kernel: &mut Kernel<L>, count: u32) {
    for _ in 0..count {
        assert!(rt; !kernel.is_free());
        let _ = kernel.advance();
    }
    assert!(rt; kernel.is_free());
}

// Waits for a queue, for event flags and for the caller's own semaphore, and the posts of interrupt code that end them, each with
// what it hands.
fn waits<L: Links>(rt: &impl Abort, kernel: &mut Kernel<L>) {
    for (task, service, args, steps) in [
        (0u8, Service::QPend, [2, 0, 0, 0], 6u32),
        (1, Service::FlagPend, [3, 6, 0, 1], 6),
        (2, Service::TaskSemPend, [0, 0, 0, 0], 4),
    ] {
        let mut request = call(service, 0);
        request.args = args;
        begin(rt, kernel, TaskId(task), &request);
        whole(rt, kernel, steps);
        assert!(rt; kernel.tcb(TaskId(task)).wait != Waiting::No);
    }
    for (service, args, task, value, extra) in [
        (Service::QPost, [2, 0x10_0004, 3, 0], 0u8, 0x10_0004, 3),
        (Service::FlagPost, [3, 4, 0, 0], 1, 4, 0),
        (Service::TaskSemPost, [2, 0, 0, 0], 2, 0, 0),
    ] {
        assert!(rt; kernel.is_free() && kernel.has_room());
        let answer = kernel.post_now(Post { service, args }, Prio(10));
        assert_eq!(rt; answer.err, OsErr::NoError);
        let tcb = kernel.tcb(TaskId(task));
        assert!(rt; tcb.wait == Waiting::No);
        assert!(rt;
            tcb.result
                .is_some_and(|it| it.answer.value == value && it.answer.extra == extra)
        );
    }
}

#[test]
fn waits_of_each_kind(rt: HostRuntime) -> Result<(), Fail> {
    let alloc = rt.alloc();
    let mut kernel = kernel(
        alloc,
        IndexLinks::new(alloc, 128)?,
        IndexLinks::new(alloc, 576)?,
    )?;
    waits(&rt, &mut kernel);
    Ok(())
}

// A wait reads a waiter for each that it passes, and no list whole; a pick reads the first of a ready list; a call without a
// block reads next to nothing.
fn reads_counted<L: Links>(
    rt: &impl Abort,
    kernel: &mut Kernel<L>,
    ready: &Cell<u32>,
    pend: &Cell<u32>,
) {
    for task in 0..2u8 {
        begin(rt, kernel, TaskId(task), &call(Service::SemPend, 0));
        whole(rt, kernel, 6 + task as u32);
        ready.set(0);
        assert!(rt; kernel.is_free());
        assert_eq!(rt; kernel.pick(), TaskId(task + 1));
        assert!(rt; ready.get() >= 1);
    }
    ready.set(0);
    pend.set(0);
    begin(rt, kernel, TaskId(2), &call(Service::SemPost, 1));
    whole(rt, kernel, 2);
    assert!(rt; ready.get() == 0 && pend.get() <= 1);
    pend.set(0);
    begin(rt, kernel, TaskId(2), &call(Service::SemPend, 0));
    whole(rt, kernel, 8);
    assert!(rt; pend.get() >= 2 && pend.get() <= 10);
}

#[test]
fn reads_of_calls(rt: HostRuntime) -> Result<(), Fail> {
    let alloc = rt.alloc();
    let in_ready = Cell::new(0);
    let in_pend = Cell::new(0);
    let ready = CountedLinks {
        links: IndexLinks::new(alloc, 128)?,
        reads: &in_ready,
    };
    let pend = CountedLinks {
        links: IndexLinks::new(alloc, 576)?,
        reads: &in_pend,
    };
    let mut kernel = kernel(alloc, ready, pend)?;
    reads_counted(&rt, &mut kernel, &in_ready, &in_pend);
    Ok(())
}
