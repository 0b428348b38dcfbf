// Messages over several queues and tasks.

ghost use Rattle.std.specs.Prelude.{◌≡◌, ◌<◌, length};
ghost use Rattle.msg_queues.specs.Rows.{IsQueueCall};
ghost use Rattle.task_objects.specs.Rows.{IsTaskCall};

use crate::MessageStore;
use app_image::{Image, check, read_image};
use kern_base::{Answer, Around, Decision, ObjId, OsErr, Prio, Request, Service, TaskId, Who};
use std::alloc::Global;
use std::process::Abort;
use std::test::Fail;

// Version 2: one code word that loops, a pool of 3 messages; the tasks `a` and `b`, whose queues hold 2 messages and 1; the queues
// `one` of 2 messages and `two` of 3, and between them a semaphore of count 5.
const IMAGE: &[u8] =
    b"UC3I\x02\0\0\0\x01\0\0\0\0\0\0\0\x02\0\x03\0\0\0\0\0\0\x01\0\0\x10\0\0\0\x03\0\0\0\x0a\0\0\0\x01\0\0\0\x0a\0\0\0\x01\0\0\0>\0\0\0\0\0\x14\0\0\0\0\0\
a\0\0\0\0\0\0\0\0\0\0\0\0\0\0\0\0\0\0\0\0\0\x14\0\x14\0\0\0\x0a\0\0\0\x02\0\0\0\
b\0\0\0\0\0\0\0\0\0\0\0\0\0\0\0\0\0\0\0\0\0\x14\0\x15\0\0\0\x0a\0\0\0\x01\0\0\0\
one\0\0\0\0\0\0\0\0\0\0\0\0\0\x02\0\0\0\x02\0\0\0\0\0\0\0\0\0\0\0\0\0\0\0\
sem\0\0\0\0\0\0\0\0\0\0\0\0\0\x01\0\0\0\x05\0\0\0\0\0\0\0\0\0\0\0\0\0\0\0\
two\0\0\0\0\0\0\0\0\0\0\0\0\0\x02\0\0\0\x03\0\0\0\0\0\0\0\0\0\0\0\0\0\0\0\
o\0\0\0";

fn image(alloc: Global) -> Result<Image, Fail> {
    let Ok((raw, _)) = read_image(alloc, IMAGE) else {
        return Err(Fail::from("no image"));
    };
    match check(raw) {
        Ok(image) => Ok(image),
        Err(_) => Err(Fail::from("refused")),
    }
}

// What is called: a service on the queue of an object or of a task, by its number. A message has this address and size 8.
#[derive(Clone, Copy)]
enum Call {
    Post(u8, u32),
    Pend(u8),
    Delete(u8),
    TaskPost(u8, u32),
    TaskPend(u8),
    Signal(u8),
    Await(u8),
}

fn request(service: Service, args: [u32; 4]) -> Request
    ensures { result.service ≡ service }
{
    Request {
        service,
        args,
        ids: [0; 8],
        n_ids: 0,
        table: false,
    }
}

fn post(number: u8, address: u32) -> Request
    ensures { IsQueueCall result }
{
    request(Service::QPost, [number as u32, address, 8, 0])
}

fn pend(number: u8) -> Request
    ensures { IsQueueCall result }
{
    request(Service::QPend, [number as u32, 100, 0, 0])
}

fn delete(number: u8) -> Request
    ensures { IsQueueCall result }
{
    request(Service::QDel, [number as u32, 1, 0, 0])
}

fn task_post(number: u8, address: u32) -> Request
    ensures { IsTaskCall result }
{
    request(Service::TaskQPost, [number as u32, address, 8, 0])
}

fn task_pend() -> Request
    ensures { IsTaskCall result }
{
    request(Service::TaskQPend, [100, 0, 0, 0])
}

fn signal(number: u8) -> Request
    ensures { IsTaskCall result }
{
    request(Service::TaskSemPost, [number as u32, 0, 0, 0])
}

fn wait_for_signal() -> Request
    ensures { IsTaskCall result }
{
    request(Service::TaskSemPend, [100, 0, 0, 0])
}

// Nobody waits.
fn around() -> Around {
    Around {
        caller: TaskId(3),
        locked: false,
        first: None,
        prio: Prio(7),
    }
}

fn done(value: u32, extra: u32) -> Decision {
    Decision::Done(Answer {
        err: OsErr::NoError,
        value,
        extra,
    })
}

fn refused(err: OsErr) -> Decision {
    Decision::Done(Answer {
        err,
        value: 0,
        extra: 0,
    })
}

// What a call on the queue of one of three objects comes to, and it is done.
fn on_queue(rt: &impl Abort, store: &mut MessageStore, number: u8, request: Request) -> Decision
    requires call { IsQueueCall request }
    requires objects { 2 < length store.old.queues }
    ensures { 2 < length store.new.queues }
{
    assert!(rt; number < 3);
    let seen = around();
    let decided = store.decide(ObjId(number), &request, &seen);
    store.apply(ObjId(number), &request, &seen, &decided);
    decided
}

// What a call on a task's own objects comes to, and it is done.
fn on_task(rt: &impl Abort, store: &mut MessageStore, number: u8, request: Request) -> Decision
    requires call { IsTaskCall request }
    requires objects { 2 < length store.old.queues }
    ensures { 2 < length store.new.queues }
{
    assert!(rt; number < 64);
    let seen = around();
    let decided = store.decide_own(TaskId(number), &request, &seen);
    store.apply_own(TaskId(number), &request, &seen, &decided);
    decided
}

fn run(rt: &impl Abort, store: &mut MessageStore, call: Call) -> Decision
    requires { 2 < length store.old.queues }
    ensures { 2 < length store.new.queues }
{
    match call {
        Call::Post(number, address) => on_queue(rt, store, number, post(number, address)),
        Call::Pend(number) => on_queue(rt, store, number, pend(number)),
        Call::Delete(number) => on_queue(rt, store, number, delete(number)),
        Call::TaskPost(number, address) => on_task(rt, store, number, task_post(number, address)),
        Call::TaskPend(number) => on_task(rt, store, number, task_pend()),
        Call::Signal(number) => on_task(rt, store, number, signal(number)),
        Call::Await(number) => on_task(rt, store, number, wait_for_signal()),
    }
}

// Each call comes to this decision, and then so many messages are free.
fn run_all(rt: &impl Abort, store: &mut MessageStore, rows: &[(Call, Decision, u32)])
    requires { 2 < length store.old.queues }
    ensures { 2 < length store.new.queues }
{
    for (call, decision, free) in rows {
        let decided = run(rt, store, *call);
        assert_eq!(rt; decided, *decision);
        assert_eq!(rt; store.free(), *free);
    }
}

#[test]
fn two_queues_and_two_tasks_share_three_messages(rt: HostRuntime) -> Result<(), Fail> {
    let image = image(rt.alloc())?;
    assert_eq!(rt; image.objects().len(), 3);
    let mut store = MessageStore::new(rt.alloc(), &image)?;
    let (full, empty) = (refused(OsErr::QueueMax), refused(OsErr::PoolEmpty));
    run_all(
        &rt,
        &mut store,
        &[
            (Call::Post(0, 10), done(0, 0), 2),
            (Call::TaskPost(0, 20), done(0, 0), 1),
            (Call::Post(0, 30), done(0, 0), 0),
            // a full queue is told before an empty pool
            (Call::Post(0, 40), full, 0),
            (Call::Post(2, 50), empty, 0),
            (Call::TaskPost(1, 60), empty, 0),
            // what one queue gives back another takes at once
            (Call::Pend(0), done(10, 8), 1),
            (Call::TaskPost(1, 60), done(0, 0), 0),
            (Call::Pend(2), Decision::Block, 0),
            (Call::TaskPend(0), done(20, 8), 1),
            (Call::Post(2, 50), done(0, 0), 0),
            (Call::Pend(0), done(30, 8), 1),
            (Call::TaskPost(1, 70), full, 1),
            (Call::Post(2, 80), done(0, 0), 0),
            (Call::Delete(2), Decision::Wake(Who::All), 2),
            (Call::TaskPend(1), done(60, 8), 3),
            // neither a semaphore nor a number without a task holds a message
            (Call::Post(1, 90), full, 3),
            (Call::TaskPost(62, 90), full, 3),
        ],
    );
    Ok(())
}

#[test]
fn a_task_gives_its_messages_back_and_keeps_its_count(rt: HostRuntime) -> Result<(), Fail> {
    let image = image(rt.alloc())?;
    assert_eq!(rt; image.objects().len(), 3);
    let mut store = MessageStore::new(rt.alloc(), &image)?;
    let before = [
        (Call::TaskPost(0, 10), done(0, 0), 2),
        (Call::TaskPost(0, 20), done(0, 0), 1),
        (Call::TaskPost(1, 30), done(0, 0), 0),
        (Call::Signal(0), done(1, 0), 0),
    ];
    run_all(&rt, &mut store, &before);
    store.clear_own(TaskId(0));
    let after = [
        (Call::Post(2, 40), done(0, 0), 1),
        (Call::TaskPend(0), Decision::Block, 1),
        (Call::TaskPend(1), done(30, 8), 2),
        (Call::Await(0), done(0, 0), 2),
    ];
    run_all(&rt, &mut store, &after);
    Ok(())
}
