// Rows of the services of a task's own semaphore and message queue.

ghost use Rattle.std.specs.Prelude.{◌≡◌};
ghost use Rattle.msg_queues.specs.Stored.{AreStored};
ghost use Rattle.task_objects.specs.Rows.{IsTaskCall};

use crate::TaskBox;
use kern_base::{Answer, Around, Decision, OsErr, Prio, Request, Service, TaskId, Who};
use msg_queues::MsgPool;
use std::process::Abort;
use std::test::Fail;

fn request(service: Service, args: [u32; 4]) -> Request
    ensures { result.service ≡ service }
{
    Request {
        service,
        args,
        ids: [0; 8],
        n_ids: 0,
        table: false,
    }
}

fn sem_post() -> Request
    ensures { IsTaskCall result }
{
    request(Service::TaskSemPost, [9, 0, 0, 0])
}

fn q_post(address: u32, size: u32, option: u32) -> Request
    ensures { IsTaskCall result }
{
    request(Service::TaskQPost, [9, address, size, option])
}

fn sem_pend(option: u32) -> Request
    ensures { IsTaskCall result }
{
    request(Service::TaskSemPend, [100, option, 0, 0])
}

fn q_pend(option: u32) -> Request
    ensures { IsTaskCall result }
{
    request(Service::TaskQPend, [100, option, 0, 0])
}

fn sem_abort(task: u32) -> Request
    ensures { IsTaskCall result }
{
    request(Service::TaskSemPendAbort, [task, 0, 0, 0])
}

fn q_abort(task: u32) -> Request
    ensures { IsTaskCall result }
{
    request(Service::TaskQPendAbort, [task, 0, 0, 0])
}

fn around(waits: bool, locked: bool) -> Around {
    Around {
        caller: TaskId(3),
        locked,
        first: waits.then_some(TaskId(9)),
        prio: Prio(7),
    }
}

fn answered(err: OsErr, value: u32, extra: u32) -> Decision {
    Decision::Done(Answer { err, value, extra })
}

// A call on these objects comes to this decision, and then so many messages are free.
fn check_row(
    rt: &impl Abort,
    own: &mut TaskBox,
    pool: &mut MsgPool,
    request: Request,
    seen: Around,
    decision: Decision,
    free: u32,
)
    requires call { IsTaskCall request }
    requires stored { AreStored own.old.keys pool.old }
    ensures { AreStored own.new.keys pool.new }
{
    let decided = own.decide(&request, &seen, pool);
    assert_eq!(rt; decided, decision);
    own.apply(&request, &seen, &decided, pool);
    assert_eq!(rt; pool.free(), free);
}

#[test]
fn the_semaphore(rt: HostRuntime) -> Result<(), Fail> {
    let mut pool = MsgPool::new(rt.alloc(), 1)?;
    let mut own = TaskBox::new(rt.alloc(), 0)?;
    let (alone, waited, locked) = (
        around(false, false),
        around(true, false),
        around(false, true),
    );
    let wakes = Decision::Wake(Who::First);
    let own_wait = answered(OsErr::PendAbortSelf, 0, 0);
    check_row(
        &rt,
        &mut own,
        &mut pool,
        sem_pend(0),
        alone,
        Decision::Block,
        1,
    );
    check_row(&rt, &mut own, &mut pool, sem_post(), waited, wakes, 1);
    check_row(
        &rt,
        &mut own,
        &mut pool,
        sem_post(),
        alone,
        answered(OsErr::NoError, 1, 0),
        1,
    );
    check_row(
        &rt,
        &mut own,
        &mut pool,
        sem_post(),
        locked,
        answered(OsErr::NoError, 2, 0),
        1,
    );
    check_row(
        &rt,
        &mut own,
        &mut pool,
        sem_pend(1),
        locked,
        answered(OsErr::NoError, 1, 0),
        1,
    );
    check_row(
        &rt,
        &mut own,
        &mut pool,
        sem_pend(0),
        alone,
        answered(OsErr::NoError, 0, 0),
        1,
    );
    check_row(
        &rt,
        &mut own,
        &mut pool,
        sem_pend(1),
        locked,
        answered(OsErr::WouldBlock, 0, 0),
        1,
    );
    check_row(
        &rt,
        &mut own,
        &mut pool,
        sem_pend(0),
        locked,
        answered(OsErr::SchedLocked, 0, 0),
        1,
    );
    check_row(&rt, &mut own, &mut pool, sem_abort(9), waited, wakes, 1);
    check_row(
        &rt,
        &mut own,
        &mut pool,
        sem_abort(9),
        alone,
        answered(OsErr::PendAbortNone, 0, 0),
        1,
    );
    check_row(&rt, &mut own, &mut pool, sem_abort(3), alone, own_wait, 1);
    check_row(
        &rt,
        &mut own,
        &mut pool,
        sem_abort(4_294_967_295),
        alone,
        own_wait,
        1,
    );
    Ok(())
}

#[test]
fn the_queue(rt: HostRuntime) -> Result<(), Fail> {
    let mut pool = MsgPool::new(rt.alloc(), 3)?;
    let mut own = TaskBox::new(rt.alloc(), 2)?;
    let (alone, waited) = (around(false, false), around(true, false));
    let stored = answered(OsErr::NoError, 0, 0);
    let wakes = Decision::Wake(Who::First);
    check_row(
        &rt,
        &mut own,
        &mut pool,
        q_post(100, 8, 1),
        waited,
        wakes,
        3,
    );
    check_row(
        &rt,
        &mut own,
        &mut pool,
        q_post(100, 8, 0),
        alone,
        stored,
        2,
    );
    check_row(
        &rt,
        &mut own,
        &mut pool,
        q_post(200, 16, 1),
        alone,
        stored,
        1,
    );
    check_row(
        &rt,
        &mut own,
        &mut pool,
        q_post(300, 0, 0),
        alone,
        answered(OsErr::QueueMax, 0, 0),
        1,
    );
    check_row(
        &rt,
        &mut own,
        &mut pool,
        q_pend(0),
        alone,
        answered(OsErr::NoError, 200, 16),
        2,
    );
    check_row(
        &rt,
        &mut own,
        &mut pool,
        q_pend(1),
        alone,
        answered(OsErr::NoError, 100, 8),
        3,
    );
    check_row(
        &rt,
        &mut own,
        &mut pool,
        q_pend(0),
        alone,
        Decision::Block,
        3,
    );
    check_row(&rt, &mut own, &mut pool, q_abort(9), waited, wakes, 3);
    check_row(
        &rt,
        &mut own,
        &mut pool,
        q_post(300, 0, 0),
        alone,
        stored,
        2,
    );
    own.clear(&mut pool);
    assert_eq!(rt; pool.free(), 3);
    Ok(())
}
