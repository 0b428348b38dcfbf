// Rows of the services of message queues.

ghost use Rattle.std.specs.Prelude.{◌≡◌};
ghost use Rattle.msg_queues.specs.Rows.{IsQueueCall};
ghost use Rattle.msg_queues.specs.Stored.{AreStored};

use crate::{MsgPool, MsgQueue};
use kern_base::{Answer, Around, Decision, OsErr, Prio, Request, Service, TaskId, Who};
use std::process::Abort;
use std::test::Fail;

fn request(service: Service, args: [u32; 4]) -> Request
    ensures { result.service ≡ service }
{
    Request {
        service,
        args,
        ids: [0; 8],
        n_ids: 0,
        table: false,
    }
}

fn post(address: u32, size: u32, option: u32) -> Request
    ensures { IsQueueCall result }
{
    request(Service::QPost, [4, address, size, option])
}

fn pend(option: u32) -> Request
    ensures { IsQueueCall result }
{
    request(Service::QPend, [4, 100, option, 0])
}

fn abort(option: u32) -> Request
    ensures { IsQueueCall result }
{
    request(Service::QPendAbort, [4, option, 0, 0])
}

fn delete(option: u32) -> Request
    ensures { IsQueueCall result }
{
    request(Service::QDel, [4, option, 0, 0])
}

fn around(waits: bool, locked: bool) -> Around {
    Around {
        caller: TaskId(3),
        locked,
        first: waits.then_some(TaskId(9)),
        prio: Prio(7),
    }
}

fn answered(err: OsErr, value: u32, extra: u32) -> Decision {
    Decision::Done(Answer { err, value, extra })
}

// A call on this queue comes to this decision, and then so many messages are free.
fn check_row(
    rt: &impl Abort,
    queue: &mut MsgQueue,
    pool: &mut MsgPool,
    request: Request,
    seen: Around,
    decision: Decision,
    free: u32,
)
    requires call { IsQueueCall request }
    requires stored { AreStored queue.old.keys pool.old }
    ensures { AreStored queue.new.keys pool.new }
{
    let decided = queue.decide(&request, &seen, pool);
    assert_eq!(rt; decided, decision);
    queue.apply(&request, &seen, &decided, pool);
    assert_eq!(rt; pool.free(), free);
}

#[test]
fn messages_come_in_order(rt: HostRuntime) -> Result<(), Fail> {
    let mut pool = MsgPool::new(rt.alloc(), 4)?;
    let mut queue = MsgQueue::new(rt.alloc(), 3)?;
    let (alone, locked) = (around(false, false), around(false, true));
    let stored = answered(OsErr::NoError, 0, 0);
    check_row(
        &rt,
        &mut queue,
        &mut pool,
        pend(0),
        alone,
        Decision::Block,
        4,
    );
    check_row(
        &rt,
        &mut queue,
        &mut pool,
        post(100, 8, 0),
        alone,
        stored,
        3,
    );
    check_row(
        &rt,
        &mut queue,
        &mut pool,
        post(200, 16, 0),
        locked,
        stored,
        2,
    );
    check_row(
        &rt,
        &mut queue,
        &mut pool,
        post(300, 24, 1),
        alone,
        stored,
        1,
    );
    check_row(
        &rt,
        &mut queue,
        &mut pool,
        post(400, 0, 0),
        alone,
        answered(OsErr::QueueMax, 0, 0),
        1,
    );
    check_row(
        &rt,
        &mut queue,
        &mut pool,
        pend(1),
        locked,
        answered(OsErr::NoError, 300, 24),
        2,
    );
    check_row(
        &rt,
        &mut queue,
        &mut pool,
        pend(0),
        alone,
        answered(OsErr::NoError, 100, 8),
        3,
    );
    check_row(
        &rt,
        &mut queue,
        &mut pool,
        pend(0),
        alone,
        answered(OsErr::NoError, 200, 16),
        4,
    );
    check_row(
        &rt,
        &mut queue,
        &mut pool,
        pend(1),
        locked,
        answered(OsErr::WouldBlock, 0, 0),
        4,
    );
    check_row(
        &rt,
        &mut queue,
        &mut pool,
        pend(0),
        locked,
        answered(OsErr::SchedLocked, 0, 0),
        4,
    );
    Ok(())
}

#[test]
fn a_full_queue_comes_before_an_empty_pool(rt: HostRuntime) -> Result<(), Fail> {
    let alone = around(false, false);
    let stored = answered(OsErr::NoError, 0, 0);
    let mut pool = MsgPool::new(rt.alloc(), 1)?;
    let mut queue = MsgQueue::new(rt.alloc(), 2)?;
    check_row(
        &rt,
        &mut queue,
        &mut pool,
        post(100, 8, 0),
        alone,
        stored,
        0,
    );
    check_row(
        &rt,
        &mut queue,
        &mut pool,
        post(200, 8, 0),
        alone,
        answered(OsErr::PoolEmpty, 0, 0),
        0,
    );
    let mut pool = MsgPool::new(rt.alloc(), 1)?;
    let mut queue = MsgQueue::new(rt.alloc(), 1)?;
    check_row(
        &rt,
        &mut queue,
        &mut pool,
        post(100, 8, 1),
        alone,
        stored,
        0,
    );
    check_row(
        &rt,
        &mut queue,
        &mut pool,
        post(200, 8, 1),
        alone,
        answered(OsErr::QueueMax, 0, 0),
        0,
    );
    Ok(())
}

#[test]
fn posts_to_waiters_aborts_and_deletions(rt: HostRuntime) -> Result<(), Fail> {
    let (alone, waited) = (around(false, false), around(true, false));
    let stored = answered(OsErr::NoError, 0, 0);
    let mut pool = MsgPool::new(rt.alloc(), 5)?;
    let mut queue = MsgQueue::new(rt.alloc(), 4)?;
    let none = answered(OsErr::PendAbortNone, 0, 0);
    let waiting = answered(OsErr::TaskWaiting, 0, 0);
    check_row(
        &rt,
        &mut queue,
        &mut pool,
        post(100, 8, 1),
        waited,
        Decision::Wake(Who::First),
        5,
    );
    check_row(
        &rt,
        &mut queue,
        &mut pool,
        post(100, 8, 2),
        waited,
        Decision::Wake(Who::All),
        5,
    );
    check_row(
        &rt,
        &mut queue,
        &mut pool,
        abort(0),
        waited,
        Decision::Wake(Who::First),
        5,
    );
    check_row(
        &rt,
        &mut queue,
        &mut pool,
        post(100, 8, 0),
        alone,
        stored,
        4,
    );
    check_row(
        &rt,
        &mut queue,
        &mut pool,
        post(200, 8, 3),
        alone,
        stored,
        3,
    );
    check_row(&rt, &mut queue, &mut pool, abort(1), alone, none, 3);
    check_row(&rt, &mut queue, &mut pool, delete(0), waited, waiting, 3);
    check_row(
        &rt,
        &mut queue,
        &mut pool,
        delete(0),
        alone,
        Decision::Wake(Who::All),
        5,
    );
    check_row(
        &rt,
        &mut queue,
        &mut pool,
        pend(0),
        alone,
        Decision::Block,
        5,
    );
    Ok(())
}
