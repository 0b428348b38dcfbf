// Rows of the services of counting semaphores.

ghost use Rattle.std.specs.Prelude.{◌≡◌};
ghost use Rattle.semaphores.specs.Rows.{IsSemaphoreCall};

use crate::Sem;
use kern_base::{Answer, Around, Decision, OsErr, Prio, Request, Service, TaskId, Who};
use std::process::Abort;

fn request(service: Service, args: [u32; 4]) -> Request
    ensures { result.service ≡ service }
{
    Request {
        service,
        args,
        ids: [0; 8],
        n_ids: 0,
        table: false,
    }
}

fn post(option: u32) -> Request
    ensures { IsSemaphoreCall result }
{
    request(Service::SemPost, [4, option, 0, 0])
}

fn pend(option: u32) -> Request
    ensures { IsSemaphoreCall result }
{
    request(Service::SemPend, [4, 100, option, 0])
}

fn abort(option: u32) -> Request
    ensures { IsSemaphoreCall result }
{
    request(Service::SemPendAbort, [4, option, 0, 0])
}

fn delete(option: u32) -> Request
    ensures { IsSemaphoreCall result }
{
    request(Service::SemDel, [4, option, 0, 0])
}

fn around(waits: bool, locked: bool) -> Around {
    Around {
        caller: TaskId(3),
        locked,
        first: waits.then_some(TaskId(9)),
        prio: Prio(7),
    }
}

fn answered(err: OsErr, value: u32) -> Decision {
    Decision::Done(Answer {
        err,
        value,
        extra: 0,
    })
}

// A call at this count comes to this decision and leaves this count.
fn check_row(
    rt: &impl Abort,
    count: u32,
    request: Request,
    seen: Around,
    decision: Decision,
    after: u32,
)
    requires { IsSemaphoreCall request }
{
    let mut sem = Sem { count };
    let decided = sem.decide(&request, &seen);
    assert_eq!(rt; decided, decision);
    sem.apply(&request, &seen, &decided);
    assert_eq!(rt; sem.count, after);
}

#[test]
fn posts_and_waits(rt: HostRuntime) {
    let full = 4_294_967_295;
    let (alone, waited) = (around(false, false), around(true, false));
    check_row(&rt, 0, post(0), alone, answered(OsErr::NoError, 1), 1);
    check_row(
        &rt,
        full - 1,
        post(2),
        around(false, true),
        answered(OsErr::NoError, full),
        full,
    );
    check_row(
        &rt,
        full,
        post(0),
        alone,
        answered(OsErr::SemOverflow, 0),
        full,
    );
    check_row(&rt, 0, post(0), waited, Decision::Wake(Who::First), 0);
    check_row(
        &rt,
        0,
        post(2),
        around(true, true),
        Decision::Wake(Who::All),
        0,
    );
    check_row(
        &rt,
        3,
        pend(0),
        around(false, true),
        answered(OsErr::NoError, 2),
        2,
    );
    check_row(
        &rt,
        0,
        pend(1),
        around(false, true),
        answered(OsErr::WouldBlock, 0),
        0,
    );
    check_row(
        &rt,
        0,
        pend(0),
        around(true, true),
        answered(OsErr::SchedLocked, 0),
        0,
    );
    check_row(&rt, 0, pend(0), waited, Decision::Block, 0);
}

#[test]
fn aborts_and_deletions(rt: HostRuntime) {
    let (alone, waited) = (around(false, false), around(true, false));
    check_row(&rt, 0, abort(0), waited, Decision::Wake(Who::First), 0);
    check_row(&rt, 0, abort(1), waited, Decision::Wake(Who::All), 0);
    check_row(
        &rt,
        2,
        abort(1),
        alone,
        answered(OsErr::PendAbortNone, 0),
        2,
    );
    check_row(
        &rt,
        0,
        delete(0),
        waited,
        answered(OsErr::TaskWaiting, 0),
        0,
    );
    check_row(&rt, 0, delete(1), waited, Decision::Wake(Who::All), 0);
    check_row(&rt, 5, delete(0), alone, Decision::Wake(Who::All), 5);
}
